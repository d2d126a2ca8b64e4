//! Modules without sugar.
ghost use Rattle.std.specs.Prelude.{map, IfOk};
ghost use Rattle.plain_tree.specs.View.{plain_view};
ghost use Rattle.plain_projects.specs.Listed.{ArePlainOf};

use desugar::plain;
use plain_tree::Plain;
use project_sources::ModuleSource;
use std::alloc::{AllocError, Global};

/// The modules without sugar, in order.
pub fn plains_of(alloc: Global, modules: &[ModuleSource]) -> Result<Vec<Plain>, AllocError>
    ensures { IfOk result (λ plains. ArePlainOf modules.now (map plain_view plains.items)) }
{
    let mut plains = Vec::new(alloc);
    for module in modules {
        let tree = plain(alloc, &module.tree)?;
        plains.push(tree)?;
    }
    Ok(plains)
}

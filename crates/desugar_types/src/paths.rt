//! Paths: `Path = {UpperDot} lower`.
ghost use Rattle.std.specs.Prelude.{◌≡◌, ◌++◌, IfOk};
ghost use Rattle.desugar_values.specs.View.{meanings_tree};
ghost use Rattle.desugar_types.specs.Paths.{path_of, within};

use desugar_values::{Meanings, characters, modules};
use plain_tree::{Modules, Path};
use std::alloc::{AllocError, Global};
use surface_tree::Token;

/// The name that a path is.
pub fn path_of(alloc: Global, parts: Meanings) -> Result<Path, AllocError>
    ensures { IfOk result (λ path. path ≡ path_of (meanings_tree parts)) }
{
    let mut parts = parts;
    let modules = modules(alloc, parts.several(alloc))?;
    let name = characters(alloc, parts.token().content);
    Ok(Path { modules, name })
}

/// A path within a module.
pub fn within(alloc: Global, outer: Token, path: Path) -> Result<Path, AllocError>
    ensures { IfOk result (λ made. made ≡ within outer path) }
{
    let mut modules = Modules::new(alloc);
    modules.push(characters(alloc, outer.content))?;
    Ok(Path {
        modules: add_modules(modules, path.modules)?,
        name: path.name,
    })
}

/// These names of modules, and behind them further ones.
fn add_modules(modules: Modules, more: Modules) -> Result<Modules, AllocError>
    ensures { IfOk result (λ all. all ≡ modules ++ more) }
{
    let mut all = modules;
    for outer in more.items {
        all.push(outer)?;
    }
    Ok(all)
}

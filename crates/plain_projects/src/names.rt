//! The names of modules.
ghost use Rattle.std.specs.Prelude.{◌≡◌, map, IfOk};
ghost use Rattle.project_files.specs.Directives.{module_name};
ghost use Rattle.project_sources.specs.declared.modules.ModuleSource.{ModuleSource as AnyModule};

use project_sources::ModuleSource;
use std::alloc::{AllocError, Global};
use table_rows::{Text, Texts};

/// A module's name: its line with a capital. A line of a module begins with a letter.
fn name_of(alloc: Global, line: &str) -> Result<Text, AllocError>
    ensures { IfOk result (λ name. name ≡ module_name line.now) }
{
    let Some((first, rest)) = line.split_at_checked(1) else {
        return Err(AllocError);
    };
    let mut capital = first.to_string(alloc)?;
    capital.make_ascii_uppercase();
    let mut name = Text::of(alloc, capital.as_str())?;
    name.push_str(rest)?;
    Ok(name)
}

/// The names of the modules, in order.
pub fn names_of(alloc: Global, modules: &[ModuleSource]) -> Result<Texts, AllocError>
    ensures { IfOk result (λ names. names ≡ map (λ (m : AnyModule). module_name m.line) modules.now) }
{
    let mut names = Texts::new(alloc);
    for module in modules {
        let name = name_of(alloc, module.line.as_str())?;
        names.push(name)?;
    }
    Ok(names)
}

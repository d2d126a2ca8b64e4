//! What the files of modules are called.
ghost use Rattle.std.specs.Prelude.{◌≡◌, true, IfOk, List};
ghost use Rattle.std.specs.List.{list_any};
ghost use Rattle.project_sources.specs.Modules.{ModuleTrees, module_file};
ghost use Rattle.project_sources.specs.View.{ListsModules};
ghost use Rattle.site_build.specs.Refusals.{IsAt, begins_at};

use con_terms::Place;
use project_sources::ModuleSource;
use std::alloc::{AllocError, Global};
use surface_tree::Token;
use table_rows::Text;

/// The file of a module, by its line in the project file.
pub(crate) fn file_of(alloc: Global, line: &Text) -> Result<Text, AllocError>
    ensures { IfOk result (λ file. file ≡ module_file line.now) }
{
    let mut file = line.copy(alloc)?;
    file.push_str(".ur")?;
    Ok(file)
}

/// Whether a token begins at this byte.
fn begins_token(tokens: &[Token], at: u32) -> bool
    ensures { result ≡ true → list_any (begins_at at) tokens.now ≡ true }
{
    for token in tokens {
        if token.at == at {
            return true;
        }
    }
    false
}

/// The file of the module that a place is in, where a token of it begins at the place. A place elsewhere counts as want
/// of memory, since faults stand at tokens.
pub(crate) fn file_at(
    alloc: Global,
    modules: &[ModuleSource],
    place: Place,
) -> Result<Text, AllocError>
    ensures { IfOk result (λ file. (ms : List ModuleTrees) → ListsModules modules.now ms
        → IsAt ms place file place.at) }
{
    let Some(module) = modules.get(place.file as usize) else {
        return Err(AllocError);
    };
    if !begins_token(module.tree.leaves(), place.at) {
        return Err(AllocError);
    }
    file_of(alloc, &module.line)
}

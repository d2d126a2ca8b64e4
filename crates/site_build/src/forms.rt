//! Forms of sources that aren't built yet: they are refused before their sugar is taken off.
ghost use Rattle.std.specs.Prelude.{◌≡◌, IfErr, IfOk, IsErrOf, List};
ghost use Rattle.project_sources.specs.Modules.{ModuleTrees};
ghost use Rattle.project_sources.specs.View.{ListsModules};
ghost use Rattle.site_build.specs.Causes.{AreBuilt};
ghost use Rattle.site_build.specs.Faults.{IsOfForms};

use crate::BuildFault;
use crate::names::file_of;
use project_sources::ModuleSource;
use std::alloc::Global;
use unbuilt_forms::first_unbuilt;

/// The modules, in order, have no form that isn't built yet, or the first that one has.
pub(crate) fn are_built(alloc: Global, modules: &[ModuleSource]) -> Result<(), BuildFault>
    ensures told { IsErrOf result BuildFault.ReadFault → ⊥ }
    ensures built { IfOk result (λ _. (ms : List ModuleTrees) → ListsModules modules.now ms → AreBuilt ms) }
    ensures refused { IfErr result (λ fault. (ms : List ModuleTrees) → ListsModules modules.now ms
        → IsOfForms ms fault) }
{
    for module in modules {
        if let Some(at) = first_unbuilt(&module.tree) {
            let file = file_of(alloc, &module.line)?;
            return Err(BuildFault::NotBuilt { file, at });
        }
    }
    Ok(())
}

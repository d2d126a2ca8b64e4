//! From the trees of modules to their explicit program.
ghost use Rattle.std.specs.Prelude.{◌≡◌, string_bytes, IfErr, IfOk, IsErrOf, List};
ghost use Rattle.core_terms.specs.View.{program_view};
ghost use Rattle.core_typing.specs.Accepts.{Accepts};
ghost use Rattle.core_typing.specs.Tells.{ProgramTells};
ghost use Rattle.plain_projects.specs.Listed.{AreWhole};
ghost use Rattle.project_sources.specs.Modules.{ModuleTrees};
ghost use Rattle.project_sources.specs.Projects.{ProjectTrees};
ghost use Rattle.project_sources.specs.View.{ListsModules, ListsProject};
ghost use Rattle.site_build.specs.Faults.{IsOfElaboration, IsOfModules, IsOfProgram, IsRefusal, IsRefusalAt, IsSourceOf};
ghost use Rattle.site_build.specs.Sources.{IsProgramOf};
ghost use Rattle.type_faults.specs.View.{fault_tree};

use crate::forms::are_built;
use crate::names::file_at;
use crate::{BuildFault, Site};
use core_checker::{CheckFault, Refused, checked};
use core_terms::Program;
use explicit_text::explicit_text;
use fault_lines::{Told, told_of_check, told_of_elaboration};
use plain_projects::{PlainProject, names_of, plain_project};
use program_elaborator::{Refusal, Source, Terms, elaborate_with};
use project_sources::{ModuleSource, Sources};
use std::alloc::{AllocError, Global};

/// What inference begins with.
fn source_of(alloc: Global, sources: &Sources) -> Result<Source, AllocError>
    ensures { IfOk result (λ source. (p : ProjectTrees) → ListsProject sources.now p → AreWhole p.modules
        → IsSourceOf p source) }
{
    let PlainProject {
        names,
        trees,
        exported,
        rules,
        foreign,
    } = plain_project(alloc, sources)?;
    Ok(Source {
        modules: names,
        trees,
        exported,
        rules,
        foreign,
    })
}

/// The refusal of a told fault: at its place, with its text.
fn refused(alloc: Global, modules: &[ModuleSource], told: Told) -> Result<BuildFault, AllocError>
    ensures told { IfOk result IsRefusal }
    ensures refused { IfOk result (λ fault. (ms : List ModuleTrees) → ListsModules modules.now ms
        → IsRefusalAt ms told.place (string_bytes told.text) fault) }
{
    let Told { place, text } = told;
    let file = file_at(alloc, modules, place)?;
    Ok(BuildFault::Refused {
        file,
        at: place.at,
        told: text,
    })
}

/// The refusal of modules that aren't elaborated.
fn unelaborated(
    alloc: Global,
    modules: &[ModuleSource],
    refusal: &Refusal,
) -> Result<BuildFault, AllocError>
    ensures told { IfOk result IsRefusal }
    ensures refused { IfOk result (λ fault. (ms : List ModuleTrees) → ListsModules modules.now ms
        → IsOfElaboration ms refusal.now.names refusal.now.fault fault) }
{
    let names = names_of(alloc, modules)?;
    let told = told_of_elaboration(alloc, &refusal.names, &names, &refusal.fault)?;
    refused(alloc, modules, told)
}

/// The explicit program of the sources, before it is checked.
fn elaborated<T: Terms + Drop>(
    alloc: Global,
    terms: &T,
    sources: &Sources,
) -> Result<Program, BuildFault>
    ensures told { IsErrOf result BuildFault.ReadFault → ⊥ }
    ensures refused { IfErr result (λ fault. (p : ProjectTrees) → ListsProject sources.now p → AreWhole p.modules
        → IsOfProgram p fault) }
    ensures source { IfOk result (λ g. (p : ProjectTrees) → ListsProject sources.now p → AreWhole p.modules
        → IsProgramOf p (program_view g)) }
{
    let source = source_of(alloc, sources)?;
    match elaborate_with(alloc, terms, source) {
        Ok(program) => Ok(program),
        Err(refusal) => Err(unelaborated(alloc, sources.modules.as_slice(), &refusal)?),
    }
}

/// The refusal of a program that the checker doesn't keep.
fn unchecked(
    alloc: Global,
    modules: &[ModuleSource],
    refusal: &Refused,
) -> Result<BuildFault, AllocError>
    ensures told { IfOk result IsRefusal }
    ensures refused { IfOk result (λ fault. (p : ProjectTrees) → ListsModules modules.now p.modules
        → IsProgramOf p (program_view refusal.now.program)
        → ProgramTells (program_view refusal.now.program) (fault_tree refusal.now.fault) → IsOfProgram p fault) }
{
    let told = told_of_check(alloc, &refusal.program, &refusal.fault)?;
    refused(alloc, modules, told)
}

/// The program, where the checker keeps it.
fn kept(alloc: Global, modules: &[ModuleSource], program: Program) -> Result<Program, BuildFault>
    ensures told { IsErrOf result BuildFault.ReadFault → ⊥ }
    ensures refused { IfErr result (λ fault. (p : ProjectTrees) → ListsModules modules.now p.modules
        → IsProgramOf p (program_view program) → IsOfProgram p fault) }
    ensures same { IfOk result (λ p. p ≡ program) }
    ensures accepted { IfOk result (λ p. Accepts (program_view p)) }
{
    match checked(alloc, program) {
        Ok(program) => Ok(program),
        Err(CheckFault::Memory) => Err(BuildFault::Memory),
        Err(CheckFault::Refused(refusal)) => Err(unchecked(alloc, modules, &refusal)?),
    }
}

/// The site of a project that was read, its terms elaborated so.
pub(crate) fn site_of<T: Terms + Drop>(
    alloc: Global,
    terms: &T,
    sources: &Sources,
) -> Result<Site, BuildFault>
    ensures told { IsErrOf result BuildFault.ReadFault → ⊥ }
    ensures refused { IfErr result (λ fault. (p : ProjectTrees) → ListsProject sources.now p → AreWhole p.modules
        → IsOfModules p fault) }
    ensures accepted { IfOk result (λ s. Accepts (program_view s.program)) }
    ensures source { IfOk result (λ s. (p : ProjectTrees) → ListsProject sources.now p → AreWhole p.modules
        → IsProgramOf p (program_view s.program)) }
{
    let modules = sources.modules.as_slice();
    are_built(alloc, modules)?;
    let program = elaborated(alloc, terms, sources)?;
    let program = kept(alloc, modules, program)?;
    let explicit = explicit_text(alloc, &program)?;
    Ok(Site { program, explicit })
}

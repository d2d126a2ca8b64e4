//! Building a project, and a module alone, over any elaboration of terms: what it gives is checked.
ghost use Rattle.std.specs.Prelude.{◌≡◌, ◌≤◌, true, IfErr, IfOk, IfSome, IsErrOf};
ghost use Rattle.core_terms.specs.View.{program_view};
ghost use Rattle.core_typing.specs.Accepts.{Accepts};
ghost use Rattle.project_files.specs.Projects.{nothing_said};
ghost use Rattle.project_files.specs.View.{said_by};
ghost use Rattle.project_sources.specs.Causes.{Says};
ghost use Rattle.project_sources.specs.Texts.{HasNoTree};
ghost use Rattle.project_sources.specs.View.{IsModuleListing, ListsProject};
ghost use Rattle.site_build.specs.Causes.{IsCauseIn, IsCauseOfText, only_file};
ghost use Rattle.site_build.specs.Sources.{HasProgram, IsProgramIn, IsProgramOfText, only_module};
ghost use Rattle.surface_grammar.specs.Listings.{Lists};
ghost use Rattle.surface_grammar.specs.Trees.{Node};
ghost use Rattle.ur_outside.specs.Causes.{Rose};
ghost use Rattle.ur_parser.specs.Sources.{module_part};

use crate::chain::site_of;
use crate::many_tables::{first_beyond, too_many_tables};
use crate::{BuildFault, Site};
use program_elaborator::Terms;
use project_files::Project;
use project_sources::{LONGEST, ModuleSource, SourceFault, Sources, read_sources, tree_of};
use std::alloc::{AllocError, Global};
use surface_grammar::Tree;
use table_rows::{Text, Texts};
use ur_outside::Files;

/// Builds the project in a folder. `objects` are the foreign modules that are there. The program that it gives is
/// accepted, and is what the folder's files say; a fault has the cause in them that `IsCauseIn` gives, which says
/// little of what inference refuses.
pub fn build<T: Terms + Drop, F: Files>(
    alloc: Global,
    terms: &T,
    files: &mut F,
    dir: &str,
    objects: &Texts,
) -> Result<Site, BuildFault>
    ensures kept { F.told files.new ≡ F.told files.old }
    ensures later { F.faults files.old ≤ F.faults files.new }
    ensures failed { IsErrOf result BuildFault.ReadFault → Rose (F.faults files.old) (F.faults files.new) }
    ensures accepted { IfOk result (λ s. Accepts (program_view s.program)) }
    ensures source { IfOk result (λ s. IfSome (F.told files.old)
        (λ files. IsProgramIn files dir.now objects.now (program_view s.program))) }
    ensures refused { IfErr result (λ fault. IfSome (F.told files.old)
        (λ files. IsCauseIn files dir.now objects.now fault)) }
{
    let sources = read_sources(alloc, files, dir, objects)?;
    match first_beyond(sources.modules.as_slice()) {
        Some(line) => Err(too_many_tables(alloc, files, dir, line)?),
        None => site_of(alloc, terms, &sources),
    }
}

/// The explicit program of the project in a folder, as text.
pub fn explicit_program<T: Terms + Drop, F: Files>(
    alloc: Global,
    terms: &T,
    files: &mut F,
    dir: &str,
    objects: &Texts,
) -> Result<String, BuildFault>
    ensures kept { F.told files.new ≡ F.told files.old }
    ensures later { F.faults files.old ≤ F.faults files.new }
    ensures failed { IsErrOf result BuildFault.ReadFault → Rose (F.faults files.old) (F.faults files.new) }
    ensures built { IfOk result (λ _. IfSome (F.told files.old)
        (λ files. HasProgram files dir.now objects.now)) }
    ensures refused { IfErr result (λ fault. IfSome (F.told files.old)
        (λ files. IsCauseIn files dir.now objects.now fault)) }
{
    let site = build(alloc, terms, files, dir, objects)?;
    Ok(site.into_explicit())
}

/// The tree of a module alone.
fn main_tree(alloc: Global, bytes: &[u8]) -> Result<Tree, SourceFault>
    ensures told { IsErrOf result SourceFault.ReadFault → ⊥ }
    ensures tree { IfOk result (IsModuleListing bytes.now) }
    ensures refused { IfErr result (Says (HasNoTree module_part only_file bytes.now)) }
{
    if bytes.len() > LONGEST {
        let file = Text::of(alloc, "Main.ur")?;
        return Err(SourceFault::FileTooLong { file });
    }
    tree_of(alloc, "Main.ur", bytes)
}

/// A project that says nothing.
fn silent_project(alloc: Global) -> Project
    ensures { said_by result ≡ record nothing_said { in_modules = true } }
{
    Project {
        in_modules: true,
        rules: Vec::new(alloc),
        safe_gets: Vec::new(alloc),
        foreign: Vec::new(alloc),
        effects: Vec::new(alloc),
        modules: Vec::new(alloc),
    }
}

/// A module alone, as a project that was read.
fn only(alloc: Global, tree: Tree) -> Result<Sources, AllocError>
    ensures { IfOk result (λ sources. (n : Node) → Lists tree n → ListsProject sources (only_module n)) }
{
    let line = Text::of(alloc, "Main")?;
    let mut modules = Vec::new(alloc);
    modules.push(ModuleSource {
        line,
        tree,
        interface: None,
    })?;
    let project = silent_project(alloc);
    Ok(Sources { project, modules })
}

/// The refusal of a module alone that declares too many tables.
fn many_tables_alone(alloc: Global) -> Result<BuildFault, AllocError>
    ensures { IfOk result (λ fault. fault ≡ BuildFault.Source (SourceFault.BadProject only_file 0)) }
{
    let file = Text::of(alloc, "Main.ur")?;
    Ok(BuildFault::Source(SourceFault::BadProject { file, line: 0 }))
}

/// Builds a module alone, as file `Main.ur`. The program that it gives is accepted, and is what the module says; a
/// fault has the cause in it that `IsCauseOfText` gives.
pub fn build_text<T: Terms + Drop>(
    alloc: Global,
    terms: &T,
    bytes: &[u8],
) -> Result<Site, BuildFault>
    ensures told { IsErrOf result BuildFault.ReadFault → ⊥ }
    ensures accepted { IfOk result (λ s. Accepts (program_view s.program)) }
    ensures source { IfOk result (λ s. IsProgramOfText bytes.now (program_view s.program)) }
    ensures refused { IfErr result (IsCauseOfText bytes.now) }
{
    let tree = main_tree(alloc, bytes)?;
    let sources = only(alloc, tree)?;
    match first_beyond(sources.modules.as_slice()) {
        Some(_) => Err(many_tables_alone(alloc)?),
        None => site_of(alloc, terms, &sources),
    }
}

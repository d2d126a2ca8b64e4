//! Reading a project: its project file, and then each module with its interface.
ghost use Rattle.std.specs.Prelude.{◌≡◌, ◌≤◌, ◌++◌, ℕ, List, codes};
ghost use Rattle.std.specs.Prelude.{IfErr, IfOk, IfSome, IsErrOf, MatchOption};
ghost use Rattle.surface_grammar.specs.Trees.{Node};
ghost use Rattle.ur_outside.specs.Causes.{Rose};
ghost use Rattle.project_files.specs.Projects.{IsProject as IsProjectText, is_among};
ghost use Rattle.project_files.specs.View.{said_by};
ghost use Rattle.project_sources.specs.Causes.{Says};
ghost use Rattle.project_sources.specs.Modules.{HasModuleFile, HasNoModule, HaveNoModules};
ghost use Rattle.project_sources.specs.Modules.{file_in, interface_file, module_file};
ghost use Rattle.project_sources.specs.Projects.{AllThere, IsCause, IsOnlyProject, IsProjectFile};
ghost use Rattle.project_sources.specs.Projects.{SaysNoProject, SaysProject};
ghost use Rattle.project_sources.specs.Steps.{IsBadFolder, IsBadLine, IsUnknown};
ghost use Rattle.project_sources.specs.View.{AreModuleSources, IsInterfaceRead, IsModuleRead};
ghost use Rattle.project_sources.specs.View.{IsModuleSource, IsProject};

use crate::SourceFault;
use crate::modules::{ModuleSource, interface_of, tree_of};
use crate::reading::read_in;
use project_files::{Project, ProjectFault, read_project};
use std::alloc::{AllocError, Global};
use surface_grammar::Tree;
use table_rows::{Bytes, Text, Texts};
use ur_outside::{FileFault, Files};

/// A project that was read. The last module is the main one.
#[derive(Drop)]
pub struct Sources {
    pub project: Project,
    pub modules: Vec<ModuleSource>,
}

/// The one name that is a project file's, where there is exactly one.
fn only_project(names: &Texts) -> Option<&Text>
    ensures { MatchOption result ((name : List ℕ) → IsOnlyProject names.now name → ⊥)
        (λ name. IsOnlyProject names.now name.now) }
{
    let mut found = None;
    for i in 0..names.len() {
        let name = names.at(i);
        if name.as_str().ends_with(".urp") {
            if found.is_some() {
                return None;
            }
            found = Some(name);
        }
    }
    found
}

/// The refusal of a folder.
fn bad_folder(alloc: Global, dir: &str) -> SourceFault
    ensures cause { Says (IsBadFolder dir.now) result }
    ensures others { result ≡ SourceFault.ReadFault → ⊥ }
{
    match Text::of(alloc, dir) {
        Ok(file) => SourceFault::BadProject { file, line: 0 },
        Err(_) => SourceFault::Memory,
    }
}

/// The name of the project file in a folder.
fn project_name<F: Files>(alloc: Global, files: &mut F, dir: &str) -> Result<Text, SourceFault>
    ensures name { IfOk result (λ name. IfSome (F.told files.old) (λ files. IsProjectFile files dir.now name)) }
    ensures refused { IfErr result (λ fault. IfSome (F.told files.old)
        (λ files. Says (SaysNoProject files dir.now) fault)) }
    ensures kept { F.told files.new ≡ F.told files.old }
    ensures later { F.faults files.old ≤ F.faults files.new }
    ensures failed { IsErrOf result SourceFault.ReadFault → Rose (F.faults files.old) (F.faults files.new) }
{
    match files.list(alloc, dir) {
        Ok(names) => {
            match only_project(&names) {
                Some(name) => Ok(name.copy(alloc)?),
                None => Err(bad_folder(alloc, dir)),
            }
        }
        Err(FileFault::Missing) => Err(bad_folder(alloc, dir)),
        Err(FileFault::Failed) => Err(SourceFault::ReadFault),
        Err(FileFault::Memory) => Err(SourceFault::Memory),
    }
}

/// What a project file says.
fn project_of(alloc: Global, file: Text, bytes: &[u8]) -> Result<Project, SourceFault>
    ensures says { IfOk result (λ project. IsProjectText bytes.now (said_by project)) }
    ensures refused { IfErr result (Says (IsBadLine file bytes.now)) }
    ensures others { IsErrOf result SourceFault.ReadFault → ⊥ }
{
    match read_project(alloc, bytes) {
        Ok(project) => Ok(project),
        Err(ProjectFault::BadLine { line }) => Err(SourceFault::BadProject { file, line }),
        Err(ProjectFault::Memory) => Err(SourceFault::Memory),
    }
}

/// Reads the project file of a folder.
fn read_project_file<F: Files>(
    alloc: Global,
    files: &mut F,
    dir: &str,
) -> Result<Project, SourceFault>
    ensures says { IfOk result (λ project. IfSome (F.told files.old)
        (λ files. SaysProject files dir.now (said_by project))) }
    ensures refused { IfErr result (λ fault. IfSome (F.told files.old)
        (λ files. Says (SaysNoProject files dir.now) fault)) }
    ensures kept { F.told files.new ≡ F.told files.old }
    ensures later { F.faults files.old ≤ F.faults files.new }
    ensures failed { IsErrOf result SourceFault.ReadFault → Rose (F.faults files.old) (F.faults files.new) }
{
    let name = project_name(alloc, files, dir)?;
    match read_in(alloc, files, dir, name.as_str())? {
        Some(bytes) => project_of(alloc, name, bytes.as_slice()),
        None => Err(bad_folder(alloc, dir)),
    }
}

/// Whether a text is among others.
fn is_among(text: &str, others: &Texts) -> bool
    ensures { result ≡ is_among text.now others.now }
{
    for i in 0..others.len() {
        if others.at(i).as_str() == text {
            return true;
        }
    }
    false
}

/// Each foreign module is among those that are there.
fn knows_foreign(alloc: Global, names: &[Text], objects: &Texts) -> Result<(), SourceFault>
    ensures known { IfOk result (λ _. AllThere objects.now names.now) }
    ensures unknown { IfErr result (Says (IsUnknown objects.now names.now)) }
    ensures others { IsErrOf result SourceFault.ReadFault → ⊥ }
{
    for name in names {
        if !is_among(name.as_str(), objects) {
            let name = name.copy(alloc)?;
            return Err(SourceFault::UnknownForeign { name });
        }
    }
    Ok(())
}

/// A module's file with this ending.
fn file_of(alloc: Global, line: &str, ending: &str) -> Result<Text, AllocError>
    ensures { IfOk result (λ file. file ≡ line.now ++ ending.now) }
{
    let mut file = Text::of(alloc, line)?;
    file.push_str(ending)?;
    Ok(file)
}

/// Reads a module.
fn read_tree<F: Files>(
    alloc: Global,
    files: &mut F,
    dir: &str,
    line: &str,
) -> Result<Tree, SourceFault>
    ensures tree { IfOk result (λ tree. IfSome (F.told files.old)
        (λ files. IsModuleRead (file_in files dir.now (module_file line.now)) tree)) }
    ensures refused { IfErr result (λ fault. IfSome (F.told files.old)
        (λ files. Says (HasNoModule files dir.now line.now) fault)) }
    ensures kept { F.told files.new ≡ F.told files.old }
    ensures later { F.faults files.old ≤ F.faults files.new }
    ensures failed { IsErrOf result SourceFault.ReadFault → Rose (F.faults files.old) (F.faults files.new) }
{
    let file = file_of(alloc, line, ".ur")?;
    match read_in(alloc, files, dir, file.as_str())? {
        Some(bytes) => tree_of(alloc, file.as_str(), bytes.as_slice()),
        None => Err(SourceFault::MissingFile { file }),
    }
}

/// Reads a module's interface, where it has one.
fn read_interface<F: Files>(
    alloc: Global,
    files: &mut F,
    dir: &str,
    line: &str,
) -> Result<Option<Tree>, SourceFault>
    ensures tree { IfOk result (λ tree. IfSome (F.told files.old)
        (λ files. IsInterfaceRead (file_in files dir.now (interface_file line.now)) tree)) }
    ensures refused { IfErr result (λ fault. IfSome (F.told files.old)
        (λ files. (tree : Node) → HasModuleFile (file_in files dir.now (module_file line.now)) tree
        → Says (HasNoModule files dir.now line.now) fault)) }
    ensures kept { F.told files.new ≡ F.told files.old }
    ensures later { F.faults files.old ≤ F.faults files.new }
    ensures failed { IsErrOf result SourceFault.ReadFault → Rose (F.faults files.old) (F.faults files.new) }
{
    let file = file_of(alloc, line, ".urs")?;
    match read_in(alloc, files, dir, file.as_str())? {
        Some(bytes) => {
            let tree = interface_of(alloc, file.as_str(), bytes.as_slice())?;
            Ok(Some(tree))
        }
        None => Ok(None),
    }
}

/// Reads a module and its interface.
fn read_module<F: Files>(
    alloc: Global,
    files: &mut F,
    dir: &str,
    line: &Text,
) -> Result<ModuleSource, SourceFault>
    ensures source { IfOk result (λ source. IfSome (F.told files.old)
        (λ files. IsModuleSource files dir.now line.now source)) }
    ensures refused { IfErr result (λ fault. IfSome (F.told files.old)
        (λ files. Says (HasNoModule files dir.now line.now) fault)) }
    ensures kept { F.told files.new ≡ F.told files.old }
    ensures later { F.faults files.old ≤ F.faults files.new }
    ensures failed { IsErrOf result SourceFault.ReadFault → Rose (F.faults files.old) (F.faults files.new) }
{
    let tree = read_tree(alloc, files, dir, line.as_str())?;
    let interface = read_interface(alloc, files, dir, line.as_str())?;
    let line = line.copy(alloc)?;
    Ok(ModuleSource {
        line,
        tree,
        interface,
    })
}

/// Reads the modules, in order.
fn read_modules<F: Files>(
    alloc: Global,
    files: &mut F,
    dir: &str,
    lines: &[Text],
) -> Result<Vec<ModuleSource>, SourceFault>
    ensures modules { IfOk result (λ sources. IfSome (F.told files.old)
        (λ files. AreModuleSources files dir.now lines.now sources.items)) }
    ensures refused { IfErr result (λ fault. IfSome (F.told files.old)
        (λ files. Says (HaveNoModules files dir.now lines.now) fault)) }
    ensures kept { F.told files.new ≡ F.told files.old }
    ensures later { F.faults files.old ≤ F.faults files.new }
    ensures failed { IsErrOf result SourceFault.ReadFault → Rose (F.faults files.old) (F.faults files.new) }
{
    let mut modules = Vec::new(alloc);
    for line in lines {
        let module = read_module(alloc, files, dir, line)?;
        if modules.push(module).is_err() {
            return Err(SourceFault::Memory);
        }
    }
    Ok(modules)
}

/// Reads the project in a folder. `objects` are the foreign modules that are there.
pub fn read_sources<F: Files>(
    alloc: Global,
    files: &mut F,
    dir: &str,
    objects: &Texts,
) -> Result<Sources, SourceFault>
    // What is read is the project that the folder holds: its one project file, and its modules in order.
    ensures whole { IfOk result (λ sources. IfSome (F.told files.old)
        (λ files. IsProject files dir.now objects.now sources)) }
    // A fault tells the first thing that stands in the way.
    ensures told { IfErr result (λ fault. IfSome (F.told files.old)
        (λ files. IsCause files dir.now objects.now fault)) }
    ensures kept { F.told files.new ≡ F.told files.old }
    ensures later { F.faults files.old ≤ F.faults files.new }
    ensures failed { IsErrOf result SourceFault.ReadFault → Rose (F.faults files.old) (F.faults files.new) }
{
    let project = read_project_file(alloc, files, dir)?;
    knows_foreign(alloc, project.foreign.as_slice(), objects)?;
    let modules = read_modules(alloc, files, dir, project.modules.as_slice())?;
    Ok(Sources { project, modules })
}

//! Projects that declare more tables than a project has, and the line of the project file at which that is told: the
//! one at which the first module stands with which they are too many.
ghost use Rattle.std.specs.Prelude.{◌≡◌, ◌<◌, ◌≤◌, ◌+◌, ℕ, IfErr, IfNone, IfOk, IfSome, IsErrOf, List, Some, length};
ghost use Rattle.project_files.specs.Lines.{HasLines, Line};
ghost use Rattle.project_sources.specs.Modules.{ModuleTrees, file_in};
ghost use Rattle.project_sources.specs.Projects.{IsOnlyProject, IsProjectFile};
ghost use Rattle.project_sources.specs.View.{ListsModules};
ghost use Rattle.site_build.specs.Causes.{HaveFewTables, HaveManyTables, IsLineOf};
ghost use Rattle.site_build.specs.Faults.{IsAtModule, IsBeyondAt, IsFirstIn, IsOfOutside, IsOfTables};
ghost use Rattle.ur_outside.specs.Causes.{Rose};

use crate::BuildFault;
use crate::tables::{MOST_TABLES, count_tables};
use project_files::first_line;
use project_sources::{ModuleSource, SourceFault, read_in};
use std::alloc::Global;
use table_rows::{Text, Texts};
use ur_outside::{FileFault, Files};

/// The first module with which the modules before it, and it, declare too many tables: its line in the project file.
pub(crate) fn first_beyond(modules: &[ModuleSource]) -> Option<&Text>
    ensures many { IfSome result (λ _. (ms : List ModuleTrees) → ListsModules modules.now ms → HaveManyTables ms) }
    ensures beyond { IfSome result (λ line. (ms : List ModuleTrees) → ListsModules modules.now ms
        → IsBeyondAt ms line.now) }
    ensures few { IfNone result ((ms : List ModuleTrees) → ListsModules modules.now ms → HaveFewTables ms) }
{
    let mut tables = 0usize;
    for module in modules {
        tables = tables.saturating_add(count_tables(module.tree.leaves()));
        if tables > MOST_TABLES {
            return Some(&module.line);
        }
    }
    None
}

/// How many lines stand before the first that is this one, and what stands behind it; nothing where no line is.
fn first_like<'a>(bytes: &'a [u8], line: &[u8]) -> Option<(usize, &'a [u8])>
    ensures first { IfSome result (λ found. IsFirstIn bytes.now line.now found.0 found.1.now) }
    ensures shorter { IfSome result (λ found. found.0 + length found.1.now < length bytes.now) }
{
    let mut rest = bytes;
    let mut before = 0usize;
    while !rest.is_empty() {
        let (next, behind) = first_line(rest);
        if next == line {
            return Some((before, behind));
        }
        before += 1;
        rest = behind;
    }
    None
}

/// At which line, counted from 1, a project file has the name of a module, behind its first empty line.
fn line_of(bytes: &[u8], name: &[u8]) -> Option<usize>
    ensures { IfSome result (λ number. (lines : List Line) → HasLines bytes.now lines
        → IsLineOf lines name.now number) }
{
    let (directives, modules) = first_like(bytes, b"")?;
    let (before, _) = first_like(modules, name)?;
    Some(directives + 1 + before + 1)
}

/// The first of these names that is a project file's.
fn project_name(names: &Texts) -> Option<&Text>
    ensures { IfSome result (λ found. (name : List ℕ) → IsOnlyProject names.now name → found.now ≡ name) }
{
    for i in 0..names.len() {
        let name = names.at(i);
        if name.as_str().ends_with(".urp") {
            return Some(name);
        }
    }
    None
}

/// The name of the project file in a folder whose project was read. That it is gone counts as want of memory.
fn file_of<F: Files>(alloc: Global, files: &mut F, dir: &str) -> Result<Text, BuildFault>
    ensures name { IfOk result (λ file. IfSome (F.told files.old) (λ files. (name : List ℕ)
        → IsProjectFile files dir.now name → file ≡ name)) }
    ensures kept { F.told files.new ≡ F.told files.old }
    ensures later { F.faults files.old ≤ F.faults files.new }
    ensures failed { IsErrOf result BuildFault.ReadFault → Rose (F.faults files.old) (F.faults files.new) }
    ensures outside { IfErr result IsOfOutside }
{
    match files.list(alloc, dir) {
        Ok(names) => match project_name(&names) {
            Some(name) => Ok(name.copy(alloc)?),
            None => Err(BuildFault::Memory),
        },
        Err(FileFault::Missing) => Err(BuildFault::Memory),
        Err(FileFault::Failed) => Err(BuildFault::ReadFault),
        Err(FileFault::Memory) => Err(BuildFault::Memory),
    }
}

/// The line at which a project file names a module. That it isn't found counts as want of memory.
fn line_in<F: Files>(
    alloc: Global,
    files: &mut F,
    dir: &str,
    file: &Text,
    name: &Text,
) -> Result<usize, BuildFault>
    ensures line { IfOk result (λ number. IfSome (F.told files.old) (λ files. (bytes : List ℕ)
        → file_in files dir.now file.now ≡ Some bytes → (lines : List Line) → HasLines bytes lines
        → IsLineOf lines name.now number)) }
    ensures kept { F.told files.new ≡ F.told files.old }
    ensures later { F.faults files.old ≤ F.faults files.new }
    ensures failed { IsErrOf result BuildFault.ReadFault → Rose (F.faults files.old) (F.faults files.new) }
    ensures outside { IfErr result IsOfOutside }
{
    match read_in(alloc, files, dir, file.as_str()) {
        Ok(Some(bytes)) => match line_of(bytes.as_slice(), name.as_bytes()) {
            Some(line) => Ok(line),
            None => Err(BuildFault::Memory),
        },
        Ok(None) => Err(BuildFault::Memory),
        Err(SourceFault::ReadFault) => Err(BuildFault::ReadFault),
        Err(_) => Err(BuildFault::Memory),
    }
}

/// The refusal of a project that declares too many tables with the module of this name. Its project file is read once
/// more for the line.
pub(crate) fn too_many_tables<F: Files>(
    alloc: Global,
    files: &mut F,
    dir: &str,
    name: &Text,
) -> Result<BuildFault, BuildFault>
    ensures kept { F.told files.new ≡ F.told files.old }
    ensures later { F.faults files.old ≤ F.faults files.new }
    ensures failed { IsErrOf result BuildFault.ReadFault → Rose (F.faults files.old) (F.faults files.new) }
    ensures tables { IfOk result IsOfTables }
    ensures line { IfOk result (λ fault. IfSome (F.told files.old)
        (λ files. IsAtModule files dir.now name.now fault)) }
    ensures outside { IfErr result IsOfOutside }
{
    let file = file_of(alloc, files, dir)?;
    let line = line_in(alloc, files, dir, &file, name)?;
    Ok(BuildFault::Source(SourceFault::BadProject { file, line }))
}

//! Files in memory, which tell everything and fail at the calls that they are told to.
ghost use Rattle.std.specs.Prelude.{◌≡◌, ◌∷◌, Some, IfOk, option_map};
ghost use Rattle.std.specs.List.{list_any};
ghost use Rattle.ur_outside.specs.Files.{behind, within, has_slash, has_folder, file_at, names_in};
ghost use Rattle.ur_outside.specs.Causes.{CountsFailure};
ghost use Rattle.ur_outside.specs.MemFiles.{told_by};

use crate::{FileFault, Files, Held};
use std::alloc::{AllocError, Global};
use table_rows::{Bytes, Text, Texts};

/// A file in memory.
#[derive(Drop)]
pub struct MemFile {
    /// Its path. A slash stands between a folder and what is in it.
    pub path: Text,
    pub bytes: Bytes,
}

/// Files in memory. Of two with one path the first counts.
#[derive(Drop)]
pub struct MemFiles {
    files: Vec<MemFile>,
    failing: Vec<u64>,
    calls: u64,
    faults: u64,
}

impl MemFiles {
    /// Holds these files. The calls numbered in `failing`, from 0, fail.
    pub fn new(files: Vec<MemFile>, failing: Vec<u64>) -> MemFiles
        ensures told { ⟦<MemFiles as Files>⟧.told result ≡ Some (told_by files.items) }
        ensures faults { ⟦<MemFiles as Files>⟧.faults result ≡ 0 }
    {
        MemFiles {
            files,
            failing,
            calls: 0,
            faults: 0,
        }
    }

    /// Counts a call. The answer is whether it fails.
    fn fails(&mut self) -> bool
        ensures files { self.new.files.items ≡ self.old.files.items }
        ensures counted { CountsFailure result self.old.faults self.new.faults }
    {
        let call = self.calls;
        self.calls = call.saturating_add(1);
        if !self.failing.contains(&call) {
            return false;
        }
        self.faults = self.faults.saturating_add(1);
        true
    }
}

/// What stands behind a text, where a path begins with it.
fn behind<'a>(front: &str, path: &'a str) -> Option<&'a str>
    ensures { option_map (λ rest. rest.now) result ≡ behind front.now path.now }
{
    path.strip_prefix(front)
}

/// What stands behind a folder and its slash, where a path is in the folder.
fn within<'a>(dir: &str, path: &'a str) -> Option<&'a str>
    ensures { option_map (λ rest. rest.now) result ≡ within dir.now path.now }
{
    match behind(dir, path) {
        Some(rest) => behind("/", rest),
        None => None,
    }
}

/// Whether a slash stands in a name.
fn has_slash(name: &str) -> bool
    ensures { result ≡ has_slash name.now }
{
    name.as_bytes().iter().any(|byte| *byte == b'/')
}

/// What the first file with a path holds.
fn file_at<'a>(files: &'a [MemFile], path: &str) -> Option<&'a [u8]>
    ensures { option_map (λ bytes. bytes.now) result ≡ file_at (told_by files.now) path.now }
{
    for file in files {
        if file.path.as_str() == path {
            return Some(file.bytes.as_slice());
        }
    }
    None
}

/// Whether a file is in a folder.
fn has_folder(files: &[MemFile], dir: &str) -> bool
    ensures { result ≡ has_folder (told_by files.now) dir.now }
{
    for file in files {
        if within(dir, file.path.as_str()).is_some() {
            return true;
        }
    }
    false
}

/// The names of the files in a folder itself.
fn names_in(alloc: Global, files: &[MemFile], dir: &str) -> Result<Texts, AllocError>
    ensures { IfOk result (λ names. names ≡ names_in (told_by files.now) dir.now) }
{
    let mut names = Texts::new(alloc);
    for file in files {
        match within(dir, file.path.as_str()) {
            Some(name) => {
                if !has_slash(name) {
                    names.push(Text::of(alloc, name)?)?;
                }
            }
            None => {}
        }
    }
    Ok(names)
}

impl Files for MemFiles {
    ghost told = { λ s. Some (told_by s.files.items) };

    ghost faults = { λ s. s.faults };

    fn read_file(&mut self, alloc: Global, path: &str, most: usize) -> Result<Held, FileFault> {
        if self.fails() {
            return Err(FileFault::Failed);
        }
        let Some(content) = file_at(&self.files, path) else {
            return Err(FileFault::Missing);
        };
        let count = content.len().min(most);
        let bytes = Bytes::of(alloc, &content[..count])?;
        Ok(Held {
            bytes,
            more: most < content.len(),
        })
    }

    fn list(&mut self, alloc: Global, dir: &str) -> Result<Texts, FileFault> {
        if self.fails() {
            return Err(FileFault::Failed);
        }
        if !has_folder(&self.files, dir) {
            return Err(FileFault::Missing);
        }
        let names = names_in(alloc, &self.files, dir)?;
        Ok(names)
    }
}

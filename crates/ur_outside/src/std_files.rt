//! The files of the system. They tell no content: this is the trusted edge.
ghost use Rattle.std.specs.Prelude.{◌≡◌, ◌≤◌, None, IfOk, vec_len, length};
ghost use Rattle.ur_outside.specs.Causes.{CountsFault, HasFaultCause};

use crate::{Failed, FileFault, Files, Held, ReadFault, Source, read_up_to};
use std::alloc::{AllocError, Global};
use std::fs;
use std::fs::File;
use std::io::{Error, ErrorKind, Read};
use table_rows::{Bytes, Text, Texts};

/// The files of the system.
#[derive(Drop)]
pub struct StdFiles {
    rt: HostRuntime,
    faults: u64,
}

/// An open file.
#[derive(Drop)]
struct OpenedFile {
    inner: File,
    faults: u64,
}

impl Source for OpenedFile {
    ghost left = { λ _. None };

    ghost faults = { λ s. s.faults };

    fn read(&mut self, into: &mut [u8]) -> Result<usize, Failed> {
        match self.inner.read(into) {
            Ok(count) => Ok(count),
            Err(_) => {
                self.faults = self.faults.saturating_add(1);
                Err(Failed)
            }
        }
    }
}

impl StdFiles {
    /// No call has failed yet.
    pub fn new(rt: HostRuntime) -> StdFiles
        ensures { ⟦<StdFiles as Files>⟧.faults result ≡ 0 }
    {
        StdFiles { rt, faults: 0 }
    }

    /// Why a call was refused. A failure is counted.
    fn fault_of(&mut self, kind: ErrorKind) -> FileFault
        ensures { CountsFault result self.old.faults self.new.faults }
    {
        match kind {
            ErrorKind::NotFound => FileFault::Missing,
            ErrorKind::NotADirectory => FileFault::Missing,
            ErrorKind::OutOfMemory => FileFault::Memory,
            _ => {
                self.faults = self.faults.saturating_add(1);
                FileFault::Failed
            }
        }
    }

    /// The first bytes of an open file.
    fn read_opened(&mut self, alloc: Global, file: File, most: usize) -> Result<Held, FileFault>
        ensures few { IfOk result (λ held. length held.bytes ≤ most) }
        ensures cause { HasFaultCause result self.old.faults self.new.faults }
    {
        let mut source = OpenedFile {
            inner: file,
            faults: 0,
        };
        match read_up_to(alloc, &mut source, most.saturating_add(1)) {
            Ok(read) => {
                let count = read.len().min(most);
                let bytes = Bytes::of(alloc, &read[..count])?;
                Ok(Held {
                    bytes,
                    more: count < read.len(),
                })
            }
            Err(ReadFault::Memory) => Err(FileFault::Memory),
            Err(ReadFault::Failed) => {
                self.faults = self.faults.saturating_add(1);
                Err(FileFault::Failed)
            }
        }
    }
}

/// Whether a path is that of a file. What isn't there is none, nor is a link that leads to nothing.
fn is_file(rt: &HostRuntime, path: &str) -> Result<bool, Error> {
    match fs::metadata(rt, path) {
        Ok(found) => Ok(found.is_file()),
        Err(fault) => match fault.kind() {
            ErrorKind::NotFound | ErrorKind::NotADirectory => Ok(false),
            _ => Err(fault),
        },
    }
}

/// Whether a path is that of a pipe, a socket or a device, which is no file of a project: to open it may wait for ever.
fn is_special(rt: &HostRuntime, path: &str) -> bool {
    match fs::metadata(rt, path) {
        Ok(found) => !found.is_file() && !found.is_dir(),
        Err(_) => false,
    }
}

/// The names of the files in a folder, those that aren't UTF-8 left out.
fn names_in(rt: &HostRuntime, dir: &str) -> Result<Texts, Error> {
    let alloc = rt.alloc();
    let mut names = Texts::new(alloc);
    for entry in fs::read_dir(rt, dir)? {
        match entry {
            Ok(entry) => {
                if is_file(rt, entry.path().as_str())? {
                    names.push(Text::of(alloc, entry.file_name())?)?;
                }
            }
            Err(fault) if fault.kind() == ErrorKind::InvalidFilename => {}
            Err(fault) => return Err(fault),
        }
    }
    Ok(names)
}

impl Files for StdFiles {
    ghost told = { λ _. None };

    ghost faults = { λ s. s.faults };

    fn read_file(&mut self, alloc: Global, path: &str, most: usize) -> Result<Held, FileFault> {
        if is_special(&self.rt, path) {
            return Err(FileFault::Missing);
        }
        match fs::open(&self.rt, path) {
            Ok(file) => self.read_opened(alloc, file, most),
            Err(fault) => Err(self.fault_of(fault.kind())),
        }
    }

    fn list(&mut self, _alloc: Global, dir: &str) -> Result<Texts, FileFault> {
        match names_in(&self.rt, dir) {
            Ok(names) => Ok(names),
            Err(fault) => Err(self.fault_of(fault.kind())),
        }
    }
}

//! Projects in memory, read or refused with their line.
use project_sources::{SourceFault, read_sources};
use std::alloc::{AllocError, Global};
use table_rows::{Bytes, Text, Texts};
use ur_outside::{MemFile, MemFiles};

/// Files by their paths.
type Folder = &'static [(&'static str, &'static [u8])];

/// A project of one module.
const SMALLEST: Folder = &[("p/p.urp", b"\nmain\n"), ("p/main.ur", b"val x = 1")];

/// Each project in the folder `p`, with the line that refuses it; the empty line stands for none.
const PROJECTS: [(Folder, &str); 12] = [
    (SMALLEST, ""),
    (
        &[
            ("p/p.urp", b"\nmain\n"),
            ("p/main.ur", b"val x = 1"),
            ("p/main.urs", b"val x : int"),
        ],
        "",
    ),
    (&[("q/p.urp", b"\nmain\n")], "p:0: BadProject\n"),
    (
        &[("p/a.urp", b"\nmain\n"), ("p/b.urp", b"\nmain\n")],
        "p:0: BadProject\n",
    ),
    (&[("p/p.urp", b"")], "p.urp:1: BadProject\n"),
    (&[("p/p.urp", b"\nfoo\nmain\n")], "foo.ur: MissingFile\n"),
    (
        &[("p/p.urp", b"ffi Other\n\nfoo\n")],
        "UnknownForeign Other\n",
    ),
    (
        &[("p/p.urp", b"ffi Outbox\n\nfoo\n")],
        "foo.ur: MissingFile\n",
    ),
    (
        &[("p/p.urp", b"\nmain\n"), ("p/main.ur", b"val x = \xFF")],
        "main.ur: NotUtf8\n",
    ),
    (
        &[("p/p.urp", b"\nmain\n"), ("p/main.ur", b"val x = ?")],
        "main.ur:8: BadChar\n",
    ),
    (
        &[("p/p.urp", b"\nmain\n"), ("p/main.ur", b"val x =")],
        "main.ur:7: Syntax\n",
    ),
    (
        &[
            ("p/p.urp", b"\nfoo\nmain\n"),
            ("p/foo.ur", b""),
            ("p/foo.urs", b"val"),
            ("p/main.ur", b"val"),
        ],
        "foo.urs:3: Syntax\n",
    ),
];

/// Files in memory.
fn folder(alloc: Global, files: Folder, failing: &[u64]) -> Result<MemFiles, AllocError> {
    let mut made = Vec::new(alloc);
    for (path, bytes) in files {
        made.push(MemFile {
            path: Text::of(alloc, path)?,
            bytes: Bytes::of(alloc, bytes)?,
        })?;
    }
    Ok(MemFiles::new(made, failing.to_vec(alloc)?))
}

/// The one object that is known.
fn objects(alloc: Global) -> Result<Texts, AllocError> {
    let mut objects = Texts::new(alloc);
    objects.push(Text::of(alloc, "Outbox")?)?;
    Ok(objects)
}

/// The line that refuses the project in the folder `p`.
fn line_of(alloc: Global, files: &mut MemFiles) -> Result<String, AllocError> {
    let objects = objects(alloc)?;
    match read_sources(alloc, files, "p", &objects) {
        Ok(_) => "".to_string(alloc),
        Err(SourceFault::ReadFault) => "failed".to_string(alloc),
        Err(fault) => fault.line(alloc),
    }
}

/// Whether the project of these files, of which some calls fail, has this line.
fn is_told(alloc: Global, files: Folder, failing: &[u64], line: &str) -> Result<bool, AllocError> {
    let mut files = folder(alloc, files, failing)?;
    Ok(line_of(alloc, &mut files)?.as_str() == line)
}

/// Each project's line.
pub fn projects_are_read_or_refused_with_their_line(alloc: Global) -> Result<bool, AllocError> {
    for (files, line) in PROJECTS {
        if !is_told(alloc, files, &[], line)? {
            return Ok(false);
        }
    }
    Ok(true)
}

/// The smallest project, with each call of the files in turn failing.
pub fn failures_of_reading_are_told(alloc: Global) -> Result<bool, AllocError> {
    for call in 0..4u64 {
        if !is_told(alloc, SMALLEST, &[call], "failed")? {
            return Ok(false);
        }
    }
    Ok(true)
}

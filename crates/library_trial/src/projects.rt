//! Project files as a person writes them, and the line at which each is refused.
use project_files::{ProjectFault, read_project};
use std::alloc::{AllocError, Global};

/// Project files, each with how many modules it names, or with the line that may not stand there, counted from 1.
const PROJECTS: [(&[u8], Result<usize, usize>); 22] = [
    (b"\nmain", Ok(1)),
    (
        b"# a comment\nallow url https://a.example/*\n\nmain\n",
        Ok(1),
    ),
    (
        b"allow url \ndeny url *\ndatabase dbname=x\nsql\n\n\nfoo\n\nmain\n",
        Ok(2),
    ),
    (
        b"ffi Outbox\neffectful Outbox.send\nffi Outbox\neffectful Outbox.send\n\nmain\n",
        Ok(1),
    ),
    (b"safeGet Main/twice\r\n\r\nmain\r\n", Ok(1)),
    (b"\n# \xC3\xA9\nmain\n#\nother_2", Ok(2)),
    (b"", Err(1)),
    (b"\n", Err(2)),
    (b"main\n", Err(1)),
    (b"ffi Outbox", Err(2)),
    (b"\nmain\nmain\n", Err(3)),
    (b"\nMain\n", Err(2)),
    (b"\nmain\r", Err(2)),
    (b"\n $/list\n", Err(2)),
    (b"ffi outbox\n\nmain\n", Err(1)),
    (b"effectful Outbox.send\nffi Outbox\n\nmain\n", Err(1)),
    (b"ffi Main\n\nmain\n", Err(3)),
    (b"allow  url x\n\nmain\n", Err(1)),
    (b"safeGet Main.twice\n\nmain\n", Err(1)),
    (b"databases\n\nmain\n", Err(1)),
    (b"# \xFF\n\nmain\n", Err(1)),
    (b"debug\n\nmain\n\xC3\n", Err(4)),
];

/// Whether the project has so many modules, or is refused at that line.
fn comes_out(alloc: Global, bytes: &[u8], want: Result<usize, usize>) -> Result<bool, AllocError> {
    match read_project(alloc, bytes) {
        Ok(project) => Ok(want == Ok(project.modules.len())),
        Err(ProjectFault::BadLine { line }) => Ok(want == Err(line)),
        Err(ProjectFault::Memory) => Err(AllocError),
    }
}

/// A project of so many modules.
fn of_modules(alloc: Global, count: u32) -> Result<Vec<u8>, AllocError> {
    let mut bytes = Vec::new(alloc);
    for number in 0..count {
        bytes.extend_from_slice(b"\nm".as_slice())?;
        bytes.extend_from_slice(number.to_string(alloc)?.as_bytes())?;
    }
    Ok(bytes)
}

/// Whether a project of so many modules comes out so.
fn of_modules_comes_out(
    alloc: Global,
    count: u32,
    want: Result<usize, usize>,
) -> Result<bool, AllocError> {
    comes_out(alloc, &of_modules(alloc, count)?, want)
}

/// Each project file, and projects of as many modules as may be and one more.
pub fn each_project_is_read_or_refused_at_its_line(alloc: Global) -> Result<bool, AllocError> {
    for (bytes, want) in PROJECTS {
        if !comes_out(alloc, bytes, want)? {
            return Ok(false);
        }
    }
    Ok(
        of_modules_comes_out(alloc, 1000, Ok(1000))?
            && of_modules_comes_out(alloc, 1001, Err(1002))?,
    )
}

//! Sources, sinks and files in memory, which move little in a call or fail at one.
use std::alloc::{AllocError, Global};
use table_rows::{Bytes, Text};
use ur_outside::{
    FileFault, Files, MemFile, MemFiles, MemSink, MemSource, ReadFault, read_up_to, write_all,
};

/// A source that gives byte by byte, and one that fails on the way.
pub fn reads_in_small_pieces(alloc: Global) -> Result<bool, AllocError> {
    let mut source = MemSource::new(b"abc".to_vec(alloc)?, 1, Vec::new(alloc));
    let read = read_up_to(alloc, &mut source, 2).is_ok_and(|read| read.as_slice()
        == b"ab".as_slice());
    let mut source = MemSource::new(b"abc".to_vec(alloc)?, 2, vec![in alloc; 1]?);
    let failed = read_up_to(alloc, &mut source, 9).is_err_and(|fault| fault == ReadFault::Failed);
    Ok(read && failed)
}

/// A sink that takes two bytes in a call, one that fails on the way, and one that takes nothing.
pub fn writes_in_small_pieces(alloc: Global) -> Result<bool, AllocError> {
    let mut sink = MemSink::new(alloc, 2, Vec::new(alloc));
    let written = write_all(&mut sink, b"abc").is_ok() && sink.written() == b"abc".as_slice();
    let mut sink = MemSink::new(alloc, 2, vec![in alloc; 1]?);
    let failed = write_all(&mut sink, b"abc").is_err() && sink.written() == b"ab".as_slice();
    let mut sink = MemSink::new(alloc, 0, Vec::new(alloc));
    Ok(written && failed && write_all(&mut sink, b"abc").is_err())
}

/// A project in a folder, with a folder in it.
fn project(alloc: Global, failing: &[u64]) -> Result<MemFiles, AllocError> {
    let mut files = Vec::new(alloc);
    for (path, bytes) in [
        ("p/p.urp", "\nmain\n"),
        ("p/main.ur", "abc"),
        ("p/q/x.ur", ""),
        ("pq", ""),
    ] {
        files.push(MemFile {
            path: Text::of(alloc, path)?,
            bytes: Bytes::of(alloc, bytes.as_bytes())?,
        })?;
    }
    Ok(MemFiles::new(files, failing.to_vec(alloc)?))
}

/// A file that is read whole, in part, at a call that fails, and one that isn't there.
pub fn files_are_read_up_to_a_length(alloc: Global) -> Result<bool, AllocError> {
    let mut files = project(alloc, &[2])?;
    let whole = files
        .read_file(alloc, "p/main.ur", 3)
        .is_ok_and(|held| !held.more);
    let part = files
        .read_file(alloc, "p/main.ur", 2)
        .is_ok_and(|held| held.more);
    let failed = files
        .read_file(alloc, "p/main.ur", 3)
        .is_err_and(|fault| fault == FileFault::Failed);
    let missing = files
        .read_file(alloc, "p/main", 3)
        .is_err_and(|fault| fault == FileFault::Missing);
    Ok(whole && part && failed && missing)
}

/// Two folders, and one that isn't there.
pub fn folders_name_their_own_files(alloc: Global) -> Result<bool, AllocError> {
    let mut files = project(alloc, &[])?;
    let outer = files.list(alloc, "p").is_ok_and(|names| names.len() == 2);
    let inner = files.list(alloc, "p/q").is_ok_and(|names| names.len() == 1);
    let missing = files
        .list(alloc, "q")
        .is_err_and(|fault| fault == FileFault::Missing);
    Ok(outer && inner && missing)
}

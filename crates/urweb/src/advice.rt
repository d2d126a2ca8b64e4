//! What standard error tells a person beside what stands on standard output. No theorem speaks of these texts.
use std::alloc::{AllocError, Global};
use std::str;
use table_rows::Bytes;
use told_places::{read_refusal, tell_refusal};
use ur_outside::{Files, Held, Kept, StdFiles};

/// The most bytes of a file that are read to tell a place in it.
const LONGEST_FILE: usize = 4194304;

/// What is told of a run that ended with this status, where the status says all.
pub(crate) fn advice(status: u8) -> &'static str {
    match status {
        2 => "urweb: these words are no command: urweb --help shows what is \
             (page reads its input: urweb page < hello.ur)\n",
        3 => "urweb: the input, or a file of the project, could not be read\n",
        4 => "urweb: the output could not be written, or not to its end\n",
        5 => "urweb: there was not enough memory, or a chain of operators or arguments \
             is too long (about 1100 are the most)\n",
        _ => "",
    }
}

/// What is told of a run that stops without a page, by the name that its line has.
fn told_of_run(name: &str) -> &'static str {
    match name {
        "NoRoute" => "urweb: the module has no `main` that an address can ask for a page: \
             write fun main () : transaction page = return <xml>..</xml>\n",
        "DivZero" => "urweb: a number is divided by zero\n",
        "OverBudget" => "urweb: the page takes more than 1000000 steps\n",
        "TextTooLong" => "urweb: a text is longer than 1048576 bytes\n",
        "LinkTooLong" => "urweb: a link is longer than 8192 bytes\n",
        "PageTooLong" => "urweb: the page is longer than 16777216 bytes\n",
        "NotBlessed" => "urweb: no rule allows an address on this page: \
             rules stand in a project file, and `page` knows no project\n",
        "Aborted" => "urweb: the page called `error`\n",
        "TooDeep" => "urweb: more than 256 calls are nested in one another\n",
        "OtherMethod" => "urweb: `main` takes a form, which an address alone can't send\n",
        "TooFewPieces" => "urweb: `main` has parameters that an address would have to give\n",
        _ => "",
    }
}

/// The bytes of a project's file, once more.
fn file_bytes(alloc: Global, files: &mut StdFiles, dir: &str, file: &str) -> Option<Bytes> {
    let mut path = dir.to_string(alloc).ok()?;
    path.push_str("/").ok()?;
    path.push_str(file).ok()?;
    match files.read_file(alloc, path.as_str(), LONGEST_FILE) {
        Ok(held) => {
            let Held { bytes, .. } = held;
            Some(bytes)
        }
        Err(_) => None,
    }
}

/// What is told of a project's refusal, by its line.
pub(crate) fn told_of_project(
    alloc: Global,
    files: &mut StdFiles,
    dir: &str,
    written: &Kept,
) -> Result<String, AllocError> {
    if let Some(line) = written.bytes()
        && let Ok(line) = str::from_utf8(line)
    {
        if line.starts_with("UnknownForeign ") {
            return "urweb: no foreign module of this name is there\n".to_string(alloc);
        }
        if let Some(refusal) = read_refusal(line) {
            return match file_bytes(alloc, files, dir, refusal.file) {
                Some(bytes) => tell_refusal(alloc, &refusal, bytes.as_slice()),
                None => tell_refusal(alloc, &refusal, b""),
            };
        }
    }
    "".to_string(alloc)
}

/// What is told of a refusal, by its line and the module. Nothing, where either could not be kept.
pub(crate) fn told_of_refusal(
    alloc: Global,
    read: &Kept,
    written: &Kept,
) -> Result<String, AllocError> {
    if let Some(bytes) = read.bytes()
        && let Some(line) = written.bytes()
        && let Ok(line) = str::from_utf8(line)
        && let Some(refusal) = read_refusal(line)
    {
        return tell_refusal(alloc, &refusal, bytes);
    }
    if let Some(line) = written.bytes()
        && let Ok(line) = str::from_utf8(line)
    {
        return told_of_run(line.trim_end()).to_string(alloc);
    }
    "".to_string(alloc)
}

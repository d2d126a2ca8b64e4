//! The lines of a project file.
ghost use Rattle.std.specs.Prelude.{◌≡◌, ◌<◌, ◌∷◌, List, length};
ghost use Rattle.project_files.specs.Lines.{Line, HasLines, without_return};

/// A line without the carriage return at its end, where it has one.
fn without_return(line: &[u8]) -> &[u8]
    ensures { result.now ≡ without_return line.now }
{
    match line.split_last() {
        Some((last, front)) => { if *last == b'\r' { front } else { line } }
        None => line,
    }
}

/// The first line of bytes, and what stands behind it.
pub fn first_line(bytes: &[u8]) -> (&[u8], &[u8])
    requires { 0 < length bytes.now }
    ensures lines { (lines : List Line) → HasLines result.1.now lines → HasLines bytes.now (result.0.now ∷ lines) }
    ensures shorter { length result.1.now < length bytes.now }
{
    for (at, byte) in bytes.iter().enumerate() {
        if *byte == b'\n' {
            return (without_return(&bytes[..at]), &bytes[at + 1..]);
        }
    }
    (bytes, &bytes[bytes.len()..])
}

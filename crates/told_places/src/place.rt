//! The line and the column of a byte.
ghost use Rattle.std.specs.Prelude.{◌≡◌, ◌<◌, ◌≤◌, ◌-◌, length, chars, count_by, slice_index, IsCharBoundary};
ghost use Rattle.told_places.specs.Places.{is_feed, line_start, line_end, line_number, column_number};

/// Where a byte of a text stands. Lines and columns count from 1, and columns count characters.
#[derive(Clone, Copy, Debug, PartialEq, Eq)]
pub struct Place {
    pub line: usize,
    pub column: usize,
}

/// How many lines end in these bytes.
fn count_feeds(bytes: &[u8]) -> usize
    ensures { result ≡ count_by is_feed bytes.now }
{
    let mut count = 0;
    for byte in bytes {
        if *byte == b'\n' {
            count += 1;
        }
    }
    count
}

/// How many characters a text has.
pub(crate) fn characters(text: &str) -> usize
    ensures number { result ≡ length (chars text.now) }
    ensures few { result ≤ length text.now }
{
    text.chars().count()
}

/// The byte at which the line of this place begins.
pub(crate) fn start_of_line(text: &[u8], at: usize) -> usize
    requires { at ≤ length text.now }
    ensures start { result ≡ line_start text.now at }
    ensures behind_feed { 0 < result → slice_index text.now (result - 1) ≡ 10 }
{
    let mut start = at;
    while start > 0 {
        if text[start - 1] == b'\n' {
            return start;
        }
        start -= 1;
    }
    start
}

/// The byte behind the line of this place.
pub(crate) fn end_of_line(text: &[u8], at: usize) -> usize
    requires { at ≤ length text.now }
    ensures { result ≡ line_end text.now at }
{
    let mut end = at;
    while end < text.len() {
        if text[end] == b'\n' {
            return end;
        }
        end += 1;
    }
    end
}

/// The place of the byte `at`, with which a character begins, or the text ends.
pub fn place_of(text: &str, at: usize) -> Place
    requires { IsCharBoundary text.now at }
    ensures line { result.line ≡ line_number text.now at }
    ensures column { result.column ≡ column_number text.now at }
{
    let start = start_of_line(text.as_bytes(), at);
    Place {
        line: count_feeds(&text.as_bytes()[..at]) + 1,
        column: characters(&text[start..at]) + 1,
    }
}

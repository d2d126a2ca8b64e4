//! Kinds of bytes, and runs of them.
ghost use Rattle.std.specs.Prelude.{◌≡◌, ◌≤◌, length};
ghost use Rattle.std.specs.List.{prefix_len};
ghost use Rattle.ur_lexer.specs.Bytes as spec;

/// A set of bytes whose runs are read at once.
#[derive(Clone, Copy, PartialEq, Eq)]
pub enum Class {
    /// What goes on a name in code.
    Name,
    /// What goes on the name of an element.
    TagName,
    /// What goes on the name of an attribute.
    AttributeName,
    /// Decimal digits.
    Digit,
    /// Spaces, tabs and line ends.
    Space,
    /// What stands for itself in a string.
    InString,
    /// What stands for itself between tags, save a `(`.
    InText,
}

/// Whether the byte is a space, a tab or a line end.
pub fn is_space(byte: u8) -> bool
    ensures { result ≡ spec.is_space byte }
{
    byte == 9 || byte == 10 || byte == 13 || byte == 32
}

/// Whether a lower-case name may begin with the byte.
pub fn begins_lower(byte: u8) -> bool
    ensures { result ≡ spec.begins_lower byte }
{
    byte.is_ascii_lowercase() || byte == b'_'
}

impl Class {
    /// Whether the byte belongs here.
    pub fn has(self, byte: u8) -> bool
        ensures { result ≡ spec.has self byte }
    {
        match self {
            Class::Name => byte.is_ascii_alphanumeric() || byte == b'_' || byte == b'\'',
            Class::TagName => byte.is_ascii_lowercase() || byte.is_ascii_digit(),
            Class::AttributeName => {
                byte.is_ascii_lowercase() || byte.is_ascii_digit() || byte == b'_' || byte == b'-'
            }
            Class::Digit => byte.is_ascii_digit(),
            Class::Space => is_space(byte),
            Class::InString => byte != b'"' && byte != b'\\',
            Class::InText => byte != b'<' && byte != b'{' && byte != b'&' && byte != b'(',
        }
    }

    /// How many bytes at the front belong here.
    pub fn run_len(self, bytes: &[u8]) -> usize
        ensures value { result ≡ prefix_len (spec.has self) bytes.now }
        ensures within { result ≤ length bytes.now }
    {
        let mut len = 0;
        while len < bytes.len() && self.has(bytes[len]) {
            len += 1;
        }
        len
    }
}

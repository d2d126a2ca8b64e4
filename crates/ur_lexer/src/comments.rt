//! Comments.
ghost use Rattle.std.specs.Prelude.{◌≡◌, ◌≤◌, true, length, drop, IfSome};
ghost use Rattle.ur_lexer.specs.Comments as spec;

/// Whether a comment begins at the front.
pub fn opens(bytes: &[u8]) -> bool
    ensures value { result ≡ spec.opens bytes.now }
    ensures within { result ≡ true → 2 ≤ length bytes.now }
{
    2 <= bytes.len() && bytes[0] == b'(' && bytes[1] == b'*'
}

/// Whether the end of a comment stands at the front.
fn closes(bytes: &[u8]) -> bool
    ensures value { result ≡ spec.closes bytes.now }
    ensures within { result ≡ true → 2 ≤ length bytes.now }
{
    2 <= bytes.len() && bytes[0] == b'*' && bytes[1] == b')'
}

/// What is behind the first bytes.
fn behind(bytes: &[u8], len: usize) -> &[u8]
    requires { len ≤ length bytes.now }
    ensures { result.now ≡ drop len bytes.now }
{
    &bytes[len..]
}

/// The length of the comment that begins at the front, or nothing where it has no end.
pub fn comment_len(bytes: &[u8]) -> Option<usize>
    requires { 2 ≤ length bytes.now }
    ensures value { result ≡ spec.comment bytes.now }
    ensures within { IfSome result (λ n. (2 ≤ n) × (n ≤ length bytes.now)) }
{
    let mut rest = behind(bytes, 2);
    let mut len: usize = 2;
    let mut depth: usize = 1;
    'inside: while 0 < depth {
        if opens(rest) {
            depth += 1;
            len += 2;
            rest = behind(rest, 2);
        } else if closes(rest) {
            depth -= 1;
            len += 2;
            rest = behind(rest, 2);
        } else if rest.is_empty() {
            return None;
        } else {
            len += 1;
            rest = behind(rest, 1);
        }
    }
    Some(len)
}

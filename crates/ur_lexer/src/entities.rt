//! Entities.
ghost use Rattle.std.specs.Prelude.{◌≡◌, ◌<◌, ◌≤◌, map, length, IfSome};
ghost use Rattle.ur_lexer.specs.Entities as spec;

use crate::classes::Class;
use crate::numbers::number;
use crate::words::ENTITIES;

/// The character of the first entity of the table that stands at the front, and its length.
fn named(mut table: &[(&[u8], char)], bytes: &[u8]) -> Option<(char, usize)>
    ensures { result ≡ spec.named (map (λ e. (e.0.now, e.1)) table.entry.now) bytes.now }
{
    while let [entry, rest @ ..] = table {
        if bytes.starts_with(entry.0) {
            return Some((entry.1, entry.0.len()));
        }
        table = rest;
    }
    None
}

/// The character that the digits number, if it is one.
fn numbered(digits: &[u8]) -> Option<char>
    ensures { result ≡ spec.numbered digits.now }
{
    let code = number(digits, 0x10_ffff)?;
    char::from_u32(code as u32)
}

/// The character of the numeric entity whose `&#` stands in front of these bytes, and how many
/// of them it takes.
fn numeric(bytes: &[u8]) -> Option<(char, usize)>
    ensures { result ≡ spec.numeric bytes.now }
{
    let len = Class::Digit.run_len(bytes);
    if len == 0 || len == bytes.len() || bytes[len] != b';' {
        return None;
    }
    let character = numbered(&bytes[..len])?;
    Some((character, len + 1))
}

/// The character of the entity at the front, and its length.
pub fn entity(bytes: &[u8]) -> Option<(char, usize)>
    ensures value { result ≡ spec.entity bytes.now }
{
    match bytes {
        [b'&', b'#', rest @ ..] => {
            let (character, len) = numeric(rest)?;
            Some((character, len + 2))
        }
        _ => named(&ENTITIES, bytes),
    }
}

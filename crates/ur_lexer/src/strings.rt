//! Strings.
ghost use Rattle.std.specs.Prelude.{◌≡◌, ◌+◌, ◌<◌, ◌≤◌, ◌^◌, length, IfOk, slice_index};
ghost use Rattle.ur_lexer.specs.Strings as spec;
ghost use Rattle.ur_lexer.specs.Results.{Gives};

use crate::LexFault;
use crate::classes::Class;
use crate::pieces::{Found, after, front};
use crate::state::Turn;
use std::alloc::Global;
use surface_tree::{Content, Kind};
use table_rows::Text;

/// The character that an escape stands for, by the byte behind its backslash.
fn escaped(byte: u8) -> Option<char>
    ensures { result ≡ spec.escaped byte }
{
    match byte {
        b'"' => Some('"'),
        b'\\' => Some('\\'),
        b'n' => Some('\n'),
        b'r' => Some('\r'),
        b't' => Some('\t'),
        _ => None,
    }
}

/// What stands at the front inside a string.
pub enum StringPiece {
    /// So many bytes that stand for themselves.
    Plain(usize),
    /// An escape, of two bytes, and its character.
    Escape(char),
    /// An escape that is unknown.
    Unknown,
    /// The quote that ends the string.
    Close,
    /// The end of the text, where at most a backslash is left.
    Open,
}

/// What stands at the front inside a string.
fn string_piece(text: &str) -> StringPiece
    ensures { spec.IsStringPiece result text.now }
{
    let bytes = text.as_bytes();
    let plain = Class::InString.run_len(bytes);
    if plain > 0 {
        return StringPiece::Plain(plain);
    }
    if bytes.is_empty() {
        return StringPiece::Open;
    }
    if bytes[0] == b'"' {
        return StringPiece::Close;
    }
    if bytes.len() < 2 {
        return StringPiece::Open;
    }
    match escaped(bytes[1]) {
        Some(character) => StringPiece::Escape(character),
        None => StringPiece::Unknown,
    }
}

/// The string whose quote stands at the front.
#[tactic(auto, unfolding(crate::specs::Strings::string_token))]
pub fn string_token(alloc: Global, text: &str, at: u32) -> Result<Found, LexFault>
    requires quote { slice_index text.now 0 ≡ 34 }
    requires some { 0 < length text.now }
    requires room { at + length text.now < 2 ^ 32 }
    ensures { Gives result (spec.string_token text.now at) }
{
    let mut content = Text::new(alloc);
    let mut rest = after(text, 1);
    'inside: loop {
        match string_piece(rest) {
            StringPiece::Plain(len) => {
                content.push_str(front(rest, len))?;
                rest = after(rest, len);
            }
            StringPiece::Escape(character) => {
                content.push(character)?;
                rest = after(rest, 2);
            }
            StringPiece::Close => {
                return Ok(Found {
                    kind: Kind::StringLiteral,
                    content: Content::Characters(content),
                    len: text.len() - rest.len() + 1,
                    turn: Turn::Stay,
                });
            }
            StringPiece::Unknown => {
                return Err(LexFault::BadChar {
                    at: at + (text.len() - rest.len()) as u32,
                });
            }
            StringPiece::Open => return Err(LexFault::OpenText { at }),
        }
    }
}

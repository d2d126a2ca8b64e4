//! The tokens of code, and those of a tag.
ghost use Rattle.std.specs.Prelude.{◌≡◌, ◌+◌, ◌<◌, ◌^◌, map, length, IfOk, slice_index};
ghost use Rattle.ur_lexer.specs.Code as spec;
ghost use Rattle.ur_lexer.specs.Bytes.{IsNarrow};
ghost use Rattle.ur_lexer.specs.Results.{Gives};

use crate::LexFault;
use crate::classes::{Class, begins_lower};
use crate::lookups::{symbol_at, word_kind};
use crate::numbers::{LARGEST, number};
use crate::pieces::{Found, spelling};
use crate::state::Turn;
use crate::strings::string_token;
use crate::words::{KEYWORDS, SYMBOLS, TAG_SYMBOLS, UPPER_WORDS};
use std::alloc::Global;
use surface_tree::{Content, Kind};

/// The longest name at the front: a word of the table, or a name of the given kind.
#[tactic(auto, unfolding(crate::specs::Code::name_token))]
pub fn name_token(
    alloc: Global,
    class: Class,
    table: &[(&[u8], Kind)],
    kind: Kind,
    text: &str,
) -> Result<Found, LexFault>
    requires { IsNarrow class }
    ensures { Gives result (spec.name_token class (map (λ e. (e.0.now, e.1)) table.now) kind text.now) }
{
    let bytes = text.as_bytes();
    let len = class.run_len(bytes);
    match word_kind(table, &bytes[..len]) {
        Some(word) => Ok(Found {
            kind: word,
            content: Content::Nothing,
            len,
            turn: Turn::Stay,
        }),
        None => Ok(Found {
            kind,
            content: spelling(alloc, text, len)?,
            len,
            turn: Turn::Stay,
        }),
    }
}

/// The integer at the front.
#[tactic(auto, unfolding(crate::specs::Code::integer_token))]
fn integer_token(bytes: &[u8], at: u32) -> Result<Found, LexFault>
    ensures { Gives result (spec.integer_token bytes.now at) }
{
    let len = Class::Digit.run_len(bytes);
    match number(&bytes[..len], LARGEST) {
        Some(value) => Ok(Found {
            kind: Kind::Integer,
            content: Content::Number(value),
            len,
            turn: Turn::Stay,
        }),
        None => Err(LexFault::IntTooLarge { at }),
    }
}

/// The longest symbol at the front.
#[tactic(auto, unfolding(crate::specs::Code::symbol_token))]
fn symbol_token(table: &[(&[u8], Kind, Turn)], bytes: &[u8], at: u32) -> Result<Found, LexFault>
    ensures { Gives result (spec.symbol_token (map (λ e. (e.0.now, e.1, e.2)) table.now) bytes.now at) }
{
    match symbol_at(table, bytes) {
        Some((kind, len, turn)) => Ok(Found {
            kind,
            content: Content::Nothing,
            len,
            turn,
        }),
        None => Err(LexFault::BadChar { at }),
    }
}

/// The token at the front of code, where neither a space nor a comment stands.
#[tactic(auto, unfolding(crate::specs::Code::code_token))]
pub fn code_token(alloc: Global, text: &str, at: u32) -> Result<Found, LexFault>
    requires some { 0 < length text.now }
    requires room { at + length text.now < 2 ^ 32 }
    ensures { Gives result (spec.code_token text.now at) }
{
    let bytes = text.as_bytes();
    let first = bytes[0];
    if begins_lower(first) {
        name_token(alloc, Class::Name, &KEYWORDS, Kind::LowerName, text)
    } else if first.is_ascii_uppercase() {
        name_token(alloc, Class::Name, &UPPER_WORDS, Kind::UpperName, text)
    } else if first.is_ascii_digit() {
        integer_token(bytes, at)
    } else if first == b'"' {
        string_token(alloc, text, at)
    } else {
        symbol_token(&SYMBOLS, bytes, at)
    }
}

/// The token at the front of the inside of a tag, where no space stands.
#[tactic(auto, unfolding(crate::specs::Code::tag_token))]
pub fn tag_token(alloc: Global, text: &str, at: u32) -> Result<Found, LexFault>
    requires some { 0 < length text.now }
    requires room { at + length text.now < 2 ^ 32 }
    ensures { Gives result (spec.tag_token text.now at) }
{
    let bytes = text.as_bytes();
    let first = bytes[0];
    if first.is_ascii_lowercase() {
        name_token(alloc, Class::AttributeName, &[], Kind::AttributeName, text)
    } else if first.is_ascii_digit() {
        integer_token(bytes, at)
    } else if first == b'"' {
        string_token(alloc, text, at)
    } else {
        symbol_token(&TAG_SYMBOLS, bytes, at)
    }
}

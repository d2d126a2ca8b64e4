//! The tokens between tags.
ghost use Rattle.std.specs.Prelude.{◌≡◌, ◌+◌, ◌<◌, ◌^◌, length, IfOk, slice_index};
ghost use Rattle.ur_lexer.specs.Markup as spec;
ghost use Rattle.ur_lexer.specs.Results.{Gives};

use crate::LexFault;
use crate::classes::Class;
use crate::comments::opens;
use crate::entities::entity;
use crate::pieces::{Found, after, front, spelling};
use crate::state::Turn;
use std::alloc::{AllocError, Global};
use surface_tree::{Content, Kind};
use table_rows::Text;

/// What stands at the front of a run of text.
pub enum RunPiece {
    /// So many bytes that stand for themselves.
    Plain(usize),
    /// An entity: its character and its length.
    Entity(char, usize),
    /// What ends the run.
    End,
}

/// What stands at the front of a run of text.
fn run_piece(text: &str) -> RunPiece
    ensures { spec.IsRunPiece result text.now }
{
    let bytes = text.as_bytes();
    let plain = Class::InText.run_len(bytes);
    if plain > 0 {
        return RunPiece::Plain(plain);
    }
    if bytes.is_empty() || opens(bytes) {
        return RunPiece::End;
    }
    if bytes[0] == b'(' {
        return RunPiece::Plain(1);
    }
    if bytes[0] != b'&' {
        return RunPiece::End;
    }
    match entity(bytes) {
        Some((character, len)) => RunPiece::Entity(character, len),
        None => RunPiece::End,
    }
}

/// The text up to the next `<`, `{`, comment or unknown entity, and how many bytes it takes.
#[tactic(auto, unfolding(crate::specs::Markup::run))]
fn run(alloc: Global, text: &str) -> Result<(Text, usize), LexFault>
    ensures { Gives result (Ok (spec.run text.now)) }
{
    let mut content = Text::new(alloc);
    let mut rest = text;
    'pieces: loop {
        match run_piece(rest) {
            RunPiece::Plain(len) => {
                content.push_str(front(rest, len))?;
                rest = after(rest, len);
            }
            RunPiece::Entity(character, len) => {
                content.push(character)?;
                rest = after(rest, len);
            }
            RunPiece::End => return Ok((content, text.len() - rest.len())),
        }
    }
}

/// The front of a tag, whose `<` stands in front of the text.
#[tactic(auto, unfolding(crate::specs::Markup::opening_token))]
fn opening_token(alloc: Global, text: &str) -> Result<Found, LexFault>
    ensures { Gives result (spec.opening_token text.now) }
{
    let len = Class::TagName.run_len(text.as_bytes());
    Ok(Found {
        kind: Kind::TagOpen,
        content: spelling(alloc, text, len)?,
        len: len + 1,
        turn: Turn::EnterTag,
    })
}

/// How many bytes of a closing tag stand behind its name, if it ends as it must.
fn closing_end(bytes: &[u8]) -> Option<usize>
    ensures { result ≡ spec.closing_end bytes.now }
{
    let spaces = Class::Space.run_len(bytes);
    if spaces < bytes.len() && bytes[spaces] == b'>' {
        Some(spaces + 1)
    } else {
        None
    }
}

/// The closing tag, whose `</` stands in front of the text. Where no element is open it closes
/// the XML literal, if its name is `xml`.
#[tactic(auto, unfolding(crate::specs::Markup::closing_token))]
fn closing_token(alloc: Global, in_literal: bool, text: &str, at: u32) -> Result<Found, LexFault>
    ensures { Gives result (spec.closing_token in_literal text.now at) }
{
    let bytes = text.as_bytes();
    let len = Class::TagName.run_len(bytes);
    if len == 0 || !bytes[0].is_ascii_lowercase() {
        return Err(LexFault::BadChar { at });
    }
    let Some(end) = closing_end(&bytes[len..]) else {
        return Err(LexFault::BadChar { at });
    };
    let name = &bytes[..len];
    if in_literal && name == b"xml".as_slice() {
        return Ok(Found {
            kind: Kind::XmlClose,
            content: Content::Nothing,
            len: len + end + 2,
            turn: Turn::LeaveElement,
        });
    }
    Ok(Found {
        kind: Kind::TagClose,
        content: spelling(alloc, text, len)?,
        len: len + end + 2,
        turn: Turn::LeaveElement,
    })
}

/// The tag whose `<` stands at the front.
#[tactic(auto, unfolding(crate::specs::Markup::mark_token))]
fn mark_token(alloc: Global, in_literal: bool, text: &str, at: u32) -> Result<Found, LexFault>
    requires some { 0 < length text.now }
    requires mark { slice_index text.now 0 ≡ 60 }
    ensures { Gives result (spec.mark_token in_literal text.now at) }
{
    let bytes = text.as_bytes();
    if bytes.len() < 2 {
        return Err(LexFault::BadChar { at });
    }
    let second = bytes[1];
    if second == b'/' {
        closing_token(alloc, in_literal, after(text, 2), at)
    } else if second.is_ascii_lowercase() {
        opening_token(alloc, after(text, 1))
    } else {
        Err(LexFault::BadChar { at })
    }
}

/// A run of text at the front.
#[tactic(auto, unfolding(crate::specs::Markup::run_token))]
fn run_token(alloc: Global, text: &str, at: u32) -> Result<Found, LexFault>
    ensures { Gives result (spec.run_token text.now at) }
{
    let (content, len) = run(alloc, text)?;
    if len == 0 {
        return Err(LexFault::BadChar { at });
    }
    Ok(Found {
        kind: Kind::TextRun,
        content: Content::Characters(content),
        len,
        turn: Turn::Stay,
    })
}

/// The token at the front of text, where no comment stands.
#[tactic(auto, unfolding(crate::specs::Markup::text_token))]
pub fn text_token(alloc: Global, in_literal: bool, text: &str, at: u32) -> Result<Found, LexFault>
    requires some { 0 < length text.now }
    ensures { Gives result (spec.text_token in_literal text.now at) }
{
    match text.as_bytes()[0] {
        b'<' => mark_token(alloc, in_literal, text, at),
        b'{' => Ok(Found {
            kind: Kind::LeftBrace,
            content: Content::Nothing,
            len: 1,
            turn: Turn::EnterBrace,
        }),
        _ => run_token(alloc, text, at),
    }
}

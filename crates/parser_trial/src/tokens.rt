//! The tokens of a source, and how they are written in a case.
ghost use Rattle.std.specs.Prelude.{◌<◌, ◌^◌, length, IfOk};

use std::alloc::{AllocError, Global};
use surface_tree::{Content, Token, Tokens};
use ur_lexer::{LexFault, lex};

/// The greatest length of a source that is tried.
const LONGEST: usize = 4_000_000;

/// The tokens of a source.
pub fn tokens_of(alloc: Global, source: &str) -> Result<Tokens, LexFault>
    ensures { IfOk result (λ tokens. length tokens.items < 2 ^ 32) }
{
    if source.len() > LONGEST {
        return Err(LexFault::Memory);
    }
    lex(alloc, source)
}

/// The fault as it is written in a case.
pub fn fault_line(alloc: Global, fault: LexFault) -> Result<String, AllocError> {
    match fault {
        LexFault::BadChar { at } => format!(in alloc; "BadChar {at}"),
        LexFault::OpenText { at } => format!(in alloc; "OpenText {at}"),
        LexFault::OpenComment { at } => format!(in alloc; "OpenComment {at}"),
        LexFault::IntTooLarge { at } => format!(in alloc; "IntTooLarge {at}"),
        LexFault::Memory => String::from_str(alloc, "Memory"),
    }
}

/// A token as its place, its kind and what it holds.
fn token_line(alloc: Global, token: &Token) -> Result<String, AllocError> {
    let at = token.at;
    let kind = token.kind;
    match &token.content {
        Content::Nothing => format!(in alloc; "{at} {kind:?}"),
        Content::Number(number) => format!(in alloc; "{at} {kind:?} {number}"),
        Content::Characters(text) => {
            let characters = text.as_str();
            format!(in alloc; "{at} {kind:?} {characters}")
        }
    }
}

/// The tokens, one behind another.
pub fn tokens_line(alloc: Global, tokens: &Tokens) -> Result<String, AllocError> {
    let mut all = String::new(alloc);
    for place in 0..tokens.len() {
        if place > 0 {
            all.push_str(" | ")?;
        }
        let token = token_line(alloc, tokens.at(place))?;
        all.push_str(token.as_str())?;
    }
    Ok(all)
}

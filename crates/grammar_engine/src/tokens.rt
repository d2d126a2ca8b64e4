//! Looking at tokens, and copying one.
ghost use Rattle.std.specs.Prelude.{◌≡◌, ◌<◌, length, drop, IfOk, IfSome, IsTrue, IsFalse, Some, ◌≢◌};
ghost use Rattle.surface_grammar.specs.Fronts.{first_kind};
ghost use Rattle.grammar_engine.specs.Places.{name_at};

use std::alloc::{AllocError, Global};
use surface_tree::{Content, Kind, Token, Tokens};

/// The kind of the token at this place, or nothing at the end.
pub fn kind_at(tokens: &Tokens, place: usize) -> Option<Kind>
    ensures { result ≡ first_kind (drop place tokens.now.items) }
{
    if place < tokens.len() {
        Some(tokens.at(place).kind)
    } else {
        None
    }
}

/// Whether a token of this kind stands at the place.
pub fn is_at(tokens: &Tokens, place: usize, kind: Kind) -> bool
    ensures yes { IsTrue result → first_kind (drop place tokens.now.items) ≡ Some kind }
    ensures other { IsFalse result → first_kind (drop place tokens.now.items) ≢ Some kind }
{
    match kind_at(tokens, place) {
        Some(found) => found == kind,
        None => false,
    }
}

/// What a token holds, again.
fn copy_content(alloc: Global, content: &Content) -> Result<Content, AllocError>
    ensures { IfOk result (λ made. made ≡ content.now) }
{
    match content {
        Content::Nothing => Ok(Content::Nothing),
        Content::Number(value) => Ok(Content::Number(*value)),
        Content::Characters(text) => Ok(Content::Characters(text.copy(alloc)?)),
    }
}

/// The token again.
pub fn copy_token(alloc: Global, token: &Token) -> Result<Token, AllocError>
    ensures { IfOk result (λ made. made ≡ token.now) }
{
    let content = copy_content(alloc, &token.content)?;
    Ok(Token {
        kind: token.kind,
        at: token.at,
        content,
    })
}

/// Whether the two tokens hold the same.
pub fn same_name(left: &Token, right: &Token) -> bool
    ensures yes { IsTrue result → left.now.content ≡ right.now.content }
    ensures other { IsFalse result → left.now.content ≢ right.now.content }
{
    match (&left.content, &right.content) {
        (Content::Characters(one), Content::Characters(other)) => one.as_str() == other.as_str(),
        (Content::Number(one), Content::Number(other)) => *one == *other,
        (Content::Nothing, Content::Nothing) => true,
        _ => false,
    }
}

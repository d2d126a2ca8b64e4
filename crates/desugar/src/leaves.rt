//! Tokens as what trees stand for.
ghost use Rattle.std.specs.Prelude.{◌≡◌, IfOk};
ghost use Rattle.desugar.specs.Leaves.{spelled, spelled_content};

use std::alloc::{AllocError, Global};
use surface_tree::{Content, Kind, Token};
use table_rows::Text;

/// A copy of what a token holds.
fn copied(alloc: Global, content: &Content) -> Result<Content, AllocError>
    ensures { IfOk result (λ copy. copy ≡ content.now) }
{
    match content {
        Content::Nothing => Ok(Content::Nothing),
        Content::Number(number) => Ok(Content::Number(*number)),
        Content::Characters(text) => Ok(Content::Characters(text.copy(alloc)?)),
    }
}

/// What a token holds; the words for kinds, which are upper-case names too, hold their spelling.
fn held(alloc: Global, kind: Kind, content: &Content) -> Result<Content, AllocError>
    ensures { IfOk result (λ held. held ≡ spelled_content kind content.now) }
{
    match kind {
        Kind::TypeWord => Ok(Content::Characters(Text::of(alloc, "Type")?)),
        Kind::UnitWord => Ok(Content::Characters(Text::of(alloc, "Unit")?)),
        Kind::NameWord => Ok(Content::Characters(Text::of(alloc, "Name")?)),
        _ => copied(alloc, content),
    }
}

/// A token with its spelling.
pub fn spelled(alloc: Global, token: &Token) -> Result<Token, AllocError>
    ensures { IfOk result (λ made. made ≡ spelled token.now) }
{
    let content = held(alloc, token.kind, &token.content)?;
    Ok(Token {
        kind: token.kind,
        at: token.at,
        content,
    })
}

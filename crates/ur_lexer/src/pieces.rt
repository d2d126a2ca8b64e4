//! Parts of a text.
ghost use Rattle.std.specs.Prelude.{◌≡◌, ◌≤◌, take, drop, IfOk, IsCharBoundary};
ghost use Rattle.surface_tree.specs.declared.token.Content.TheVariants.{Characters};

use crate::state::Turn;
use std::alloc::{AllocError, Global};
use surface_tree::{Content, Kind};
use table_rows::Text;

/// A token, how many bytes it takes, and what it does to the mode.
#[derive(Drop)]
pub struct Found {
    pub kind: Kind,
    pub content: Content,
    pub len: usize,
    pub turn: Turn,
}

/// The first bytes.
pub fn front(text: &str, len: usize) -> &str
    requires { IsCharBoundary text.now len }
    ensures { result.now ≡ take len text.now }
{
    &text[..len]
}

/// What is behind the first bytes.
pub fn after(text: &str, len: usize) -> &str
    requires { IsCharBoundary text.now len }
    ensures { result.now ≡ drop len text.now }
{
    &text[len..]
}

/// The first bytes, as what a token holds.
pub fn spelling(alloc: Global, text: &str, len: usize) -> Result<Content, AllocError>
    requires { IsCharBoundary text.now len }
    ensures { IfOk result (λ content. content ≡ Characters (take len text.now)) }
{
    Ok(Content::Characters(Text::of(alloc, front(text, len))?))
}

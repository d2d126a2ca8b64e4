//! What a tree of the grammar stands for.
use con_terms::Kind;
use plain_tree::{Con, Exp, Node, Pat};
use std::collections::VecDeque;
use surface_tree::Token;

/// What a tree stands for. A number before a value is the byte of the tree's first token, which is that of the value
/// too but where the tree stands in brackets of its own. Contracts see it as `meaning_tree`.
#[cycle(meaning)]
#[derive(Drop)]
pub enum Meaning {
    /// An option that isn't there.
    Absent,
    /// A token.
    Word(Token),
    /// The trees of a repetition.
    Several(Meanings),
    /// A tree that is only a part of the next one: what its own parts stand for.
    Group(Meanings),
    /// A kind.
    Kind(Box<Kind>),
    /// A constructor.
    Con(u32, Box<Con>),
    /// A pattern.
    Pat(u32, Box<Pat>),
    /// A term.
    Exp(u32, Box<Exp>),
    /// A node of markup.
    Node(Box<Node>),
}

/// What several trees stand for, in order. Contracts see it as `meanings_tree`.
#[cycle(meaning)]
#[derive(Drop)]
pub struct Meanings {
    pub items: VecDeque<Meaning>,
}

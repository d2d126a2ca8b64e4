//! Parameters of functions.
use crate::con::Con;
use crate::names::Word;
use crate::pat::Pat;
use con_terms::Kind;

/// A parameter of a function. Contracts see it as `arg_tree`.
#[derive(Drop)]
pub enum Arg {
    Pat(Pat),
    /// `[x :: k]`, or `[x ::: k]` where the first flag is true, at its bracket. The second flag tells
    /// whether the kind is written; one that isn't is Type.
    Con(u32, bool, bool, Word, Kind),
    /// `[c ~ d]`, at its bracket.
    Guard(u32, Con, Con),
}

/// Parameters in order.
#[derive(Drop)]
pub struct Args {
    pub items: Vec<Arg>,
}

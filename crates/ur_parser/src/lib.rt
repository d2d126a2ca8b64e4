//! The readers of tokens: what a module or an interface says, as a tree.
#![tactic(auto)]

pub mod laws;
pub mod sources;

pub use sources::{parse, parse_interface};

//! From terms without sugar to terms of the explicit language: names resolved, types inferred, and what a call leaves
//! out inserted.
//!
//! A term whose type isn't known yet is kept as far as it was elaborated, and goes on from there once more of its
//! wanted type is known; so no part is elaborated twice.
//!
//! Every form works outside of any recursion: it either ends, or asks for one part and says how it goes on once that
//! is there. Only the loops of `elab` call themselves, one for each form.
#![tactic(auto)]

pub mod elab;
pub mod inference;

pub use inference::Inferred;

//! The checker: whether a program is accepted, and what is told of one that isn't.
//!
//! A walk over the terms collects what is found for the parts of each and calls the function of its form: those of
//! `node_rules`, `pattern_rules` and `markup_rules`. Declarations are judged one by one, since what a scope keeps of a
//! declaration is its written type alone.
//!
//! Proved here: each call is safe and ends, what the walk finds for a term is what `judged_terms` defines, a program
//! that is kept is the one that was given, and so is the program that a refusal gives back; one that is kept is
//! accepted, and tells no fault; and the fault of a refusal is the one that the program tells.
#![tactic(auto)]

mod declarations;
mod entries;
mod lists;
mod parts;
mod places;
mod programs;
mod scopes;
mod singles;
mod terms;
mod told;
mod top;

pub use programs::{CheckFault, Refused, checked};

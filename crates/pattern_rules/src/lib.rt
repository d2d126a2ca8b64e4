//! What patterns bind at a type, what is told of them, and what is found for a case from its branches.
//!
//! What each function computes stands in `specs/`: `Binds` for patterns, `Matching` for branches and cover. Proved
//! here: each function gives what is computed, a pattern binds what it is found to bind, and patterns of which nothing
//! is told cover the type.
#![tactic(auto)]

pub mod binds;
pub mod cases;
pub mod constructors;
pub mod fields;
pub mod laws;

pub use binds::{AtData, FieldsBound, binding};
pub use cases::{Branch, Cases, asked_of, first_case, of_case, uncovered, with_case};

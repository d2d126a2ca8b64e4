//! Whether a name stands at a place of a source, and isn't in scope there.
//!
//! The definitions stand in `specs/`: which names stand in a part of a source, and what is in scope there.
#![tactic(auto)]

mod around;
mod asked;
mod binders;
mod cons;
mod declarations;
mod declared;
mod in_scope;
mod patterns;
mod programs;
mod terms;

pub use programs::is_unbound;

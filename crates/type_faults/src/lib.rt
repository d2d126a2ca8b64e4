//! What is told of a program that is at fault: where a fault stands and what it keeps, as values.
//!
//! What each fault means stands in `core_typing`; `specs/View.antt` says which of those a value is.
#![tactic(auto)]

pub mod copies;
pub mod fault;
pub mod flaws;
pub mod order;

pub use copies::copy_symbols;
pub use fault::{Fault, Name, Shape, ShapeField, ShapeFields, Twice, Types};
pub use flaws::{flaw_fault, flawed, mismatch, too_large};
pub use order::{first, place_of};

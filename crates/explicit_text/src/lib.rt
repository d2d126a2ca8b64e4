//! Prints what the explicit language is made of as its tokens, with one space between two.
#![tactic(auto)]

pub mod cons;
mod decls;
mod functions;
pub mod implicits;
mod kinds;
pub mod known;
mod locals;
mod markup;
pub mod names;
pub mod output;
mod pats;
pub mod printer;
pub mod program;
mod rows;
pub mod scope;
pub mod tasks;
mod terms;

pub use known::{Known, KnownEffect, KnownType, Top};
pub use output::Output;
pub use printer::{Printer, Style, run};
pub use program::explicit_text;
pub use scope::Scope;
pub use tasks::{Task, Tasks};

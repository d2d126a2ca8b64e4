//! The patterns, terms, markup, declarations and programs of the explicit language held against their source.
#![tactic(auto)]

mod alike;
mod calls;
mod chains;
mod datatypes;
mod declarations;
mod exports;
mod forms;
mod functions;
pub mod laws;
mod leaves;
mod lets;
mod markup;
mod patterns;
mod programs;
mod scopes;
mod standing;
mod tasks;
mod terms;

pub use patterns::is_pat;
pub use programs::is_source;
pub use terms::{is_exp, is_group, is_named};

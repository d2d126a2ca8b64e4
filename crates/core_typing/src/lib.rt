//! Which programs of the explicit language are accepted: what types terms have, and what is told
//! of a program that is at fault.
//!
//! The definitions stand in `specs/`; each file is one subject.
#![tactic(auto)]

pub mod accepted;
pub mod examples;
pub mod laws;

pub use accepted::Accepted;
pub use laws::what_is_found_is_accepted;

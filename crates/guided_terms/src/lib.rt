//! Which term of the explicit language is the one that a source determines: what is wanted of each part of a term, what
//! is found for what a call leaves out, and in which order.
//!
//! The definitions stand in `specs/`; each file is one subject.
#![tactic(auto)]

pub mod examples;

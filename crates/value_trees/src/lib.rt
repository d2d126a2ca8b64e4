//! The values of a run as finite trees, and what a link writes for them.
//!
//! The definitions stand in `specs/`; each file is one subject.
#![tactic(auto)]

//! What is found for a term from what is found for its parts, as definitions, and its law: what is found with a type
//! and no fault is found by the rules of typing, with cover.
#![tactic(auto)]

pub mod laws;

pub use laws::declared_are_found;

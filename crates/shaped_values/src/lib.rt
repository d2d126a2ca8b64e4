//! What it means that patterns cover: which values a type has, that each has one of the type's shapes, and that a case
//! whose patterns cover takes a branch for each value of its type (laws).
#![tactic(auto)]

pub mod laws;

//! How faults are told: their order, what a node tells from what its parts and itself have at fault,
//! and what comparisons, kindings and heads of types tell.
//!
//! A checker computes these; the laws say that what it computes is what the definitions tell.
#![tactic(auto)]

pub mod laws;
pub mod order;

pub use order::stands_before;

//! Which rows are apart: guards that are assumed, and the first pieces that they don't separate.
//!
//! What it means to be apart stands in `con_terms`; how two normal forms are compared stands in `specs/`.
#![tactic(auto)]

pub mod fault;
pub mod guards;
pub mod laws;
pub mod prover;

pub use fault::DisjointFault;
pub use guards::{Guards, Sides};
pub use prover::disjoint;

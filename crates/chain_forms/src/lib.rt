//! Chains of operators and of what follows a term while their types are found: each ends, or asks for one part and says
//! how it goes on once that is there.
#![tactic(auto)]

pub mod chains;
pub mod sides;

pub use chains::{ChainAfter, of_chain};

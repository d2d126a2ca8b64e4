//! How many nodes constructors and their kinds have, told by walks that take no memory.
//!
//! Constructors can double at each level of a source or of a run, so those that are put together of others are held
//! below a number of nodes, and the steps of their reduction below a number that goes by it. What needs more counts as
//! want of memory.
#![tactic(auto)]

mod counts;
mod functions;
mod kinds;

pub use counts::{MOST, left_beside, left_with, left_with_all, nodes};
pub use functions::most_units;

//! The memory of one request: texts, lists and values that all go at once.
#![tactic(auto)]

mod region;

pub use region::Region;

//! The values of a run that the wires of a link are, by the shapes of the arguments of what is called.
#![tactic(auto)]

mod fitting;
mod frames;
mod leaves;
mod records;
mod scoped;
mod symbols;
mod wires;

pub use wires::{NoValues, values_of_wires};

//! What the line of a refused program says behind its place: the name of the fault, and what it keeps.
//!
//! Proved here: each call is safe and ends, and what is told of a fault is its place, its name, and behind that what it
//! keeps, as `specs/Lines.antt` says: kinds and types as `shown_types` prints them, shapes, and names.
#![tactic(auto)]

pub mod names;
pub mod shapes;
pub mod told;

pub use told::{Told, told_of_check, told_of_elaboration};

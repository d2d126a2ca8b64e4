//! Which types' values a link or a form can carry.
//!
//! A link carries ints, strings, records of these, and datatypes whose constructors hold what a link carries: the
//! greatest set of datatypes that is so closed is found once for a program. A form fills records of strings and bools.
#![tactic(auto)]

mod carried;
pub mod laws;
mod pages;

pub use carried::{Carriers, can_carry, can_fill, carriers_of};
pub use pages::{CarriedTo, carried_behind, gives_page, sends_form, shows_page};

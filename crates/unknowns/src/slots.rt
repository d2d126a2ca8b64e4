//! Unknowns, each with what was found for it.

use crate::held::Held;
use con_terms::Kind;

/// An unknown: its kind, and what was found for it, as it is seen from outside of the unknowns.
#[derive(Drop)]
pub struct Unknown {
    pub kind: Kind,
    pub answer: Option<Held>,
}

/// Unknowns, the innermost first.
#[cycle(slots)]
#[derive(Drop)]
pub enum Slots {
    Nothing,
    Slot(Unknown, Box<Slots>),
}

//! What a pass knows, and what the table keeps of it. No value of these types is made: they are for contracts and
//! proofs.
use std::collections::LinkedList;

/// What a pass knows: its number, the beginning of the history that it has seen, its own entries there, and for each
/// pass that was joined into it, straight or by way of others, the number and the entries.
pub struct Known<E> {
    pub number: u32,
    pub seen: LinkedList<E>,
    pub mine: LinkedList<E>,
    pub gathered: LinkedList<(u32, LinkedList<E>)>,
}

/// What the table keeps of a seat.
pub struct View<S, E> {
    /// The value that the cell was started with. A seat that was joined into another has none.
    pub opening: Option<S>,
    pub known: Known<E>,
    /// What the two passes had seen that were joined last.
    pub told: LinkedList<LinkedList<E>>,
    /// It is a pass: it has its number, and was not joined into another.
    pub live: bool,
    /// It has the turn.
    pub acts: bool,
}

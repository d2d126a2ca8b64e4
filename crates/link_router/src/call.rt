//! A call of an entry.
use table_rows::{Bytes, Wire, Wires};

/// A call of the entry with a number, with its arguments, and the form where it has one.
#[derive(Drop)]
pub struct Call {
    pub entry: u32,
    pub wires: Wires,
    /// The form of an action.
    pub form: Option<Wire>,
    /// The value of the `Cookie` header, or nothing.
    pub cookie: Bytes,
}

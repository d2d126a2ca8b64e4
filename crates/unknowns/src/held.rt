//! Constructors that have room for a shift.

ghost use Rattle.con_terms.specs.Size.{HasRoom};
ghost use Rattle.con_terms.specs.View.{con_tree};
ghost use Rattle.std.proofs.Props.{props};

use con_terms::Con;

/// A constructor that has room for a shift.
#[derive(Drop)]
pub struct Held {
    pub con: Con,
    ghost room: { HasRoom (con_tree con) } by { Prim.hlevel props },
}

//! The pieces of a row.

ghost use Rattle.std.specs.Prelude.{◌≡◌, IfOk};
ghost use Rattle.con_terms.specs.View.{con_tree};
ghost use Rattle.row_normal.specs.Ordered.{piece_key as place};
ghost use Rattle.std.proofs.Props.{props};

use crate::code::piece_key;
use con_terms::Con;
use std::alloc::{AllocError, Global};

/// A piece of a row, with that by which it is placed. Contracts see it as the tree `piece_tree`.
#[derive(Drop)]
pub struct Piece {
    pub key: Vec<u64>,
    pub con: Con,
    ghost placed: { key.items ≡ place (con_tree con) } by { Prim.hlevel props },
}

impl Piece {
    /// A piece, with that by which it is placed.
    pub fn new(alloc: Global, con: Con) -> Result<Piece, AllocError>
        ensures { IfOk result (λ p. con_tree p.con ≡ con_tree con) }
    {
        let key = piece_key(alloc, &con)?;
        Ok(Piece { key, con })
    }
}

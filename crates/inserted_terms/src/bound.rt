//! Types as they are seen from under binders of constructors.
ghost use Rattle.std.specs.Prelude.{◌≡◌, IfOk};
ghost use Rattle.con_terms.specs.Substitution.{shift as shifted};
ghost use Rattle.con_terms.specs.View.{con_tree};

use con_terms::{Con, has_room, shift};
use std::alloc::{AllocError, Global};

/// What binders of constructors may nest below.
pub const BINDERS: u32 = 1 << 31;

/// A type as it is seen from under so many binders more. One without room for that counts as want of memory.
pub fn raised(alloc: Global, c: &Con, by: u32) -> Result<Con, AllocError>
    ensures { IfOk result (λ new. con_tree new ≡ shifted by (con_tree c.now) 0) }
{
    if by >= BINDERS || !has_room(c) {
        return Err(AllocError);
    }
    shift(alloc, c, by, 0)
}

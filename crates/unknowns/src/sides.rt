//! Two sides that differ.

ghost use Rattle.std.specs.Prelude.{◌≢◌};
ghost use Rattle.row_normal.specs.View.{normal_tree};
ghost use Rattle.std.proofs.Props.{props};

use row_normal::Normal;

/// Two normal forms that differ.
#[derive(Drop)]
pub struct Apart {
    /// How many unknowns are the innermost binders of both.
    pub under: u32,
    pub wanted: Normal,
    pub found: Normal,
    ghost apart: { normal_tree wanted ≢ normal_tree found } by { Prim.hlevel props },
}

//! A constructor in normal form, by itself.

ghost use Rattle.std.specs.Prelude.{◌≡◌, true};
ghost use Rattle.con_terms.specs.Size.{HasRoom};
ghost use Rattle.con_terms.specs.View.{con_tree};
ghost use Rattle.row_normal.specs.NormalForm.{IsNormal, is_normal};
ghost use Rattle.row_normal.specs.Ordered.{ordered};
ghost use Rattle.std.proofs.Props.{props};

use con_terms::Con;

/// A constructor in normal form. Contracts see it as the tree `normal_tree`.
#[derive(Drop)]
pub struct Normal {
    pub(crate) con: Con,
    ghost room: { HasRoom (con_tree con) } by { Prim.hlevel props },
    ghost own: { is_normal (con_tree con) ≡ true },
}

impl Normal {
    ghost use Rattle.row_normal.specs.View.{normal_tree};

    /// The constructor, which is its own normal form, with its rows in order.
    pub fn con(&self) -> &Con
        ensures same { con_tree result.now ≡ normal_tree self.now }
        ensures own { IsNormal (con_tree result.now) }
        ensures order { ordered (con_tree result.now) ≡ con_tree result.now }
        ensures room { HasRoom (con_tree result.now) }
    {
        &self.con
    }

    /// The constructor, which is its own normal form, with its rows in order.
    pub fn into_con(self) -> Con
        ensures same { con_tree result ≡ normal_tree self }
        ensures own { IsNormal (con_tree result) }
        ensures order { ordered (con_tree result) ≡ con_tree result }
        ensures room { HasRoom (con_tree result) }
    {
        let Normal { con } = self;
        con
    }
}

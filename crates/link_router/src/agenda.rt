//! The values that are still to be written.
ghost use Rattle.std.specs.Prelude.{◌≡◌, ◌∷◌, [], map, OnOk, IfSome, IfNone};
ghost use Rattle.table_rows.specs.View.{wire_tree};

use std::alloc::{AllocError, Global};
use table_rows::Wire;

/// Lists of values. Contracts see it as the list `agenda_view`, in which that comes first which is written first.
#[derive(Drop)]
pub struct Agenda<'w> {
    lists: Vec<&'w [Wire]>,
}

impl<'w> Agenda<'w> {
    ghost use Rattle.link_router.specs.Pending.{agenda_view};

    /// Nothing is to be written.
    pub fn new(alloc: Global) -> Agenda<'w>
        ensures { agenda_view result ≡ [] }
    {
        Agenda {
            lists: Vec::new(alloc),
        }
    }

    #[tactic(auto, using(crate::proofs::Stacks::put_first))]
    /// Puts values before all that is to be written.
    pub fn push(&mut self, list: &'w [Wire]) -> Result<(), AllocError>
        ensures { OnOk result (agenda_view self.new ≡ map wire_tree list.now ∷ agenda_view self.old) }
    {
        Ok(self.lists.push(list)?)
    }

    #[tactic(auto, using(crate::proofs::Stacks::put_first, crate::proofs::Stacks::none_put))]
    /// Takes the values that are written first.
    pub fn pop(&mut self) -> Option<&'w [Wire]>
        ensures some { IfSome result (λ list. agenda_view self.old ≡ map wire_tree list.now ∷ agenda_view self.new) }
        ensures none { IfNone result (agenda_view self.old ≡ []) }
    {
        self.lists.pop()
    }
}

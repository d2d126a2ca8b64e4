//! The turn at the cell's value.
ghost use Rattle.std.specs.Prelude.{◌≡◌};

use crate::pass::Place;
use crate::replays::Replays;
use std::snapshot::Snapshot;

/// The value, which its holder owns until it gives the turn back. It can't be dropped: `give_back` and `give_entry`
/// spend it.
pub struct Turn<S: Replays> {
    pub(crate) value: S,
    pub(crate) taken: Snapshot<Place<S>>,
}

impl<S: Replays> Turn<S> {
    ghost use Rattle.std.specs.Borrow.{Lends, sem};
    ghost use Rattle.commit_cell.specs.contracts.turn.Turn.{the_row};
    ghost use Rattle.commit_cell.specs.Words.{value_of, with_value};

    /// The value.
    pub fn value(&self) -> &S
        ensures { result.now ≡ value_of self.now }
    {
        &self.value
    }

    /// The value, to be changed.
    pub fn value_mut(&mut self) -> &mut S
        ensures* written { sem 𝓛
            (Lends (the_row S.row S.Entry.row) S.row self.entry result (with_value self.entry.now)) }
        ensures value { result.now ≡ value_of self.old }
    {
        &mut self.value
    }
}

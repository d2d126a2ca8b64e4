//! What one thread knows of the cell's history.
ghost use Rattle.std.specs.Prelude.{◌≡◌, true, length, is_some};

use crate::replays::Replays;
use crate::view::View;
use atomic_table::Seat;

/// The place of a pass at the cell's table.
pub type Place<S> = Seat<Option<S>, View<S, <S as Replays>::Entry>>;

/// What one thread knows of the cell's history. It has a number, which no other pass of the cell ever has.
#[derive(Drop)]
pub struct Pass<S: Replays> {
    pub(crate) number: u32,
    pub(crate) made: u64,
    pub(crate) seat: Place<S>,
    pub ghost numbered: { (seat.me.0.known.number ≡ number) × (seat.me.0.live ≡ true) },
    pub ghost counted: { length seat.me.0.known.mine ≡ made },
    pub ghost opened: { is_some seat.me.0.opening ≡ true },
}

impl<S: Replays> Pass<S> {
    ghost use Rattle.commit_cell.specs.Words.{number, mine};

    /// The number with which its entries stand in the history.
    pub fn number(&self) -> u32
        ensures { result ≡ number self.now }
    {
        self.number
    }

    /// How many entries it made, which is the serial of its next one.
    pub fn made(&self) -> u64
        ensures { result ≡ length (mine self.now) }
    {
        self.made
    }
}

//! A store that holds all that a store may: vectors, maps, shared code, and objects of one type with a bound.
ghost use Rattle.std.specs.Prelude.{ℕ, ◌≤◌};

use commit_cell::Replays;
use std::collections::{BTreeMap, HashMap};
use std::sync::Arc;

/// What a commit to the shelf leaves.
#[derive(Drop)]
pub struct Record {
    pub number: u32,
    pub serial: u64,
    pub text: Vec<u8>,
}

/// An object of the outside that is changed by a commit.
pub trait Effect: Drop {
    ghost done: { Self → ℕ };

    /// Lets the effect happen. It is never undone.
    fn happen(&mut self)
        ensures { done self.old ≤ done self.new };
}

/// Code that all threads share.
#[derive(Drop)]
pub struct Code {
    pub words: Vec<u64>,
}

/// The store.
#[derive(Drop)]
pub struct Shelf<F> {
    pub code: Arc<Code>,
    pub names: BTreeMap<u32, String>,
    pub places: HashMap<u64, u64>,
    pub rows: Vec<Vec<u64>>,
    pub effects: Vec<F>,
    pub count: u64,
}

impl<F: Effect> Replays for Shelf<F> {
    type Entry = Record;

    ghost use Rattle.cell_trial.specs.Shelf.{Stands};
    ghost use Rattle.cell_trial.specs.declared.shelf.Record.{Record};

    ghost stands = { Stands };

    ghost number = { λ (e : Record). e.number };

    ghost serial = { λ (e : Record). e.serial };
}

impl<F: Effect> Shelf<F> {
    ghost use Rattle.std.specs.Prelude.{◌≡◌, ◌+◌, ◌<◌, ◌^◌};

    /// Lets every effect happen once.
    pub fn turn(&mut self)
        requires { self.old.count + 1 < 2 ^ 64 }
        ensures { self.new.count ≡ self.old.count + 1 }
    {
        for effect in self.effects.iter_mut() {
            effect.happen();
        }
        self.count += 1;
    }
}

/// An effect that is counted alone.
#[derive(Drop)]
pub struct Tape {
    pub turns: u64,
}

impl Effect for Tape {
    ghost done = { λ t. t.turns };

    fn happen(&mut self) {
        self.turns = self.turns.saturating_add(1);
    }
}

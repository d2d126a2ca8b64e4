//! A number that entries add to.
ghost use Rattle.std.specs.Prelude.{◌≡◌, ◌+◌, ◌<◌, ◌≤◌, ◌^◌, ◌↔◌, ◌++◌, ◌∷◌, [], OnOk, OnErr, IsTrue};

use commit_cell::Replays;
use std::alloc::{AllocError, Global};

/// One addition: who made it, how many that one had made before, and how much it adds.
#[derive(Clone, Copy, Debug)]
pub struct Entry {
    pub number: u32,
    pub serial: u64,
    pub amount: u64,
}

/// The sum of all entries, and the entries in order.
#[derive(Drop)]
pub struct Counter {
    pub total: u64,
    pub entries: Vec<Entry>,
}

impl Replays for Counter {
    type Entry = Entry;

    ghost use Rattle.cell_trial.specs.Counter.{Stands};
    ghost use Rattle.cell_trial.specs.declared.counter.Entry.{Entry};

    ghost stands = { Stands };

    ghost number = { λ (e : Entry). e.number };

    ghost serial = { λ (e : Entry). e.serial };
}

impl Counter {
    /// No entry yet.
    pub fn new(alloc: Global) -> Counter
        ensures { (result.total ≡ 0) × (result.entries.items ≡ []) }
    {
        Counter {
            total: 0,
            entries: Vec::new(alloc),
        }
    }

    /// Whether the total still fits once this is added.
    pub fn has_room(&self, amount: u64) -> bool
        ensures { IsTrue result ↔ (self.now.total + amount < 2 ^ 64) }
    {
        amount <= u64::MAX - self.total
    }

    /// Adds an entry. An `Err` changes nothing.
    pub fn add(&mut self, entry: Entry) -> Result<(), AllocError>
        requires { self.old.total + entry.amount < 2 ^ 64 }
        ensures total { OnOk result (self.new.total ≡ self.old.total + entry.amount) }
        ensures entries { OnOk result (self.new.entries.items ≡ self.old.entries.items ++ entry ∷ []) }
        ensures err { OnErr result ((self.new.total ≡ self.old.total)
            × (self.new.entries.items ≡ self.old.entries.items)) }
    {
        self.entries.push(entry)?;
        self.total += entry.amount;
        Ok(())
    }
}

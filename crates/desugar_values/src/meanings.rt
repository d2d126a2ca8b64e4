//! Lists of meanings, taken from the front.
ghost use Rattle.std.specs.Prelude.{◌≡◌, None, OnErr, OnOk};
ghost use Rattle.desugar_values.specs.Meanings.{and_one, no_meaning};
ghost use Rattle.desugar_values.specs.Parts.{behind, first};
ghost use Rattle.desugar_values.specs.View.{meaning_tree, meanings_tree};

use crate::meaning::{Meaning, Meanings};
use std::alloc::{AllocError, Global};
use std::collections::VecDeque;

impl Meanings {
    /// An empty list. It allocates nothing.
    pub fn new(alloc: Global) -> Meanings
        ensures { meanings_tree result ≡ no_meaning }
    {
        Meanings {
            items: VecDeque::new(alloc),
        }
    }

    /// Adds one at the end. An `Err` changes nothing.
    pub fn push(&mut self, meaning: Meaning) -> Result<(), AllocError>
        ensures ok { OnOk result (meanings_tree self.new ≡ and_one (meanings_tree self.old) (meaning_tree meaning)) }
        ensures err { OnErr result (meanings_tree self.new ≡ meanings_tree self.old) }
    {
        self.items.push_back(meaning)?;
        Ok(())
    }

    /// The first one, which is taken off.
    pub fn take(&mut self) -> Meaning
        ensures first { meaning_tree result ≡ first (meanings_tree self.old) }
        ensures behind { meanings_tree self.new ≡ behind (meanings_tree self.old) }
    {
        match self.items.pop_front() {
            Some(meaning) => meaning,
            None => Meaning::Absent,
        }
    }
}

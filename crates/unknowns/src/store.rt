//! What was found for the unknowns of a call.

ghost use Rattle.std.specs.Prelude.{◌≡◌, ◌<◌, ◌^◌};
ghost use Rattle.unknowns.specs.Slots.{slots_tree};
ghost use Rattle.unknowns.specs.Unknowns.{count_of};

use crate::answers::{answer_in, is_open_in, kind_in, with_unknown};
use crate::slots::Slots;
use con_terms::{Con, Kind};
use std::alloc::{AllocError, Global};
use std::mem::replace;

/// How many unknowns there may be.
const UNKNOWNS: u32 = 1 << 30;

/// What was found for each unknown. Contracts see it as the list `found_tree`.
#[derive(Drop)]
pub struct Found {
    pub(crate) count: u32,
    pub(crate) slots: Slots,
    ghost counted: { count_of (slots_tree slots) ≡ count },
    ghost few: { count < 2 ^ 30 },
}

impl Found {
    ghost use Rattle.std.specs.Prelude.{OnErr, OnOk, None, option_map};
    ghost use Rattle.con_terms.specs.View.{con_tree, kind_tree};
    ghost use Rattle.unknowns.specs.Unknowns.{answer_of, is_open as is_open_slot, kind_of, nothing, slot};
    ghost use Rattle.unknowns.specs.View.{found_tree};

    /// No unknowns.
    pub fn new() -> Found
        ensures { found_tree result ≡ nothing }
    {
        Found {
            count: 0,
            slots: Slots::Nothing,
        }
    }

    /// Adds an unknown, as the innermost binder of later patterns. More than 2^30 - 1 of them count as want of memory.
    pub fn bind(&mut self, alloc: Global, kind: Kind) -> Result<(), AllocError>
        ensures bound { OnOk result (found_tree self.new ≡ slot (kind_tree kind) None (found_tree self.old)) }
        ensures kept { OnErr result (found_tree self.new ≡ found_tree self.old) }
    {
        if self.count + 1 >= UNKNOWNS {
            return Err(AllocError);
        }
        let place = Box::new(alloc, Slots::Nothing)?;
        let before = replace(self, Found::new());
        *self = with_unknown(before, kind, place);
        Ok(())
    }

    /// How many unknowns there are.
    pub fn count(&self) -> u32
        ensures count { result ≡ count_of (found_tree self.now) }
        ensures few { result < 2 ^ 30 }
    {
        self.count
    }

    /// What was found for the unknown that is `Var(i)` now, seen from outside of the unknowns.
    pub fn answer(&self, i: u32) -> Option<&Con>
        ensures { option_map (λ c. con_tree c.now) result ≡ answer_of (found_tree self.now) i }
    {
        answer_in(&self.slots, i)
    }

    /// The kind of the unknown that is `Var(i)` now.
    pub fn kind(&self, i: u32) -> Option<&Kind>
        ensures { option_map (λ k. kind_tree k.now) result ≡ kind_of (found_tree self.now) i }
    {
        kind_in(&self.slots, i)
    }

    /// Whether `Var(i)` is an unknown for which nothing was found yet.
    pub fn is_open(&self, i: u32) -> bool
        ensures { result ≡ is_open_slot (found_tree self.now) i }
    {
        is_open_in(&self.slots, i)
    }
}

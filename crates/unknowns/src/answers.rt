//! What was found for each unknown, looked at and kept.

ghost use Rattle.std.specs.Prelude.{◌≡◌, ◌<◌, ◌+◌, ◌^◌, IfOk, None, OnOk, option_map};
ghost use Rattle.con_terms.specs.View.{con_tree, kind_tree};
ghost use Rattle.unknowns.specs.Slots.{held_tree, slots_tree};
ghost use Rattle.unknowns.specs.Unknowns.{Keeps, answer_of, is_open as is_open_slot, kind_of, put as put_answer, slot};
ghost use Rattle.unknowns.specs.View.{found_tree};

use crate::held::Held;
use crate::slots::{Slots, Unknown};
use crate::store::Found;
use con_terms::{Con, Kind, copy_con, copy_kind, has_room};
use std::alloc::{AllocError, Global};
use std::mem::replace;

/// One unknown more, which takes this place on the heap.
pub(crate) fn with_unknown(found: Found, kind: Kind, place: Box<Slots>) -> Found
    requires { found.count + 1 < 2 ^ 30 }
    ensures { found_tree result ≡ slot (kind_tree kind) None (found_tree found) }
{
    let Found { count, slots } = found;
    let unknown = Unknown { kind, answer: None };
    Found {
        count: count + 1,
        slots: Slots::Slot(unknown, put_box(place, slots)),
    }
}

/// The slots in this place.
fn put_box(place: Box<Slots>, slots: Slots) -> Box<Slots>
    ensures { slots_tree result.value ≡ slots_tree slots }
{
    let mut place = place;
    *place = slots;
    place
}

/// What was found for an unknown.
pub(crate) fn answer_in(slots: &Slots, i: u32) -> Option<&Con>
    ensures { option_map (λ c. con_tree c.now) result ≡ answer_of (slots_tree slots.now) i }
{
    match slots {
        Slots::Nothing => None,
        Slots::Slot(unknown, rest) => {
            if i > 0 {
                return answer_in(rest, i - 1);
            }
            match &unknown.answer {
                None => None,
                Some(held) => Some(&held.con),
            }
        }
    }
}

/// The kind of an unknown.
pub(crate) fn kind_in(slots: &Slots, i: u32) -> Option<&Kind>
    ensures { option_map (λ k. kind_tree k.now) result ≡ kind_of (slots_tree slots.now) i }
{
    match slots {
        Slots::Nothing => None,
        Slots::Slot(unknown, rest) => {
            if i > 0 {
                return kind_in(rest, i - 1);
            }
            Some(&unknown.kind)
        }
    }
}

/// Whether a number is that of an unknown for which nothing was found.
pub(crate) fn is_open_in(slots: &Slots, i: u32) -> bool
    ensures { result ≡ is_open_slot (slots_tree slots.now) i }
{
    match slots {
        Slots::Nothing => false,
        Slots::Slot(unknown, rest) => {
            if i > 0 {
                return is_open_in(rest, i - 1);
            }
            unknown.answer.is_none()
        }
    }
}

/// A copy that has room for a shift. A constructor without room counts as want of memory.
pub(crate) fn copy_held(alloc: Global, c: &Con) -> Result<Held, AllocError>
    ensures { IfOk result (λ h. con_tree h.con ≡ con_tree c.now) }
{
    if !has_room(c) {
        return Err(AllocError);
    }
    let con = copy_con(alloc, c)?;
    if !has_room(&con) {
        return Err(AllocError);
    }
    Ok(Held { con })
}

/// Keeps what was found for an unknown.
fn put_in(slots: Slots, i: u32, held: Held) -> Slots
    ensures { slots_tree result ≡ put_answer (slots_tree slots) i (con_tree held.con) }
{
    match slots {
        Slots::Nothing => Slots::Nothing,
        Slots::Slot(unknown, rest) => {
            if i == 0 {
                let Unknown { kind, answer: _ } = unknown;
                let unknown = Unknown {
                    kind,
                    answer: Some(held),
                };
                return Slots::Slot(unknown, rest);
            }
            let mut place = rest;
            let inner = Box::replace(&mut place, Slots::Nothing);
            let inner = put_in(inner, i - 1, held);
            Slots::Slot(unknown, put_box(place, inner))
        }
    }
}

/// Keeps what was found for an unknown.
pub(crate) fn put(found: Found, i: u32, held: Held) -> Found
    ensures { found_tree result ≡ put_answer (found_tree found) i (con_tree held.con) }
{
    let Found { count, slots } = found;
    Found {
        count,
        slots: put_in(slots, i, held),
    }
}

/// A copy of an answer.
fn copy_answer(alloc: Global, answer: &Option<Held>) -> Result<Option<Held>, AllocError>
    ensures { IfOk result (λ o. held_tree o ≡ held_tree answer.now) }
{
    match answer {
        None => Ok(None),
        Some(h) => Ok(Some(copy_held(alloc, &h.con)?)),
    }
}

/// A copy of the slots.
fn copy_slots(alloc: Global, slots: &Slots) -> Result<Slots, AllocError>
    ensures { IfOk result (λ s. slots_tree s ≡ slots_tree slots.now) }
{
    match slots {
        Slots::Nothing => Ok(Slots::Nothing),
        Slots::Slot(unknown, rest) => {
            let kind = copy_kind(alloc, &unknown.kind)?;
            let answer = copy_answer(alloc, &unknown.answer)?;
            let rest = Box::new(alloc, copy_slots(alloc, rest)?)?;
            Ok(Slots::Slot(Unknown { kind, answer }, rest))
        }
    }
}

/// A copy of what was found.
pub(crate) fn copy_found(alloc: Global, found: &Found) -> Result<Found, AllocError>
    ensures { IfOk result (λ f. found_tree f ≡ found_tree found.now) }
{
    let slots = copy_slots(alloc, &found.slots)?;
    Ok(Found {
        count: found.count,
        slots,
    })
}

/// Keeps what is matched for an open unknown.
#[tactic(auto, using(crate::proofs::Kept::keeps_put))]
pub(crate) fn take(alloc: Global, i: u32, actual: &Con, found: &mut Found) -> Result<(), AllocError>
    ensures { OnOk result (Keeps (found_tree found.old) (found_tree found.new)) }
{
    if !found.is_open(i) {
        return Err(AllocError);
    }
    let held = copy_held(alloc, actual)?;
    let before = replace(found, Found::new());
    *found = put(before, i, held);
    Ok(())
}

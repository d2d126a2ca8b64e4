//! Matching a pattern with a constructor.

ghost use Rattle.std.specs.Prelude.{◌≡◌, OnErr, OnOk};
ghost use Rattle.con_terms.specs.View.{con_tree};
ghost use Rattle.unknowns.specs.Unknowns.{Fits, Keeps};
ghost use Rattle.unknowns.specs.View.{found_tree};

use crate::answers::{copy_found, take};
use crate::fault::FitFault;
use crate::fill::{filled, told};
use crate::heads::{alike, apart, head_of, pieces_of};
use crate::known::is_known;
use crate::rows::{Whole, only_field, others, rest, take_named};
use crate::store::Found;
use con_terms::{Con, Cons};
use std::alloc::Global;

/// How deep parts of a pattern that hold an open unknown may stand.
const ROOM: u32 = 2000;

/// Matches a pattern with a constructor of its kind, and keeps what is found for its unknowns.
///
/// Rows are matched as written: what an unknown takes of a row has the order of the row that was matched. A refusal
/// leaves what was found as before.
#[tactic(auto, using(crate::proofs::Kept::keeps_refl, crate::proofs::Kept::keeps_trans))]
pub fn fit(alloc: Global, pattern: &Con, actual: &Con, found: &mut Found) -> Result<(), FitFault>
    ensures fits { OnOk result (Fits (found_tree found.new) (con_tree pattern.now) (con_tree actual.now)) }
    ensures keeps { OnOk result (Keeps (found_tree found.old) (found_tree found.new)) }
    ensures refused { OnErr result (found_tree found.new ≡ found_tree found.old) }
{
    if is_known(found, pattern)? {
        return alike(alloc, pattern, actual, found);
    }
    let before = copy_found(alloc, found)?;
    match fitted(alloc, pattern, actual, found) {
        Ok(()) => Ok(()),
        Err(fault) => {
            *found = before;
            Err(fault)
        }
    }
}

/// Matches, and tests that the sides are equal then.
#[tactic(auto, using(crate::proofs::Kept::keeps_refl, crate::proofs::Kept::keeps_trans))]
fn fitted(alloc: Global, pattern: &Con, actual: &Con, found: &mut Found) -> Result<(), FitFault>
    ensures fits { OnOk result (Fits (found_tree found.new) (con_tree pattern.now) (con_tree actual.now)) }
    ensures keeps { OnOk result (Keeps (found_tree found.old) (found_tree found.new)) }
{
    part(alloc, pattern, actual, found, ROOM)?;
    alike(alloc, pattern, actual, found)
}

/// Matches a part of a pattern.
#[cycle(part)]
#[tactic(auto, using(crate::proofs::Kept::keeps_refl, crate::proofs::Kept::keeps_trans))]
fn part(
    alloc: Global,
    pattern: &Con,
    actual: &Con,
    found: &mut Found,
    room: u32,
) -> Result<(), FitFault>
    ensures { OnOk result (Keeps (found_tree found.old) (found_tree found.new)) }
{
    if room == 0 {
        return Err(FitFault::Memory);
    }
    if is_known(found, pattern)? {
        return alike(alloc, pattern, actual, found);
    }
    let whole = filled(alloc, found, pattern)?;
    let head = head_of(alloc, &whole)?;
    if is_known(found, &head)? {
        return alike(alloc, &head, actual, found);
    }
    open_part(alloc, &head, actual, found, room - 1)
}

/// Matches a part that holds an open unknown, of which the root stays as it is.
#[cycle(part)]
#[inline(never)]
#[tactic(auto, using(crate::proofs::Kept::keeps_refl, crate::proofs::Kept::keeps_trans))]
fn open_part(
    alloc: Global,
    pattern: &Con,
    actual: &Con,
    found: &mut Found,
    room: u32,
) -> Result<(), FitFault>
    ensures { OnOk result (Keeps (found_tree found.old) (found_tree found.new)) }
{
    match pattern {
        Con::Var(i) => Ok(take(alloc, *i, actual, found)?),
        Con::Arrow(_, _) | Con::Record(_) => of_head(alloc, pattern, actual, found, room),
        Con::App(_, _) => {
            if !is_of_basic(pattern) {
                return Err(FitFault::Open);
            }
            of_head(alloc, pattern, actual, found, room)
        }
        Con::Row(_, _) | Con::Cat(_, _) => row(alloc, pattern, actual, found, room),
        _ => Err(FitFault::Open),
    }
}

/// Whether a constructor is a basic name, or one that is applied.
fn is_of_basic(c: &Con) -> bool {
    match c {
        Con::Basic(_) => true,
        Con::App(f, _) => is_of_basic(f),
        _ => false,
    }
}

/// Matches an arrow, a record or an application by its parts, from left to right.
#[cycle(part)]
#[inline(never)]
#[tactic(auto, using(crate::proofs::Kept::keeps_refl, crate::proofs::Kept::keeps_trans))]
fn of_head(
    alloc: Global,
    pattern: &Con,
    actual: &Con,
    found: &mut Found,
    room: u32,
) -> Result<(), FitFault>
    ensures { OnOk result (Keeps (found_tree found.old) (found_tree found.new)) }
{
    let actual = head_of(alloc, actual)?;
    match pattern {
        Con::Arrow(p, q) => match &actual {
            Con::Arrow(a, b) => two_parts(alloc, p, q, a, b, found, room),
            _ => Err(apart(alloc, pattern, &actual, found)),
        },
        Con::App(p, q) => match &actual {
            Con::App(a, b) => two_parts(alloc, p, q, a, b, found, room),
            _ => Err(apart(alloc, pattern, &actual, found)),
        },
        Con::Record(p) => match &actual {
            Con::Record(a) => part(alloc, p, a, found, room),
            _ => Err(apart(alloc, pattern, &actual, found)),
        },
        _ => Err(FitFault::Open),
    }
}

/// Matches two parts, the left one first.
#[cycle(part)]
#[tactic(auto, using(crate::proofs::Kept::keeps_refl, crate::proofs::Kept::keeps_trans))]
fn two_parts(
    alloc: Global,
    p: &Con,
    q: &Con,
    a: &Con,
    b: &Con,
    found: &mut Found,
    room: u32,
) -> Result<(), FitFault>
    ensures { OnOk result (Keeps (found_tree found.old) (found_tree found.new)) }
{
    part(alloc, p, a, found, room)?;
    part(alloc, q, b, found, room)
}

/// Matches a row: its literals first, then its other pieces, of which at most one is an open unknown. That one takes
/// what is left, in the order of the row that is matched.
#[cycle(part)]
#[inline(never)]
#[tactic(auto, using(crate::proofs::Kept::keeps_refl, crate::proofs::Kept::keeps_trans))]
fn row(
    alloc: Global,
    pattern: &Con,
    actual: &Con,
    found: &mut Found,
    room: u32,
) -> Result<(), FitFault>
    ensures { OnOk result (Keeps (found_tree found.old) (found_tree found.new)) }
{
    let wanted = pieces_of(alloc, pattern)?;
    let mut left = pieces_of(alloc, actual)?;
    let whole = Whole { pattern, actual };
    literals(alloc, &wanted, &mut left, &whole, found, room)?;
    let open = others(alloc, &wanted, &mut left, &whole, found)?;
    Ok(rest(alloc, open, left, &whole, found)?)
}

/// Matches each field of the pattern with the field of its name.
#[cycle(part)]
#[tactic(auto, using(crate::proofs::Kept::keeps_refl, crate::proofs::Kept::keeps_trans))]
fn literals(
    alloc: Global,
    wanted: &Cons,
    left: &mut Cons,
    whole: &Whole,
    found: &mut Found,
    room: u32,
) -> Result<(), FitFault>
    ensures { OnOk result (Keeps (found_tree found.old) (found_tree found.new)) }
{
    for i in 0..wanted.items.len() {
        literal(alloc, &wanted.items[i], left, whole, found, room)?;
    }
    Ok(())
}

/// Matches a piece of the pattern, if it is a field, with the field of its name.
#[cycle(part)]
#[tactic(auto, using(crate::proofs::Kept::keeps_refl, crate::proofs::Kept::keeps_trans))]
fn literal(
    alloc: Global,
    piece: &Con,
    left: &mut Cons,
    whole: &Whole,
    found: &mut Found,
    room: u32,
) -> Result<(), FitFault>
    ensures { OnOk result (Keeps (found_tree found.old) (found_tree found.new)) }
{
    match only_field(piece) {
        None => Ok(()),
        Some(field) => match told(alloc, found, &field.name)? {
            None => Err(FitFault::Open),
            Some(name) => match take_named(alloc, left, &name)? {
                None => Err(whole.apart(alloc, found)),
                Some(value) => part(alloc, &field.value, &value, found, room),
            },
        },
    }
}

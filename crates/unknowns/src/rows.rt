//! Matching rows, piece by piece.

ghost use Rattle.std.specs.Prelude.{OnOk};
ghost use Rattle.unknowns.specs.Unknowns.{Keeps};
ghost use Rattle.unknowns.specs.View.{found_tree};

use crate::answers::take;
use crate::fault::FitFault;
use crate::fill::{filled, told};
use crate::heads::{apart, equal, pieces_of, same_name};
use crate::known::is_known;
use crate::store::Found;
use con_terms::{Con, Cons, Kind, Pair, Pairs, copy_con, copy_kind};
use row_normal::row_of_pieces_in_order;
use std::alloc::{AllocError, Global};

/// Both rows, of which a refusal tells.
#[derive(Drop)]
pub(crate) struct Whole<'a> {
    pub(crate) pattern: &'a Con,
    pub(crate) actual: &'a Con,
}

impl<'a> Whole<'a> {
    /// The refusal of rows that differ.
    pub(crate) fn apart(&self, alloc: Global, found: &Found) -> FitFault {
        match filled(alloc, found, self.pattern) {
            Ok(pattern) => apart(alloc, &pattern, self.actual, found),
            Err(_) => FitFault::Memory,
        }
    }
}

/// The field of a literal that has one.
pub(crate) fn only_field(piece: &Con) -> Option<&Pair> {
    match piece {
        Con::Row(_, fields) => fields.items.first(),
        _ => None,
    }
}

/// The place of the field of a name among pieces.
fn place_named(alloc: Global, pieces: &Cons, name: &Con) -> Result<Option<usize>, FitFault> {
    for i in 0..pieces.items.len() {
        if has_name(alloc, &pieces.items[i], name)? {
            return Ok(Some(i));
        }
    }
    Ok(None)
}

/// Takes the piece at this place out of what is left.
fn taken(left: &mut Cons, place: usize) -> Option<Con> {
    if place < left.items.len() {
        Some(left.items.remove(place))
    } else {
        None
    }
}

/// Takes the field of a name out of what is left, and gives its value.
pub(crate) fn take_named(
    alloc: Global,
    left: &mut Cons,
    name: &Con,
) -> Result<Option<Con>, FitFault> {
    match place_named(alloc, left, name)? {
        None => Ok(None),
        Some(place) => match taken(left, place) {
            None => Ok(None),
            Some(piece) => Ok(value_of(piece)),
        },
    }
}

/// Whether a piece is a field of this name.
fn has_name(alloc: Global, piece: &Con, name: &Con) -> Result<bool, FitFault> {
    match only_field(piece) {
        None => Ok(false),
        Some(field) => same_name(alloc, &field.name, name),
    }
}

/// The value of a piece that is a field.
fn value_of(piece: Con) -> Option<Con> {
    match piece {
        Con::Row(_, fields) => {
            let mut items = fields.items;
            match items.pop() {
                None => None,
                Some(field) => {
                    let Pair { name: _, value } = field;
                    Some(value)
                }
            }
        }
        _ => None,
    }
}

/// Takes the pieces of the pattern that aren't fields out of what is left, and tells the open unknown among them.
pub(crate) fn others(
    alloc: Global,
    wanted: &Cons,
    left: &mut Cons,
    whole: &Whole,
    found: &Found,
) -> Result<Option<u32>, FitFault> {
    let mut open = None;
    for i in 0..wanted.items.len() {
        if only_field(&wanted.items[i]).is_none() {
            match other(alloc, &wanted.items[i], left, whole, found)? {
                None => {}
                Some(unknown) => {
                    if open.is_some() {
                        return Err(FitFault::Open);
                    }
                    open = Some(unknown);
                }
            }
        }
    }
    Ok(open)
}

/// Takes a piece that isn't a field out of what is left, or tells which open unknown it is.
fn other(
    alloc: Global,
    piece: &Con,
    left: &mut Cons,
    whole: &Whole,
    found: &Found,
) -> Result<Option<u32>, FitFault> {
    if !is_known(found, piece)? {
        return match piece {
            Con::Var(i) => Ok(Some(*i)),
            _ => Err(FitFault::Open),
        };
    }
    match told(alloc, found, piece)? {
        None => Err(FitFault::Open),
        Some(row) => {
            let pieces = pieces_of(alloc, &row)?;
            take_all(alloc, pieces, left, whole, found)?;
            Ok(None)
        }
    }
}

/// Takes each piece out of what is left.
fn take_all(
    alloc: Global,
    pieces: Cons,
    left: &mut Cons,
    whole: &Whole,
    found: &Found,
) -> Result<(), FitFault> {
    for i in 0..pieces.items.len() {
        if !take_equal(alloc, left, &pieces.items[i])? {
            return Err(whole.apart(alloc, found));
        }
    }
    Ok(())
}

/// The place of a piece that equals this one.
fn place_equal(alloc: Global, pieces: &Cons, piece: &Con) -> Result<Option<usize>, FitFault> {
    for i in 0..pieces.items.len() {
        if equal(alloc, &pieces.items[i], piece)? {
            return Ok(Some(i));
        }
    }
    Ok(None)
}

/// Takes a piece that equals this one out of what is left.
fn take_equal(alloc: Global, left: &mut Cons, piece: &Con) -> Result<bool, FitFault> {
    match place_equal(alloc, left, piece)? {
        None => Ok(false),
        Some(place) => Ok(taken(left, place).is_some()),
    }
}

/// Gives what is left to the open unknown. Without one, nothing may be left.
#[tactic(auto, using(crate::proofs::Kept::keeps_refl, crate::proofs::Kept::keeps_trans))]
pub(crate) fn rest(
    alloc: Global,
    open: Option<u32>,
    left: Cons,
    whole: &Whole,
    found: &mut Found,
) -> Result<(), FitFault>
    ensures { OnOk result (Keeps (found_tree found.old) (found_tree found.new)) }
{
    match open {
        None => {
            if left.items.len() > 0 {
                return Err(whole.apart(alloc, found));
            }
            Ok(())
        }
        Some(i) => {
            let kind = value_kind(alloc, found.kind(i))?;
            let row = row_of_pieces_in_order(alloc, kind, left)?;
            Ok(take(alloc, i, &row, found)?)
        }
    }
}

/// The kind of the values of a row of this kind.
fn value_kind(alloc: Global, kind: Option<&Kind>) -> Result<Kind, AllocError> {
    match kind {
        Some(Kind::Row(k)) => copy_kind(alloc, k),
        _ => Ok(Kind::Types),
    }
}

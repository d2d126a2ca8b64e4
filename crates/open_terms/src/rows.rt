//! Records and their fields: projections, fields that are left out, records that are joined.
use crate::env::Env;
use crate::faults::{any_record, boxed_mismatch, boxed_not_of, record_of_pairs, too_large};
use crate::memory::on_heap;
use crate::types::{boxed_normal, boxed_reduced, reduced};
use crate::want::boxed_copy;
use con_terms::{Con, Cons, Kind, Pair, Pairs, Place, copy_con};
use kind_rules::Comparison;
use kind_rules::compare::compare;
use name_scopes::ElabFault;
use row_normal::pieces::pieces;
use row_normal::{row_of_pieces, same_con};
use std::alloc::{AllocError, Global};
use type_makers::record;

/// The row of a record type; none where the type is no record's.
fn row_in(t: Box<Con>) -> Option<Box<Con>> {
    match Box::into_inner(t) {
        Con::Record(row) => Some(row),
        _ => None,
    }
}

/// The row of a record type, with its parts reduced; none where the type is no record's.
fn row_of_record(alloc: Global, t: &Con) -> Result<Option<Box<Con>>, AllocError> {
    match boxed_reduced(alloc, t)? {
        Some(t) => Ok(row_in(t)),
        None => Ok(None),
    }
}

/// The pieces of a record type's row, as written; none where the type is no record's.
pub fn record_pieces(alloc: Global, t: &Con) -> Result<Option<Cons>, AllocError> {
    match row_of_record(alloc, t)? {
        None => Ok(None),
        Some(row) => Ok(Some(pieces(alloc, Box::into_inner(row))?)),
    }
}

/// The value of a piece that is a field of this name.
fn value_of<'a>(piece: &'a Con, name: &Con) -> Option<&'a Con> {
    match piece {
        Con::Row(_, pairs) => match pairs.items.first() {
            Some(pair) => {
                if same_con(&pair.name, name) {
                    Some(&pair.value)
                } else {
                    None
                }
            }
            None => None,
        },
        _ => None,
    }
}

/// Where the field of a name stands among pieces.
pub fn field_index(pieces: &Cons, name: &Con) -> Option<usize> {
    for i in 0..pieces.items.len() {
        match value_of(&pieces.items[i], name) {
            Some(_) => return Some(i),
            None => {}
        }
    }
    None
}

/// The value of the field that stands there.
pub fn value_at(alloc: Global, pieces: &Cons, i: usize) -> Result<Option<Con>, AllocError> {
    match pieces.items.get(i) {
        Some(Con::Row(_, pairs)) => match pairs.items.first() {
            Some(pair) => Ok(Some(copy_con(alloc, &pair.value)?)),
            None => Ok(None),
        },
        _ => Ok(None),
    }
}

/// The type of the field of a name; none where it isn't there.
pub fn field_type(alloc: Global, pieces: &Cons, name: &Con) -> Result<Option<Con>, AllocError> {
    match field_index(pieces, name) {
        None => Ok(None),
        Some(i) => value_at(alloc, pieces, i),
    }
}

/// A name, reduced.
pub fn reduced_name(alloc: Global, name: &Con) -> Result<Con, AllocError> {
    match reduced(alloc, name)? {
        None => copy_con(alloc, name),
        Some(name) => Ok(name),
    }
}

/// A name, reduced, on the heap.
fn boxed_name(alloc: Global, name: &Con) -> Result<Box<Con>, AllocError> {
    on_heap(alloc, reduced_name(alloc, name)?)
}

/// One field, of which the type isn't told.
fn pairs_of_name(alloc: Global, name: Box<Con>) -> Result<Pairs, AllocError> {
    let mut pairs = Pairs::new(alloc);
    pairs.push(Pair {
        name: Box::into_inner(name),
        value: Con::UnitCon,
    })?;
    Ok(pairs)
}

/// A record type of one field, of which the type isn't told.
fn like_field(alloc: Global, name: Box<Con>) -> Result<Box<Con>, AllocError> {
    let pairs = pairs_of_name(alloc, name)?;
    on_heap(alloc, record_of_pairs(alloc, pairs)?)
}

/// What is told where a record has no field of this name.
#[inline(never)]
fn no_field(
    alloc: Global,
    env: &Env,
    at: Place,
    t: &Con,
    name: &Con,
) -> Result<ElabFault, AllocError> {
    match boxed_normal(alloc, name)? {
        None => Ok(too_large(at)),
        Some(name) => {
            let wanted = like_field(alloc, name)?;
            boxed_not_of(alloc, env, at, wanted, t)
        }
    }
}

/// What is told where the type of a term that is to be a record is no record's.
fn no_record(alloc: Global, env: &Env, part: Place, t: &Con) -> Result<ElabFault, AllocError> {
    let wanted = on_heap(alloc, any_record(alloc)?)?;
    boxed_not_of(alloc, env, part, wanted, t)
}

/// The pieces of the type of a term that is to be a record, which stands at `part`.
fn pieces_or(alloc: Global, env: &Env, part: Place, t: &Con) -> Result<Cons, ElabFault> {
    match record_pieces(alloc, t)? {
        Some(pieces) => Ok(pieces),
        None => Err(no_record(alloc, env, part, t)?),
    }
}

/// The type of the field of a name among the pieces of the type of a record.
fn type_or(
    alloc: Global,
    env: &Env,
    at: Place,
    t: &Con,
    pieces: &Cons,
    name: &Con,
) -> Result<Con, ElabFault> {
    match field_type(alloc, pieces, name)? {
        Some(con) => Ok(con),
        None => Err(no_field(alloc, env, at, t, name)?),
    }
}

/// Where the field of a name stands among the pieces of the type of a record.
fn index_or(
    alloc: Global,
    env: &Env,
    at: Place,
    t: &Con,
    pieces: &Cons,
    name: &Con,
) -> Result<usize, ElabFault> {
    let name = boxed_name(alloc, name)?;
    match field_index(pieces, &name) {
        Some(i) => Ok(i),
        None => Err(no_field(alloc, env, at, t, &name)?),
    }
}

/// The type of `e.c`, where this is the type of `e`.
#[inline(never)]
pub fn projected(
    alloc: Global,
    env: &Env,
    at: Place,
    part: Place,
    t: &Con,
    name: &Con,
) -> Result<Con, ElabFault> {
    let pieces = pieces_or(alloc, env, part, t)?;
    let name = boxed_name(alloc, name)?;
    type_or(alloc, env, at, t, &pieces, &name)
}

/// Lets a piece go.
fn let_go(_piece: Con) {}

/// The pieces but for the one at this place, as they stand.
fn without_at(pieces: Cons, i: usize) -> Cons {
    let mut left = pieces;
    if i < left.items.len() {
        let_go(left.items.remove(i));
    }
    left
}

/// The record type of pieces.
fn record_of_pieces(alloc: Global, pieces: Cons) -> Result<Con, AllocError> {
    let row = row_of_pieces(alloc, Kind::Types, pieces)?;
    record(alloc, row)
}

/// The type of `e -- c`, where this is the type of `e`.
#[inline(never)]
pub fn left_out(
    alloc: Global,
    env: &Env,
    at: Place,
    part: Place,
    t: &Con,
    name: &Con,
) -> Result<Con, ElabFault> {
    let pieces = pieces_or(alloc, env, part, t)?;
    let i = index_or(alloc, env, at, t, &pieces, name)?;
    Ok(record_of_pieces(alloc, without_at(pieces, i))?)
}

/// Whether two pieces are one: fields of one name, whatever their values, or rows that are equal.
fn same_piece(alloc: Global, a: &Con, b: &Con) -> Result<bool, AllocError> {
    match b {
        Con::Row(_, pairs) => match pairs.items.first() {
            Some(pair) => return Ok(value_of(a, &pair.name).is_some()),
            None => {}
        },
        _ => {}
    }
    let kind = Kind::Row(on_heap(alloc, Kind::Types)?);
    match compare(alloc, a, b, &kind)? {
        Comparison::Alike => Ok(true),
        _ => Ok(false),
    }
}

/// Where a piece stands among others.
fn piece_index(alloc: Global, pieces: &Cons, piece: &Con) -> Result<Option<usize>, AllocError> {
    for i in 0..pieces.items.len() {
        if same_piece(alloc, &pieces.items[i], piece)? {
            return Ok(Some(i));
        }
    }
    Ok(None)
}

/// What is told where a record hasn't all fields of a row.
#[inline(never)]
fn no_row(
    alloc: Global,
    env: &Env,
    at: Place,
    t: &Con,
    row: &Con,
) -> Result<ElabFault, AllocError> {
    match boxed_normal(alloc, row)? {
        None => Ok(too_large(at)),
        Some(row) => {
            let wanted = on_heap(alloc, Con::Record(row))?;
            boxed_not_of(alloc, env, at, wanted, t)
        }
    }
}

/// The row that is left out, in its pieces.
fn pieces_out(alloc: Global, at: Place, row: &Con) -> Result<Cons, ElabFault> {
    match boxed_reduced(alloc, row)? {
        Some(out) => Ok(pieces(alloc, Box::into_inner(out))?),
        None => Err(too_large(at)),
    }
}

/// The pieces without one; none where that isn't there.
fn without(alloc: Global, pieces: Cons, piece: &Con) -> Result<Option<Cons>, AllocError> {
    match piece_index(alloc, &pieces, piece)? {
        None => Ok(None),
        Some(i) => Ok(Some(without_at(pieces, i))),
    }
}

/// The pieces without others; none where one of these isn't there.
fn without_all(alloc: Global, pieces: Cons, out: &Cons) -> Result<Option<Cons>, AllocError> {
    let mut left = pieces;
    for i in 0..out.items.len() {
        match without(alloc, left, &out.items[i])? {
            None => return Ok(None),
            Some(rest) => left = rest,
        }
    }
    Ok(Some(left))
}

/// The type of `e --- c`, where this is the type of `e`.
#[inline(never)]
pub fn row_left_out(
    alloc: Global,
    env: &Env,
    at: Place,
    part: Place,
    t: &Con,
    row: &Con,
) -> Result<Con, ElabFault> {
    let all = pieces_or(alloc, env, part, t)?;
    let out = pieces_out(alloc, at, row)?;
    match without_all(alloc, all, &out)? {
        None => Err(no_row(alloc, env, at, t, row)?),
        Some(left) => Ok(record_of_pieces(alloc, left)?),
    }
}

/// The row of a term that is to be a record.
fn row_or(alloc: Global, env: &Env, part: Place, t: &Con) -> Result<Box<Con>, ElabFault> {
    match row_of_record(alloc, t)? {
        Some(row) => Ok(row),
        None => Err(no_record(alloc, env, part, t)?),
    }
}

/// The pieces of two rows, one after the other.
fn joined_pieces(alloc: Global, left: Box<Con>, right: Box<Con>) -> Result<Cons, AllocError> {
    let mut all = pieces(alloc, Box::into_inner(left))?;
    let mut more = pieces(alloc, Box::into_inner(right))?;
    all.items.append(&mut more.items)?;
    Ok(all)
}

/// The type of `e ++ d`, where these are the types of both.
#[inline(never)]
pub fn joined(
    alloc: Global,
    env: &Env,
    left: Place,
    t: &Con,
    right: Place,
    u: &Con,
) -> Result<Con, ElabFault> {
    let r = row_or(alloc, env, left, t)?;
    let s = row_or(alloc, env, right, u)?;
    let all = joined_pieces(alloc, r, s)?;
    Ok(record_of_pieces(alloc, all)?)
}

/// What is told where the fields that are left of a record's type have none of this name.
#[inline(never)]
pub fn missing_field(
    alloc: Global,
    env: &Env,
    at: Place,
    left: Cons,
    name: &Con,
) -> Result<ElabFault, AllocError> {
    let found = on_heap(alloc, record_of_pieces(alloc, left)?)?;
    let wanted = like_field(alloc, boxed_copy(alloc, name)?)?;
    match boxed_normal(alloc, &found)? {
        None => Ok(too_large(at)),
        Some(found) => boxed_mismatch(alloc, env, at, found, wanted),
    }
}

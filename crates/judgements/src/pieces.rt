//! Pieces of rows: all in order, the field of a name, what is left without some.
ghost use Rattle.std.specs.Prelude.{◌≡◌, IfOk};
ghost use Rattle.con_terms.specs.Trees.{row, types};
ghost use Rattle.con_terms.specs.View.{con_tree, kind_tree, pair_tree, pairs_tree};
ghost use Rattle.core_terms.specs.View.{maybe_con};
ghost use Rattle.core_typing.specs.Compared.{field_of, value_of, without_piece as piece_out, without_pieces as pieces_out};
ghost use Rattle.judgements.specs.Pieces.{leave_one as one_left, take_one as one_taken, value_where as value_named};
ghost use Rattle.judgements.specs.View.{cons_view, leaving_tree, maybe_cons, maybe_taken, taking_tree};
ghost use Rattle.row_normal.specs.Ordered.{glued, joined, ordered, ordered_pieces};

use con_terms::{Con, Cons, Kind, Pair, Pairs, copy_con, same_kind};
use row_normal::pieces::pieces;
use row_normal::{row_of_pieces_in_order, same_con};
use std::alloc::{AllocError, Global};

/// The value of a field, and the other pieces in their order.
#[derive(Drop)]
pub struct Taken {
    pub value: Con,
    pub rest: Cons,
}

/// The pieces of a row that is in order.
pub fn pieces_of(alloc: Global, row: &Con) -> Result<Cons, AllocError>
    requires { ordered (con_tree row.now) ≡ con_tree row.now }
    ensures { IfOk result (λ ps. cons_view ps ≡ ordered_pieces (con_tree row.now)) }
{
    pieces(alloc, copy_con(alloc, row)?)
}

/// The value of a field, where its kind is that of types and its name this one.
fn value_where(alloc: Global, name: &Con, k: &Kind, field: &Pair) -> Result<Option<Con>, AllocError>
    ensures { IfOk result
        (λ o. maybe_con o ≡ value_named (con_tree name.now) (kind_tree k.now) (pair_tree field.now)) }
{
    if same_kind(k, &Kind::Types) && same_con(&field.name, name) {
        Ok(Some(copy_con(alloc, &field.value)?))
    } else {
        Ok(None)
    }
}

/// The value of a literal's only field, where it is of this name.
fn value_of_only(
    alloc: Global,
    name: &Con,
    k: &Kind,
    fields: &Pairs,
) -> Result<Option<Con>, AllocError>
    ensures { IfOk result
        (λ o. maybe_con o ≡ value_of (con_tree name.now) (row (kind_tree k.now) (pairs_tree fields.now))) }
{
    if fields.items.len() != 1 {
        return Ok(None);
    }
    value_where(alloc, name, k, &fields.items[0])
}

/// The value of a piece that is a field of this name.
fn value_in(alloc: Global, name: &Con, piece: &Con) -> Result<Option<Con>, AllocError>
    ensures { IfOk result (λ o. maybe_con o ≡ value_of (con_tree name.now) (con_tree piece.now)) }
{
    match piece {
        Con::Row(k, fields) => value_of_only(alloc, name, k, fields),
        _ => Ok(None),
    }
}

/// What is taken so far: the field's value, once it is met, and the other pieces. Contracts see it as `taking_tree`.
#[derive(Drop)]
struct Taking {
    value: Option<Con>,
    past: Vec<Con>,
}

/// Behind one more piece.
fn take_one(alloc: Global, name: &Con, piece: &Con, now: Taking) -> Result<Taking, AllocError>
    ensures { IfOk result
        (λ r. taking_tree r ≡ one_taken (con_tree name.now) (con_tree piece.now) (taking_tree now)) }
{
    let Taking { value, mut past } = now;
    match value {
        Some(found) => {
            past.push(copy_con(alloc, piece)?)?;
            Ok(Taking {
                value: Some(found),
                past,
            })
        }
        None => match value_in(alloc, name, piece)? {
            Some(found) => Ok(Taking {
                value: Some(found),
                past,
            }),
            None => {
                past.push(copy_con(alloc, piece)?)?;
                Ok(Taking { value: None, past })
            }
        },
    }
}

/// The value of the first field of a name among pieces, with the other pieces in their order.
fn field_among(alloc: Global, name: &Con, pieces: &Cons) -> Result<Option<Taken>, AllocError>
    ensures { IfOk result (λ o. maybe_taken o ≡ field_of (con_tree name.now) (cons_view pieces.now)) }
{
    let mut now = Taking {
        value: None,
        past: Vec::with_capacity(alloc, pieces.items.len())?,
    };
    for i in 0..pieces.items.len() {
        now = take_one(alloc, name, &pieces.items[i], now)?;
    }
    let Taking { value, past } = now;
    match value {
        None => Ok(None),
        Some(value) => Ok(Some(Taken {
            value,
            rest: Cons { items: past },
        })),
    }
}

/// The value of the first field of a name among pieces, with the other pieces in their order.
pub fn take_field(alloc: Global, name: &Con, pieces: Cons) -> Result<Option<Taken>, AllocError>
    ensures { IfOk result (λ o. maybe_taken o ≡ field_of (con_tree name.now) (cons_view pieces)) }
{
    field_among(alloc, name, &pieces)
}

/// Whether the piece is met, and the other pieces so far. Contracts see it as `leaving_tree`.
#[derive(Drop)]
struct Leaving {
    is_out: bool,
    past: Vec<Con>,
}

/// Behind one more piece, unless it is the first that is this one.
fn leave_one(alloc: Global, out: &Con, piece: &Con, now: Leaving) -> Result<Leaving, AllocError>
    ensures { IfOk result
        (λ r. leaving_tree r ≡ one_left (con_tree out.now) (con_tree piece.now) (leaving_tree now)) }
{
    let Leaving { is_out, mut past } = now;
    if is_out {
        past.push(copy_con(alloc, piece)?)?;
        return Ok(Leaving { is_out: true, past });
    }
    if same_con(piece, out) {
        Ok(Leaving { is_out: true, past })
    } else {
        past.push(copy_con(alloc, piece)?)?;
        Ok(Leaving {
            is_out: false,
            past,
        })
    }
}

/// Pieces without the first that is this one.
fn without_piece(alloc: Global, out: &Con, pieces: &Cons) -> Result<Option<Cons>, AllocError>
    ensures { IfOk result (λ o. maybe_cons o ≡ piece_out (con_tree out.now) (cons_view pieces.now)) }
{
    let mut now = Leaving {
        is_out: false,
        past: Vec::with_capacity(alloc, pieces.items.len())?,
    };
    for i in 0..pieces.items.len() {
        now = leave_one(alloc, out, &pieces.items[i], now)?;
    }
    let Leaving { is_out, past } = now;
    if is_out {
        Ok(Some(Cons { items: past }))
    } else {
        Ok(None)
    }
}

/// Pieces without several, one after another.
#[tactic(auto, using(crate::proofs::OverPieces::pieces_next, crate::proofs::OverPieces::pieces_end, crate::proofs::OverPieces::pieces_are))]
pub fn without_pieces(alloc: Global, out: &Cons, pieces: Cons) -> Result<Option<Cons>, AllocError>
    ensures { IfOk result (λ o. maybe_cons o ≡ pieces_out (cons_view out.now) (cons_view pieces)) }
{
    let mut rest = pieces;
    for i in 0..out.items.len() {
        match without_piece(alloc, &out.items[i], &rest)? {
            None => return Ok(None),
            Some(left) => rest = left,
        }
    }
    Ok(Some(rest))
}

/// The row of pieces that are in order, fields of literal names as one literal.
pub fn row_of_rest(alloc: Global, rest: Cons) -> Result<Con, AllocError>
    ensures { IfOk result (λ c. con_tree c ≡ joined types (glued (cons_view rest))) }
{
    row_of_pieces_in_order(alloc, Kind::Types, rest)
}

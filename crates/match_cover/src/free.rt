//! The columns of which no row asks anything.
ghost use Rattle.std.specs.Prelude.{◌≡◌, IfOk, map, suc};
ghost use Rattle.con_terms.specs.View.{con_tree};
ghost use Rattle.core_terms.specs.View.{datatype_view};
ghost use Rattle.match_cover.specs.Misses as meant;
ghost use Rattle.match_cover.specs.View.{columns_view, next_view, out_view, rows_view, turn_view};
ghost use Rattle.type_faults.specs.View.{shape_tree};

use crate::columns::Columns;
use crate::first::{Work, first_shape, spend};
use crate::rows::{Rows, heads_are_free, kept, one_is_free, shared, tails};
use crate::shapes::{Shapes, shape_before};
use con_terms::Con;
use core_terms::Datatype;
use std::alloc::{AllocError, Global};
use std::rc::Rc;
use type_faults::Shape;

/// What stands behind the columns of which no row asks anything.
#[derive(Drop)]
pub enum Next {
    /// Each shape passes a row.
    Covered,
    /// There is no further column, and no row.
    Over,
    /// A column of which a row asks something: how deep it is looked at, its type, the columns behind it, the rows,
    /// and the room.
    Split(u32, Rc<Con>, Rc<Columns>, Rows, u32),
}

/// The first shapes of the columns of which no row asks anything, and what stands behind them.
#[derive(Drop)]
pub struct Ahead {
    pub shapes: Vec<Shape>,
    pub next: Next,
}

/// What one turn tells: what stands behind the columns of which no row asks anything, or the shape of one of them, with
/// the columns and the rows behind it.
#[derive(Drop)]
pub enum Turn {
    Ends(Next),
    Goes(Shape, Rc<Columns>, Rows),
}

/// What a column tells, behind which there are others.
#[tactic(auto, using(crate::proofs::Turns::held_none, crate::proofs::Turns::held_free, crate::proofs::Turns::held_more))]
fn at_column(
    alloc: Global,
    datatypes: &Vec<Datatype>,
    depth: u32,
    t: &Rc<Con>,
    rest: &Rc<Columns>,
    rows: Rows,
    room: u32,
    work: &mut Work,
) -> Result<Turn, AllocError>
    ensures { IfOk result (λ w. turn_view (map datatype_view datatypes.now.items) room w ≡ meant.tried_first
        (meant.misses (map datatype_view datatypes.now.items) room (columns_view rest.now.value))
        (meant.first_shape (map datatype_view datatypes.now.items) depth (con_tree t.now.value)) (λ s. s)
        (rows_view rows) meant.covered (meant.split (map datatype_view datatypes.now.items)
        (meant.misses (map datatype_view datatypes.now.items) room) (depth, con_tree t.now.value)
        (columns_view rest.now.value) (rows_view rows))) }
{
    match first_shape(alloc, datatypes, depth, t, work)? {
        None => Ok(Turn::Ends(Next::Covered)),
        Some(s) => {
            let with = kept(alloc, &s, &rows)?;
            if heads_are_free(&with) {
                let left = tails(alloc, &with)?;
                Ok(Turn::Goes(s, rest.clone()?, left))
            } else {
                let next = Next::Split(depth, t.clone()?, rest.clone()?, rows, room);
                Ok(Turn::Ends(next))
            }
        }
    }
}

/// What the first of some columns tells, where no row is free.
fn at_columns(
    alloc: Global,
    datatypes: &Vec<Datatype>,
    cols: &Columns,
    rows: Rows,
    room: u32,
    work: &mut Work,
) -> Result<Turn, AllocError>
    ensures { IfOk result (λ w. turn_view (map datatype_view datatypes.now.items) room w ≡ meant.at_columns
        (map datatype_view datatypes.now.items) (meant.misses (map datatype_view datatypes.now.items) room)
        (columns_view cols.now) (rows_view rows)) }
{
    match cols {
        Columns::End => Ok(Turn::Ends(Next::Over)),
        Columns::More(depth, t, rest) => {
            at_column(alloc, datatypes, *depth, t, rest, rows, room, work)
        }
    }
}

/// One turn.
#[tactic(auto, using(crate::proofs::Turns::turn_free, crate::proofs::Turns::turn_on))]
fn one_turn(
    alloc: Global,
    datatypes: &Vec<Datatype>,
    cols: &Rc<Columns>,
    rows: Rows,
    room: u32,
    work: &mut Work,
) -> Result<Turn, AllocError>
    ensures { IfOk result (λ w. turn_view (map datatype_view datatypes.now.items) room w ≡ meant.misses
        (map datatype_view datatypes.now.items) (suc room) (columns_view cols.now.value) (rows_view rows)) }
{
    spend(work)?;
    if one_is_free(&rows) {
        return Ok(Turn::Ends(Next::Covered));
    }
    let told = at_columns(alloc, datatypes, cols, rows, room, work)?;
    Ok(told)
}

/// Goes behind the columns of which no row asks anything.
pub fn free_columns(
    alloc: Global,
    datatypes: &Vec<Datatype>,
    cols: &Rc<Columns>,
    rows: &Rows,
    room: u32,
    work: &mut Work,
) -> Result<Ahead, AllocError>
    ensures { IfOk result (λ a. meant.prepended (map shape_tree a.shapes.items)
        (next_view (map datatype_view datatypes.now.items) a.next)
        ≡ meant.misses (map datatype_view datatypes.now.items) room
        (columns_view cols.now.value) (rows_view rows.now)) }
{
    let mut shapes = Vec::new(alloc);
    let mut now = cols.clone()?;
    let mut left = shared(alloc, rows)?;
    let mut room = room;
    while room > 0 {
        room -= 1;
        let told = one_turn(alloc, datatypes, &now, left, room, work)?;
        match told {
            Turn::Ends(next) => return Ok(Ahead { shapes, next }),
            Turn::Goes(s, rest, behind) => {
                shapes.push(s)?;
                now = rest;
                left = behind;
            }
        }
    }
    Err(AllocError)
}

/// Shapes before those that are missed behind them.
#[tactic(auto, using(crate::proofs::Fronts::shapes_on, crate::proofs::Fronts::prepended_covered))]
pub fn prepended(
    alloc: Global,
    shapes: Vec<Shape>,
    behind: Option<Shapes>,
) -> Result<Option<Shapes>, AllocError>
    ensures { IfOk result (λ o. out_view o ≡ meant.prepended (map shape_tree shapes.items) (out_view behind)) }
{
    match behind {
        None => Ok(None),
        Some(last) => {
            let mut missed = last;
            let mut waiting = shapes;
            'joins: while let Some(s) = waiting.pop() {
                missed = shape_before(alloc, s, missed)?;
            }
            Ok(Some(missed))
        }
    }
}

//! The first shapes that no row passes.
ghost use Rattle.std.specs.Prelude.{◌≡◌, ◌∷◌, IfOk, List, map, suc};
ghost use Rattle.core_terms.specs.Trees.{Cd};
ghost use Rattle.con_terms.specs.Trees.{con_list};
ghost use Rattle.con_terms.specs.View.{con_tree, cons_tree};
ghost use Rattle.core_terms.specs.View.{constructor_view, datatype_view};
ghost use Rattle.match_cover.specs.Misses as meant;
ghost use Rattle.match_cover.specs.Rows.{inside as inside_of, tails as tails_of};
ghost use Rattle.match_cover.specs.View.{columns_view, out_view, part_view, rows_view, seen_view, tried_view};
ghost use Rattle.type_faults.specs.View.{shape_tree};

use crate::columns::{Columns, column_before, columns_at};
use crate::first::{Work, first_shape, place};
use crate::free::{Ahead, Next, free_columns, prepended};
use crate::literals::{LITERALS, nth_literal};
use crate::rows::{Rows, heads_are_free, inside, kept, opened, tails};
use crate::seen::{Part, Seen, held_type, see};
use crate::shapes::{Shapes, bare, gather, holding, shape_before};
use crate::test::normal_of;
use con_terms::{Con, Cons, Sym};
use core_terms::{Constructor, Datatype};
use std::alloc::{AllocError, Global};
use std::rc::Rc;
use type_faults::Shape;

/// What a shape of the first column tells.
#[derive(Drop)]
pub enum Tried {
    /// Each shape passes, also of those that weren't looked at.
    All,
    /// These shapes pass no row.
    Missed(Shapes),
    /// Further shapes have to be looked at.
    More,
}

/// A shape before what is missed behind it.
fn then_shape(alloc: Global, s: Shape, behind: Option<Shapes>) -> Result<Option<Shapes>, AllocError>
    ensures { IfOk result (λ o. out_view o ≡ meant.then_shape (shape_tree s) (out_view behind)) }
{
    match behind {
        None => Ok(None),
        Some(shapes) => Ok(Some(shape_before(alloc, s, shapes)?)),
    }
}

/// What is missed behind a constructor's part as what is missed behind the constructor.
fn wrapped(
    alloc: Global,
    d: Sym,
    j: u32,
    missed: Option<Shapes>,
) -> Result<Option<Shapes>, AllocError>
    ensures { IfOk result (λ o. out_view o ≡ meant.wrapped d.number j (out_view missed)) }
{
    match missed {
        None => Ok(None),
        Some(Shapes::End) => Err(AllocError),
        Some(Shapes::More(held, rest)) => {
            let shape = Box::new(alloc, Shape::Holding(d, j, held))?;
            Ok(Some(Shapes::More(shape, rest)))
        }
    }
}

/// What is missed behind a record's fields as what is missed behind the record.
fn gathered(
    alloc: Global,
    fields: &Vec<Part>,
    missed: Option<Shapes>,
) -> Result<Option<Shapes>, AllocError>
    ensures { IfOk result (λ o. out_view o ≡
        meant.gathered (map part_view fields.now.items) (out_view missed)) }
{
    match missed {
        None => Ok(None),
        Some(shapes) => {
            let g = gather(alloc, fields, shapes)?;
            Ok(Some(shape_before(alloc, g.shape, g.rest)?))
        }
    }
}

/// What is missed first, or else what further shapes tell.
fn or_more(missed: Option<Shapes>) -> Tried
    ensures { (more : meant.Out) → tried_view result more ≡ meant.or_else (out_view missed) more }
{
    match missed {
        None => Tried::More,
        Some(shapes) => Tried::Missed(shapes),
    }
}

/// What tells of all shapes of the first column.
fn of_all(missed: Option<Shapes>) -> Tried
    ensures { (more : meant.Out) → tried_view result more ≡ out_view missed }
{
    match missed {
        None => Tried::All,
        Some(shapes) => Tried::Missed(shapes),
    }
}

/// The first shapes, one a column, that no row passes; none where there are none. The columns have to be no more than
/// the room.
#[cycle(misses)]
#[inline(never)]
pub fn misses(
    alloc: Global,
    datatypes: &Vec<Datatype>,
    cols: &Rc<Columns>,
    rows: &Rows,
    room: u32,
    work: &mut Work,
) -> Result<Option<Shapes>, AllocError>
    ensures { IfOk result (λ o. out_view o ≡ meant.misses (map datatype_view datatypes.now.items) room
        (columns_view cols.now.value) (rows_view rows.now)) }
{
    let Ahead { shapes, next } = free_columns(alloc, datatypes, cols, rows, room, work)?;
    let behind = match next {
        Next::Covered => None,
        Next::Over => Some(Shapes::End),
        Next::Split(depth, t, rest, left, less) => {
            if less >= room {
                return Err(AllocError);
            }
            split(alloc, datatypes, depth, &t, &rest, &left, less, work)?
        }
    };
    prepended(alloc, shapes, behind)
}

/// What is missed behind a shape, by the rows that it passes.
#[cycle(misses)]
#[inline(never)]
fn behind(
    alloc: Global,
    datatypes: &Vec<Datatype>,
    s: Shape,
    rest: &Rc<Columns>,
    with: &Rows,
    room: u32,
    work: &mut Work,
) -> Result<Option<Shapes>, AllocError>
    ensures { IfOk result (λ o. out_view o ≡ meant.then_shape (shape_tree s)
        (meant.misses (map datatype_view datatypes.now.items) room (columns_view rest.now.value)
        (tails_of (rows_view with.now)))) }
{
    let rows = tails(alloc, with)?;
    let missed = misses(alloc, datatypes, rest, &rows, room, work)?;
    then_shape(alloc, s, missed)
}

/// By each kind of shape of the first column.
#[cycle(misses)]
#[inline(never)]
fn split(
    alloc: Global,
    datatypes: &Vec<Datatype>,
    depth: u32,
    t: &Con,
    rest: &Rc<Columns>,
    rows: &Rows,
    room: u32,
    work: &mut Work,
) -> Result<Option<Shapes>, AllocError>
    ensures { IfOk result (λ o. out_view o ≡ meant.split (map datatype_view datatypes.now.items)
        (meant.misses (map datatype_view datatypes.now.items) room) (depth, con_tree t.now)
        (columns_view rest.now.value) (rows_view rows.now)) }
{
    if depth == 0 {
        return Err(AllocError);
    }
    match normal_of(alloc, t)? {
        None => Err(AllocError),
        Some(n) => {
            let told = see(alloc, datatypes, &n)?;
            by_seen(alloc, datatypes, depth - 1, &told, rest, rows, room, work)
        }
    }
}

/// The same, of what the type tells.
#[cycle(misses)]
#[inline(never)]
fn by_seen(
    alloc: Global,
    datatypes: &Vec<Datatype>,
    depth: u32,
    told: &Seen,
    rest: &Rc<Columns>,
    rows: &Rows,
    room: u32,
    work: &mut Work,
) -> Result<Option<Shapes>, AllocError>
    ensures { IfOk result (λ o. out_view o ≡ meant.by_seen (map datatype_view datatypes.now.items)
        (meant.misses (map datatype_view datatypes.now.items) room) depth
        (columns_view rest.now.value) (rows_view rows.now) (seen_view told.now)) }
{
    match told {
        Seen::Number => by_literals(alloc, datatypes, false, rest, rows, room, work),
        Seen::Words => by_literals(alloc, datatypes, true, rest, rows, room, work),
        Seen::Data(d, args) => {
            by_constructors(alloc, datatypes, depth, d, args, rest, rows, room, work)
        }
        Seen::Record(fields) => {
            let cols = columns_at(alloc, depth, fields, rest)?;
            let inner = opened(alloc, fields, rows)?;
            let missed = misses(alloc, datatypes, &cols, &inner, room, work)?;
            gathered(alloc, fields, missed)
        }
        Seen::Nothing => Err(AllocError),
    }
}

/// What a shape tells that holds nothing.
#[cycle(misses)]
#[inline(never)]
fn try_shape(
    alloc: Global,
    datatypes: &Vec<Datatype>,
    s: Shape,
    rest: &Rc<Columns>,
    rows: &Rows,
    room: u32,
    work: &mut Work,
) -> Result<Tried, AllocError>
    ensures { IfOk result (λ o. (more : meant.Out) → tried_view o more ≡ meant.tried
        (meant.misses (map datatype_view datatypes.now.items) room (columns_view rest.now.value))
        (shape_tree s) (rows_view rows.now) more) }
{
    let with = kept(alloc, &s, rows)?;
    let missed = behind(alloc, datatypes, s, rest, &with, room, work)?;
    if heads_are_free(&with) {
        Ok(of_all(missed))
    } else {
        Ok(or_more(missed))
    }
}

/// By literals, the least first.
#[cycle(misses)]
#[inline(never)]
fn by_literals(
    alloc: Global,
    datatypes: &Vec<Datatype>,
    words: bool,
    rest: &Rc<Columns>,
    rows: &Rows,
    room: u32,
    work: &mut Work,
) -> Result<Option<Shapes>, AllocError>
    ensures { IfOk result (λ o. out_view o ≡ meant.literals
        (meant.misses (map datatype_view datatypes.now.items) room (columns_view rest.now.value))
        words (rows_view rows.now) meant.literal_count 0) }
{
    for z in 0..LITERALS {
        let s = nth_literal(alloc, words, z)?;
        let told = try_shape(alloc, datatypes, s, rest, rows, room, work)?;
        match told {
            Tried::All => return Ok(None),
            Tried::Missed(shapes) => return Ok(Some(shapes)),
            Tried::More => {}
        }
    }
    Err(AllocError)
}

/// By the constructors of a datatype, in their order.
#[cycle(misses)]
#[inline(never)]
fn by_constructors(
    alloc: Global,
    datatypes: &Vec<Datatype>,
    depth: u32,
    d: &Datatype,
    args: &Cons,
    rest: &Rc<Columns>,
    rows: &Rows,
    room: u32,
    work: &mut Work,
) -> Result<Option<Shapes>, AllocError>
    ensures { IfOk result (λ o. out_view o ≡ meant.built_cases (map datatype_view datatypes.now.items)
        (meant.misses (map datatype_view datatypes.now.items) room) depth d.now.symbol.number
        (con_list (cons_tree args.now)) (columns_view rest.now.value) (rows_view rows.now)
        (map constructor_view d.now.constructors.items.items) 0) }
{
    for j in 0..d.constructors.items.len() {
        let c = &d.constructors.items[j];
        let place = place(j)?;
        let told = at_constructor(
            alloc, datatypes, depth, d.symbol, place, c, args, rest, rows, room, work,
        )?;
        match told {
            Tried::All => return Ok(None),
            Tried::Missed(shapes) => return Ok(Some(shapes)),
            Tried::More => {}
        }
    }
    Ok(None)
}

/// What a constructor tells.
#[cycle(misses)]
#[inline(never)]
fn at_constructor(
    alloc: Global,
    datatypes: &Vec<Datatype>,
    depth: u32,
    d: Sym,
    j: u32,
    c: &Constructor,
    args: &Cons,
    rest: &Rc<Columns>,
    rows: &Rows,
    room: u32,
    work: &mut Work,
) -> Result<Tried, AllocError>
    ensures { IfOk result (λ o. (cs : List Cd) → tried_view o (meant.built_cases (map datatype_view datatypes.now.items)
        (meant.misses (map datatype_view datatypes.now.items) room) depth d.number
        (con_list (cons_tree args.now)) (columns_view rest.now.value) (rows_view rows.now) cs (suc j))
        ≡ meant.built_cases (map datatype_view datatypes.now.items)
        (meant.misses (map datatype_view datatypes.now.items) room) depth d.number
        (con_list (cons_tree args.now)) (columns_view rest.now.value) (rows_view rows.now)
        (constructor_view c.now ∷ cs) j) }
{
    match &c.holds {
        None => {
            let s = bare(d, j);
            let told = try_shape(alloc, datatypes, s, rest, rows, room, work)?;
            Ok(told)
        }
        Some(held) => {
            let t = held_type(alloc, args, held)?;
            at_holding(alloc, datatypes, depth, d, j, t, rest, rows, room, work)
        }
    }
}

/// What a constructor that holds something tells.
#[cycle(misses)]
#[inline(never)]
fn at_holding(
    alloc: Global,
    datatypes: &Vec<Datatype>,
    depth: u32,
    d: Sym,
    j: u32,
    t: Con,
    rest: &Rc<Columns>,
    rows: &Rows,
    room: u32,
    work: &mut Work,
) -> Result<Tried, AllocError>
    ensures { IfOk result (λ o. (more : meant.Out) → tried_view o more ≡ meant.held_cases
        (map datatype_view datatypes.now.items) (meant.misses (map datatype_view datatypes.now.items) room) depth
        d.number j (con_tree t) (columns_view rest.now.value) (rows_view rows.now) more) }
{
    match first_shape(alloc, datatypes, depth, &t, work)? {
        None => Ok(Tried::More),
        Some(h) => {
            let s = holding(alloc, d, j, h)?;
            let with = kept(alloc, &s, rows)?;
            if heads_are_free(&with) {
                let missed = behind(alloc, datatypes, s, rest, &with, room, work)?;
                return Ok(of_all(missed));
            }
            let told = at_inside(alloc, datatypes, depth, d, j, t, rest, rows, room, work)?;
            Ok(told)
        }
    }
}

/// What the shapes of what a constructor holds tell, one by one.
#[cycle(misses)]
#[inline(never)]
fn at_inside(
    alloc: Global,
    datatypes: &Vec<Datatype>,
    depth: u32,
    d: Sym,
    j: u32,
    t: Con,
    rest: &Rc<Columns>,
    rows: &Rows,
    room: u32,
    work: &mut Work,
) -> Result<Tried, AllocError>
    ensures { IfOk result (λ o. (more : meant.Out) → tried_view o more ≡ meant.or_else (meant.wrapped d.number j
        (meant.misses (map datatype_view datatypes.now.items) room ((depth, con_tree t) ∷ columns_view rest.now.value)
        (inside_of d.number j (rows_view rows.now)))) more) }
{
    let inner = inside(alloc, d, j, rows)?;
    let cols = column_before(alloc, depth, t, rest)?;
    let missed = misses(alloc, datatypes, &cols, &inner, room, work)?;
    Ok(or_more(wrapped(alloc, d, j, missed)?))
}

//! The first shape of a type.
ghost use Rattle.std.specs.Prelude.{◌≡◌, IfOk, map};
ghost use Rattle.con_terms.specs.Trees.{con_list};
ghost use Rattle.con_terms.specs.View.{con_tree, cons_tree};
ghost use Rattle.core_terms.specs.View.{constructor_view, datatype_view};
ghost use Rattle.match_cover.specs.Misses as meant;
ghost use Rattle.match_cover.specs.View.{first_view, firsts_view, part_view, seen_view};

use crate::seen::{Part, Seen, held_type, see};
use crate::shapes::{Shapes, gather, shape_before};
use crate::test::normal_of;
use con_terms::{Con, Cons};
use core_terms::Datatype;
use std::alloc::{AllocError, Global};
use table_rows::Text;
use type_faults::Shape;

/// How many steps of looking are left.
#[derive(Drop)]
pub struct Work {
    pub left: u32,
}

/// Takes one of the steps; none is want of memory.
pub fn spend(work: &mut Work) -> Result<(), AllocError> {
    if work.left == 0 {
        return Err(AllocError);
    }
    work.left -= 1;
    Ok(())
}

/// A constructor's place. One past 2^32 - 1 counts as want of memory.
pub fn place(j: usize) -> Result<u32, AllocError>
    ensures { IfOk result (λ p. p ≡ j) }
{
    if j > u32::MAX as usize {
        return Err(AllocError);
    }
    Ok(j as u32)
}

/// The first shape of a type, down to a depth; none where it has none.
#[cycle(first_shape)]
#[inline(never)]
pub fn first_shape(
    alloc: Global,
    datatypes: &Vec<Datatype>,
    depth: u32,
    t: &Con,
    work: &mut Work,
) -> Result<Option<Shape>, AllocError>
    ensures { IfOk result (λ o. first_view o ≡
        meant.first_shape (map datatype_view datatypes.now.items) depth (con_tree t.now)) }
{
    if depth == 0 {
        return Ok(Some(Shape::Leaf));
    }
    spend(work)?;
    match normal_of(alloc, t)? {
        None => Err(AllocError),
        Some(n) => {
            let told = see(alloc, datatypes, &n)?;
            first_seen(alloc, datatypes, depth - 1, &told, work)
        }
    }
}

/// The same, of what the type tells.
#[cycle(first_shape)]
#[inline(never)]
fn first_seen(
    alloc: Global,
    datatypes: &Vec<Datatype>,
    depth: u32,
    told: &Seen,
    work: &mut Work,
) -> Result<Option<Shape>, AllocError>
    ensures { IfOk result (λ o. first_view o ≡
        meant.first_seen (meant.first_shape (map datatype_view datatypes.now.items) depth) (seen_view told.now)) }
{
    match told {
        Seen::Number => Ok(Some(Shape::Number(0))),
        Seen::Words => Ok(Some(Shape::Words(Text::new(alloc)))),
        Seen::Data(d, args) => first_built(alloc, datatypes, depth, d, args, work),
        Seen::Record(fields) => match first_fields(alloc, datatypes, depth, fields, work)? {
            None => Ok(None),
            Some(shapes) => Ok(Some(gather(alloc, fields, shapes)?.shape)),
        },
        Seen::Nothing => Ok(Some(Shape::Leaf)),
    }
}

/// The first shape of a datatype.
#[cycle(first_shape)]
#[inline(never)]
fn first_built(
    alloc: Global,
    datatypes: &Vec<Datatype>,
    depth: u32,
    d: &Datatype,
    args: &Cons,
    work: &mut Work,
) -> Result<Option<Shape>, AllocError>
    ensures { IfOk result (λ o. first_view o ≡
        meant.first_built (meant.first_shape (map datatype_view datatypes.now.items) depth) d.now.symbol.number
        (con_list (cons_tree args.now)) (map constructor_view d.now.constructors.items.items) 0) }
{
    for j in 0..d.constructors.items.len() {
        match &d.constructors.items[j].holds {
            None => return Ok(Some(Shape::Bare(d.symbol, place(j)?))),
            Some(held) => {
                let t = held_type(alloc, args, held)?;
                match first_shape(alloc, datatypes, depth, &t, work)? {
                    None => {}
                    Some(s) => {
                        let boxed = Box::new(alloc, s)?;
                        return Ok(Some(Shape::Holding(d.symbol, place(j)?, boxed)));
                    }
                }
            }
        }
    }
    Ok(None)
}

/// The first shapes of fields, from the last to the first; none where one has none.
#[cycle(first_shape)]
#[inline(never)]
fn first_fields(
    alloc: Global,
    datatypes: &Vec<Datatype>,
    depth: u32,
    fields: &Vec<Part>,
    work: &mut Work,
) -> Result<Option<Shapes>, AllocError>
    ensures { IfOk result (λ o. firsts_view o ≡
        meant.first_fields (meant.first_shape (map datatype_view datatypes.now.items) depth)
        (map part_view fields.now.items)) }
{
    let mut shapes = Shapes::End;
    let mut left = fields.len();
    while left > 0 {
        left -= 1;
        match first_shape(alloc, datatypes, depth, &fields[left].con, work)? {
            None => return Ok(None),
            Some(s) => {
                shapes = shape_before(alloc, s, shapes)?;
            }
        }
    }
    Ok(Some(shapes))
}

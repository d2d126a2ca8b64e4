//! Types with their heads reduced, and in normal form.
ghost use Rattle.std.specs.Prelude.{◌<◌};

use crate::memory::maybe_on_heap;
use crate::want::Want;
use con_nodes::{MOST, left_beside, most_units};
use con_terms::{Con, Cons, Kind, Pair, Pairs, has_room, subst};
use kind_rules::comparison_fuel;
use row_normal::normal::normal;
use row_normal::written::reduce;
use row_normal::{Fuel, NormalFault, reduce_head};
use std::alloc::{AllocError, Global};

/// The units of reductions of a constructor: those of a comparison, but not more than its largest function allows.
fn fuel_for(c: &Con) -> Fuel
    ensures { 0 < result.left }
{
    let whole = comparison_fuel();
    let most = most_units(c);
    if most < whole.left {
        Fuel { left: most }
    } else {
        whole
    }
}

/// Where the units that were given are too few: none where they are those of a comparison, else want of memory.
fn too_few(given: u32) -> Result<Option<Con>, AllocError> {
    if given < comparison_fuel().left {
        Err(AllocError)
    } else {
        Ok(None)
    }
}

/// A constructor with fewer than 100,000 nodes, as it is. More count as want of memory.
pub fn bounded(c: Con) -> Result<Con, AllocError> {
    if left_beside(&c, MOST) == 0 {
        Err(AllocError)
    } else {
        Ok(c)
    }
}

/// A constructor of which the root stays as it is; none where it is too large.
#[inline(never)]
pub fn head_of(alloc: Global, c: &Con) -> Result<Option<Con>, AllocError> {
    let mut fuel = fuel_for(c);
    let given = fuel.left;
    match reduce_head(alloc, c, &mut fuel) {
        Ok(head) => Ok(Some(head)),
        Err(NormalFault::TooLarge) => too_few(given),
        Err(NormalFault::Memory) => Err(AllocError),
    }
}

/// A constructor after all steps of reduction, with rows as written; none where it is too large.
#[inline(never)]
pub fn reduced(alloc: Global, c: &Con) -> Result<Option<Con>, AllocError> {
    let mut fuel = fuel_for(c);
    let given = fuel.left;
    match reduce(alloc, c, &mut fuel) {
        Ok(c) => Ok(Some(c)),
        Err(NormalFault::TooLarge) => too_few(given),
        Err(NormalFault::Memory) => Err(AllocError),
    }
}

/// The normal form of a constructor; none where it is too large.
#[inline(never)]
pub fn normal_of(alloc: Global, c: &Con) -> Result<Option<Con>, AllocError> {
    let mut fuel = fuel_for(c);
    let given = fuel.left;
    match normal(alloc, c, &Kind::Types, &mut fuel) {
        Ok(form) => Ok(Some(form.into_con())),
        Err(NormalFault::TooLarge) => too_few(given),
        Err(NormalFault::Memory) => Err(AllocError),
    }
}

/// A constructor of which the root stays as it is, on the heap; none where it is too large.
pub fn boxed_head(alloc: Global, c: &Con) -> Result<Option<Box<Con>>, AllocError> {
    maybe_on_heap(alloc, head_of(alloc, c)?)
}

/// A constructor after all steps of reduction, on the heap; none where it is too large.
pub fn boxed_reduced(alloc: Global, c: &Con) -> Result<Option<Box<Con>>, AllocError> {
    maybe_on_heap(alloc, reduced(alloc, c)?)
}

/// The normal form of a constructor, on the heap; none where it is too large.
pub fn boxed_normal(alloc: Global, c: &Con) -> Result<Option<Box<Con>>, AllocError> {
    maybe_on_heap(alloc, normal_of(alloc, c)?)
}

/// Whether one walk tells that no step of reduction is left in a constructor: it has no function and no projection, and
/// no map is applied in it.
#[cycle(is_still)]
fn is_still(c: &Con) -> bool {
    match c {
        Con::Var(_) | Con::Basic(_) | Con::UnitCon | Con::Name(_) | Con::Map(_, _) => true,
        Con::Arrow(first, second) | Con::Cat(first, second) => is_still(first) && is_still(second),
        Con::Poly(_, _, body) => is_still(body),
        Con::Guarded(first, second, body) => {
            is_still(first) && is_still(second) && is_still(body)
        }
        Con::Record(inner) => is_still(inner),
        Con::App(first, second) => stays(first) && is_still(first) && is_still(second),
        Con::Row(_, pairs) => are_still_pairs(pairs),
        Con::Tuple(parts) => are_still(parts),
        Con::Lambda(_, _) | Con::Proj(_, _) => false,
    }
}

/// Whether a constructor stays where it is applied, if no step is left in it.
fn stays(c: &Con) -> bool {
    matches!(c, Con::Var(_) | Con::Basic(_) | Con::App(_, _))
}

/// The same for each of these constructors.
#[cycle(is_still)]
fn are_still(parts: &Cons) -> bool {
    for i in 0..parts.items.len() {
        if !is_still(&parts.items[i]) {
            return false;
        }
    }
    true
}

/// The same for the fields of a row.
#[cycle(is_still)]
fn are_still_pairs(pairs: &Pairs) -> bool {
    for i in 0..pairs.items.len() {
        if !is_still_pair(&pairs.items[i]) {
            return false;
        }
    }
    true
}

/// The same for a field.
#[cycle(is_still)]
fn is_still_pair(pair: &Pair) -> bool {
    is_still(&pair.name) && is_still(&pair.value)
}

/// A type as it is shown and kept: reduced, or as it stands where that is too large.
pub fn kept(alloc: Global, c: Con) -> Result<Con, AllocError> {
    if is_still(&c) {
        return Ok(c);
    }
    match reduced(alloc, &c)? {
        Some(less) => Ok(less),
        None => Ok(c),
    }
}

/// The body with an argument for its innermost variable. One without room counts as want of memory.
pub fn put_in(alloc: Global, body: &Con, argument: &Con) -> Result<Con, AllocError> {
    if !has_room(body) || !has_room(argument) {
        return Err(AllocError);
    }
    subst(alloc, body, argument)
}

/// What is left of a wanted type of which nothing is known further in.
pub fn wants_nothing(want: &Want) -> Want {
    match want {
        Want::Choose => Want::Choose,
        _ => Want::Free,
    }
}

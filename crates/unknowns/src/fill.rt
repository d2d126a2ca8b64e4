//! Constructors with what was found put in.

ghost use Rattle.std.specs.Prelude.{◌≡◌, ◌+◌, ◌-◌, ◌<◌, ◌≤◌, ◌^◌, IfOk};
ghost use Rattle.con_terms.specs.Substitution.{shift as shifted};
ghost use Rattle.con_terms.specs.View.{con_tree};
ghost use Rattle.unknowns.specs.Unknowns.{answer_of, count_of, fill, filled as filled_in, filled_answer, tell, told as told_outside, told_number};
ghost use Rattle.unknowns.specs.Slots.{slots_tree};
ghost use Rattle.unknowns.specs.View.{IsTold, found_tree};

use crate::known::is_known;
use crate::slots::Slots;
use crate::store::Found;
use con_terms::rebuild::rebuild;
use con_terms::{BINDERS, Con, Replace, has_room, shift};
use std::alloc::{AllocError, Global};

/// Puts what was found for each unknown, seen from outside of the unknowns.
#[derive(Drop)]
struct Tell<'a> {
    found: &'a Found,
}

impl<'a> Replace for Tell<'a> {
    ghost replacement = { λ p. tell (found_tree p.found.now) };

    ghost deepest = { 2 ^ 31 };

    fn at(&self, alloc: Global, depth: u32, number: u32) -> Result<Con, AllocError> {
        if number < depth {
            return Ok(Con::Var(number));
        }
        outside(alloc, &self.found.slots, depth, number - depth)
    }
}

/// What a number stands for that no binder inside binds, seen from outside of the unknowns and under `depth` binders.
fn outside(alloc: Global, slots: &Slots, depth: u32, i: u32) -> Result<Con, AllocError>
    requires depth { depth < 2 ^ 31 }
    requires number { i < 2 ^ 31 }
    ensures { IfOk result (λ c. con_tree c ≡ told_number (slots_tree slots.now) depth i) }
{
    match slots {
        Slots::Nothing => Ok(Con::Var(i + depth)),
        Slots::Slot(unknown, rest) => {
            if i > 0 {
                return outside(alloc, rest, depth, i - 1);
            }
            match &unknown.answer {
                None => Ok(Con::UnitCon),
                Some(held) => shift(alloc, &held.con, depth, 0),
            }
        }
    }
}

/// The constructor with what was found for the unknowns, seen from outside of them.
fn told_con(alloc: Global, found: &Found, c: &Con) -> Result<Con, AllocError>
    ensures { IfOk result (λ d. con_tree d ≡ told_outside (found_tree found.now) (con_tree c.now)) }
{
    if !has_room(c) {
        return Err(AllocError);
    }
    rebuild(alloc, c, &Tell { found }, 0)
}

/// The pattern with what was found for its unknowns, seen from outside of them, where nothing is open in it.
///
/// A pattern without room for a shift counts as want of memory.
pub fn told(alloc: Global, found: &Found, pattern: &Con) -> Result<Option<Con>, AllocError>
    ensures { IfOk result (λ o. IsTold (found_tree found.now) (con_tree pattern.now) o) }
{
    if !is_known(found, pattern)? {
        return Ok(None);
    }
    Ok(Some(told_con(alloc, found, pattern)?))
}

/// Puts what was found for each unknown, which leaves the unknowns as the innermost binders.
#[derive(Drop)]
struct Fill<'a> {
    found: &'a Found,
}

impl<'a> Replace for Fill<'a> {
    ghost replacement = { λ p. fill (found_tree p.found.now) };

    ghost deepest = { 2 ^ 31 };

    fn at(&self, alloc: Global, depth: u32, number: u32) -> Result<Con, AllocError> {
        if number < depth {
            return Ok(Con::Var(number));
        }
        inside(alloc, self.found, depth, number)
    }
}

/// What a number stands for that no binder inside binds, with the unknowns as the innermost binders outside.
fn inside(alloc: Global, found: &Found, depth: u32, number: u32) -> Result<Con, AllocError>
    requires depth { depth < 2 ^ 31 }
    requires number { number < 2 ^ 31 }
    requires outside { depth ≤ number }
    ensures { IfOk result
        (λ c. con_tree c
        ≡ filled_answer (answer_of (found_tree found.now) (number - depth))
        (count_of (found_tree found.now) + depth) number) }
{
    match found.answer(number - depth) {
        None => Ok(Con::Var(number)),
        Some(con) => {
            if !has_room(con) {
                return Err(AllocError);
            }
            if found.count() + depth >= BINDERS {
                return Err(AllocError);
            }
            shift(alloc, con, found.count() + depth, 0)
        }
    }
}

/// The pattern with what was found put in, the unknowns still being its innermost binders.
///
/// A pattern without room for a shift counts as want of memory.
pub fn filled(alloc: Global, found: &Found, pattern: &Con) -> Result<Con, AllocError>
    ensures { IfOk result (λ d. con_tree d ≡ filled_in (found_tree found.now) (con_tree pattern.now)) }
{
    if !has_room(pattern) {
        return Err(AllocError);
    }
    rebuild(alloc, pattern, &Fill { found }, 0)
}

/// A constructor from outside of the unknowns, as it is seen from inside.
pub fn lowered(alloc: Global, found: &Found, c: &Con) -> Result<Con, AllocError>
    ensures { IfOk result (λ d. con_tree d ≡ shifted (count_of (found_tree found.now)) (con_tree c.now) 0) }
{
    if !has_room(c) {
        return Err(AllocError);
    }
    shift(alloc, c, found.count(), 0)
}

//! Functions of carried arguments that give pages.
ghost use Rattle.std.specs.Prelude.{◌≡◌, IfOk, map};
ghost use Rattle.con_terms.specs.View.{con_tree};
ghost use Rattle.core_terms.specs.View.{datatype_view};
ghost use Rattle.carried_types.specs.Pages as computed;
ghost use Rattle.carried_types.specs.View.{carried_to, carriers_view};

use crate::carried::{Carriers, can_carry, can_fill};
use con_terms::{Con, copy_con};
use core_terms::Datatype;
use judgements::{is_alike, normal_of};
use std::alloc::{AllocError, Global};
use type_makers::{page_type, transaction_of};

/// Whether a type is that of actions that give a page.
pub fn gives_page(alloc: Global, t: &Con) -> Result<bool, AllocError>
    ensures { IfOk result (λ r. r ≡ computed.gives_page (con_tree t.now)) }
{
    let page = page_type(alloc)?;
    let action = transaction_of(alloc, page)?;
    is_alike(alloc, t, &action)
}

/// What is left of a type behind carried arguments.
#[derive(Drop)]
pub enum CarriedTo {
    /// It takes fewer, or one that isn't carried.
    No,
    Left(Con),
}

/// What is left of a type behind an argument, which is carried.
fn behind_one(
    alloc: Global,
    datatypes: &Vec<Datatype>,
    carriers: &Carriers,
    t: &Con,
) -> Result<CarriedTo, AllocError>
    ensures { IfOk result (λ r. carried_to r ≡ computed.left_of
        (map datatype_view datatypes.now.items)
        (carriers_view carriers.now)
        (con_tree t.now)) }
{
    match normal_of(alloc, t)? {
        Some(Con::Arrow(a, b)) => {
            if can_carry(alloc, datatypes, carriers, &a)? {
                Ok(CarriedTo::Left(Box::into_inner(b)))
            } else {
                Ok(CarriedTo::No)
            }
        }
        _ => Ok(CarriedTo::No),
    }
}

/// What is left of a type behind so many arguments, which are carried.
#[tactic(auto, using(crate::proofs::Loops::past_none, crate::proofs::Loops::past_one, crate::proofs::Loops::past_all))]
pub fn carried_behind(
    alloc: Global,
    datatypes: &Vec<Datatype>,
    carriers: &Carriers,
    count: usize,
    t: &Con,
) -> Result<CarriedTo, AllocError>
    ensures { IfOk result (λ r. carried_to r ≡ computed.left_behind
        (map datatype_view datatypes.now.items)
        (carriers_view carriers.now)
        count
        (con_tree t.now)) }
{
    let mut now = copy_con(alloc, t)?;
    for i in 0..count {
        match behind_one(alloc, datatypes, carriers, &now)? {
            CarriedTo::No => return Ok(CarriedTo::No),
            CarriedTo::Left(rest) => now = rest,
        }
    }
    Ok(CarriedTo::Left(now))
}

/// Whether a type takes so many carried arguments and gives a page.
pub fn shows_page(
    alloc: Global,
    datatypes: &Vec<Datatype>,
    carriers: &Carriers,
    count: usize,
    t: &Con,
) -> Result<bool, AllocError>
    ensures { IfOk result (λ r. r ≡ computed.shows_page
        (map datatype_view datatypes.now.items)
        (carriers_view carriers.now)
        count
        (con_tree t.now)) }
{
    match carried_behind(alloc, datatypes, carriers, count, t)? {
        CarriedTo::No => Ok(false),
        CarriedTo::Left(rest) => gives_page(alloc, &rest),
    }
}

/// Whether a type takes a form's fields and gives a page.
fn takes_form(alloc: Global, t: &Con) -> Result<bool, AllocError>
    ensures { IfOk result (λ r. r ≡ computed.takes_form (con_tree t.now)) }
{
    match normal_of(alloc, t)? {
        Some(Con::Arrow(a, b)) => {
            if can_fill(alloc, &a)? {
                gives_page(alloc, &b)
            } else {
                Ok(false)
            }
        }
        _ => Ok(false),
    }
}

/// Whether a type takes so many carried arguments and a form's fields, and gives a page.
pub fn sends_form(
    alloc: Global,
    datatypes: &Vec<Datatype>,
    carriers: &Carriers,
    count: usize,
    t: &Con,
) -> Result<bool, AllocError>
    ensures { IfOk result (λ r. r ≡ computed.sends_form
        (map datatype_view datatypes.now.items)
        (carriers_view carriers.now)
        count
        (con_tree t.now)) }
{
    match carried_behind(alloc, datatypes, carriers, count, t)? {
        CarriedTo::No => Ok(false),
        CarriedTo::Left(rest) => takes_form(alloc, &rest),
    }
}

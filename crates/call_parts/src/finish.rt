//! The end of a call: what was found is put in, or it is kept as far as it is.
use crate::arguments::{Refusal, told_result};
use con_terms::{Con, Place, copy_con};
use core_terms::{ConOrigin, Exp, Form, Item, Items, Sigil};
use name_scopes::ElabFault;
use open_terms::{
    Argument, Call, Core, Env, Outcome, Slot, Step, Typed, Want, done, implied_term,
    inner_gaps_first, kept, later, may_grow, node, on_heap, open_call,
};
use std::alloc::{AllocError, Global};
use unknowns::{Found, told};

/// What was found for the unknown that was bound so many after the first.
fn found_at(alloc: Global, found: &Found, level: u32, place: Place) -> Result<Con, ElabFault> {
    let count = found.count();
    if level >= count {
        return Err(ElabFault::Unsolved(place));
    }
    match found.answer(count - 1 - level) {
        None => Err(ElabFault::Unsolved(place)),
        Some(con) => Ok(kept(alloc, copy_con(alloc, con)?)?),
    }
}

/// An argument as an item of a call.
fn given(alloc: Global, slot: Box<Slot<'_>>) -> Result<Box<Item>, ElabFault> {
    let Slot {
        place,
        pattern: _,
        argument,
        tried: _,
    } = Box::into_inner(slot);
    match argument {
        Argument::Known(typed, _) => {
            let Typed { exp, con: _ } = Box::into_inner(typed);
            Ok(term_item(alloc, exp)?)
        }
        _ => Err(ElabFault::Unsolved(place)),
    }
}

/// A term as an item of a call.
fn term_item(alloc: Global, exp: Box<Exp>) -> Result<Box<Item>, AllocError> {
    on_heap(alloc, Item::Term(Box::into_inner(exp)))
}

/// An item of a call.
fn item(
    alloc: Global,
    env: &Env,
    found: &Found,
    place: Place,
    step: Step<'_>,
) -> Result<Box<Item>, ElabFault> {
    match step {
        Step::Unknown(at, origin, level) => {
            let con = found_at(alloc, found, level, place)?;
            Ok(on_heap(alloc, Item::Con(at, origin, con))?)
        }
        Step::Con(at, con) => {
            let item = Item::Con(at, ConOrigin::Written, Box::into_inner(con));
            Ok(on_heap(alloc, item)?)
        }
        Step::Guard(at, inserted) => Ok(on_heap(alloc, Item::Guard(at, inserted))?),
        Step::Implied(pattern) => match told(alloc, found, &pattern.con)? {
            None => Err(ElabFault::Unsolved(place)),
            Some(t) => Ok(term_item(alloc, implied_term(alloc, env, place, &t)?)?),
        },
        Step::Term(slot) => given(alloc, slot),
    }
}

/// The items of a call.
fn items(
    alloc: Global,
    env: &Env,
    found: &Found,
    place: Place,
    steps: Vec<Step<'_>>,
) -> Result<Items, ElabFault> {
    let mut items = Items::new(alloc);
    for step in steps {
        let item = item(alloc, env, found, place, step)?;
        items.push(Box::into_inner(item))?;
    }
    Ok(items)
}

/// A head with its items; alone where there is none, and nothing stands before it.
fn applied(
    alloc: Global,
    place: Place,
    head: Box<Exp>,
    sigil: Sigil,
    items: Items,
) -> Result<Box<Exp>, AllocError> {
    if items.len() == 0 && sigil == Sigil::Plain {
        return Ok(head);
    }
    node(alloc, place, Form::Call(head, sigil, items))
}

/// The type of a call of which all was found.
fn type_left(alloc: Global, call: &Call<'_>) -> Result<Con, ElabFault> {
    match told(alloc, &call.found, &call.rest)? {
        None => Err(ElabFault::Unsolved(call.place)),
        Some(con) => Ok(kept(alloc, con)?),
    }
}

/// A call of which all was found.
#[inline(never)]
fn complete<'a>(alloc: Global, call: Box<Call<'a>>) -> Result<Outcome<'a>, ElabFault> {
    let con = type_left(alloc, &call)?;
    let Call {
        env,
        place,
        head,
        sigil,
        inserts: _,
        alone: _,
        inputs: _,
        next: _,
        steps,
        found,
        rest: _,
    } = Box::into_inner(call);
    let items = inner_gaps_first(alloc, items(alloc, &env, &found, place, steps)?)?;
    let exp = applied(alloc, place, head, sigil, items)?;
    Ok(done(alloc, exp, con)?)
}

/// What is told of a call of which something is open, where its type doesn't match.
#[inline(never)]
fn told_clash(
    alloc: Global,
    call: Box<Call<'_>>,
    refusal: Refusal,
) -> Result<ElabFault, AllocError> {
    let Call {
        env,
        place,
        head: _,
        sigil: _,
        inserts: _,
        alone: _,
        inputs: _,
        next: _,
        steps: _,
        found,
        rest: _,
    } = Box::into_inner(call);
    let mut found = found;
    told_result(alloc, &env, &mut found, place, refusal)
}

/// The end of a call, where nothing more is found for the time being.
#[inline(never)]
pub fn finish<'a>(
    alloc: Global,
    call: Box<Call<'a>>,
    want: &Want,
    clash: Option<Refusal>,
    room: u32,
) -> Result<Outcome<'a>, ElabFault> {
    match open_call(&call, room) {
        None => complete(alloc, call),
        Some(open) => {
            if may_grow(want) {
                return Ok(later(alloc, Core::Call(call))?);
            }
            match clash {
                None => Err(ElabFault::Unsolved(open)),
                Some(refusal) => Err(told_clash(alloc, call, refusal)?),
            }
        }
    }
}

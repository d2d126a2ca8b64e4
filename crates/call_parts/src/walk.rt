//! The type of what is called, walked past what the call is applied to.
use crate::arguments::ready;
use con_terms::{Con, Kind, Place, copy_con};
use core_terms::{ConOrigin, Sigil};
use name_scopes::ElabFault;
use open_terms::{
    Argument, Call, Input, Pattern, Slot, Step, add, any_function, any_guarded, any_poly, head_of,
    is_implied, not_of, on_heap, put_in,
};
use plain_tree::ConForm;
use std::alloc::{AllocError, Global};
use std::mem::replace;
use unknowns::{lowered, told};

/// How many items a walk passes at most.
const MOST: usize = 1_000_000;

/// How a walk goes on.
#[derive(Drop)]
pub enum Walked {
    /// Past one more item.
    On,
    /// All is passed.
    End,
    /// The type that is left has no form yet.
    Stuck,
}

/// The type that is left, taken out.
fn take_rest(call: &mut Call<'_>) -> Con {
    replace(&mut *call.rest, Con::UnitCon)
}

/// Binds an unknown of this kind, under which the body then stands.
pub fn bind(
    alloc: Global,
    call: &mut Call<'_>,
    place: Place,
    origin: ConOrigin,
    kind: Box<Kind>,
    body: Box<Con>,
) -> Result<(), AllocError> {
    let level = call.found.count();
    call.found.bind(alloc, Box::into_inner(kind))?;
    call.rest = body;
    call.steps.push(Step::Unknown(place, origin, level))?;
    Ok(())
}

/// A guard's proof is passed.
pub fn guard(
    call: &mut Call<'_>,
    place: Place,
    inserted: bool,
    body: Box<Con>,
) -> Result<(), AllocError> {
    call.rest = body;
    call.steps.push(Step::Guard(place, inserted))?;
    Ok(())
}

/// A folder or an instance is passed.
pub fn implied(call: &mut Call<'_>, from: Box<Con>, to: Box<Con>) -> Result<(), AllocError> {
    let under = call.found.count();
    call.rest = to;
    call.steps
        .push(Step::Implied(Pattern { con: from, under }))?;
    Ok(())
}

/// The next of what the call is applied to, taken.
fn take_input<'a>(call: &mut Call<'a>) -> Input<'a> {
    if call.next < call.inputs.len() {
        let input = replace(&mut call.inputs[call.next], Input::Taken);
        call.next = call.next.saturating_add(1);
        return input;
    }
    Input::Taken
}

/// A written constructor at a parameter of this kind.
fn constructor<'a>(
    alloc: Global,
    call: &mut Call<'a>,
    at: Place,
    c: &'a plain_tree::Con,
    kind: Box<Kind>,
    body: Box<Con>,
    room: u32,
) -> Result<Walked, ElabFault> {
    match &c.form {
        ConForm::Wild => bind(alloc, call, at, ConOrigin::Wild, kind, body)?,
        _ => {
            let con = call.env.con(alloc, c, &kind, room)?;
            let inner = lowered(alloc, &call.found, &con)?;
            *call.rest = put_in(alloc, &body, &inner)?;
            let con = on_heap(alloc, con)?;
            add(&mut call.steps, Step::Con(at, con))?;
        }
    }
    Ok(Walked::On)
}

/// An argument at a parameter of this type.
fn argument<'a>(
    alloc: Global,
    call: &mut Call<'a>,
    place: Place,
    argument: Argument<'a>,
    from: Box<Con>,
    to: Box<Con>,
) -> Result<Walked, AllocError> {
    let under = call.found.count();
    call.rest = to;
    let pattern = Pattern { con: from, under };
    let slot = Slot {
        place,
        pattern,
        argument,
        tried: 0,
    };
    call.steps.push(Step::Term(on_heap(alloc, slot)?))?;
    Ok(Walked::On)
}

/// What is told where the type that is left isn't of the form that what comes next asks for.
#[inline(never)]
fn refused(
    alloc: Global,
    call: &Call<'_>,
    input: &Input<'_>,
    rest: &Con,
) -> Result<ElabFault, AllocError> {
    let wanted = match input {
        Input::Term(_) | Input::Ready(_, _) | Input::Taken => any_function(alloc)?,
        Input::Con(_, _) => any_poly(alloc)?,
        Input::Guard(_) => any_guarded(alloc)?,
    };
    match told(alloc, &call.found, rest)? {
        None => Ok(ElabFault::Unsolved(call.place)),
        Some(found) => not_of(alloc, &call.env, call.head.place, wanted, &found),
    }
}

/// The type that is left is of another form than what comes next asks for.
fn mistaken<'a>(
    alloc: Global,
    call: &Call<'a>,
    input: Input<'a>,
    rest: Con,
) -> Result<Walked, ElabFault> {
    Err(refused(alloc, call, &input, &rest)?)
}

/// Past what comes next, where the type that is left takes a constructor.
fn past_poly<'a>(
    alloc: Global,
    call: &mut Call<'a>,
    implicit: bool,
    kind: Box<Kind>,
    body: Box<Con>,
    room: u32,
) -> Result<Walked, ElabFault> {
    if implicit && call.inserts != Sigil::AtAt {
        let place = call.place;
        bind(alloc, call, place, ConOrigin::Inserted, kind, body)?;
        return Ok(Walked::On);
    }
    match take_input(call) {
        Input::Con(at, c) => constructor(alloc, call, at, c, kind, body, room),
        input => mistaken(alloc, call, input, Con::Poly(implicit, kind, body)),
    }
}

/// Past what comes next, where the type that is left takes a guard's proof.
fn past_guard<'a>(
    alloc: Global,
    call: &mut Call<'a>,
    left: Box<Con>,
    right: Box<Con>,
    body: Box<Con>,
) -> Result<Walked, ElabFault> {
    if call.inserts == Sigil::Plain {
        let place = call.place;
        guard(call, place, true, body)?;
        return Ok(Walked::On);
    }
    match take_input(call) {
        Input::Guard(at) => {
            guard(call, at, false, body)?;
            Ok(Walked::On)
        }
        input => mistaken(alloc, call, input, Con::Guarded(left, right, body)),
    }
}

/// Past what comes next, where the type that is left is a function's.
fn past_arrow<'a>(
    alloc: Global,
    call: &mut Call<'a>,
    from: Box<Con>,
    to: Box<Con>,
) -> Result<Walked, ElabFault> {
    if call.inserts == Sigil::Plain && is_implied(alloc, &call.env, &from)? {
        implied(call, from, to)?;
        return Ok(Walked::On);
    }
    match take_input(call) {
        Input::Term(e) => {
            let place = call.env.place(e.at);
            Ok(argument(alloc, call, place, Argument::New(e), from, to)?)
        }
        Input::Ready(place, outcome) => {
            let given = ready(outcome);
            Ok(argument(alloc, call, place, given, from, to)?)
        }
        input => mistaken(alloc, call, input, Con::Arrow(from, to)),
    }
}

/// Past what comes next, where the type that is left is none of these: it is reduced, or has no form yet.
fn past_other(alloc: Global, call: &mut Call<'_>, rest: Con) -> Result<Walked, ElabFault> {
    match head_of(alloc, &rest)? {
        None => {
            *call.rest = rest;
            Ok(Walked::Stuck)
        }
        Some(head) => {
            let goes_on = has_form(&head);
            *call.rest = head;
            if goes_on {
                Ok(Walked::On)
            } else {
                Ok(Walked::Stuck)
            }
        }
    }
}

/// Whether a type is a function's, of terms, of constructors or of guards.
pub fn has_form(c: &Con) -> bool {
    match c {
        Con::Poly(_, _, _) | Con::Guarded(_, _, _) | Con::Arrow(_, _) => true,
        _ => false,
    }
}

/// Past one more item.
fn step(alloc: Global, call: &mut Call<'_>, room: u32) -> Result<Walked, ElabFault> {
    if call.next >= call.inputs.len() {
        return Ok(Walked::End);
    }
    match take_rest(call) {
        Con::Poly(implicit, kind, body) => past_poly(alloc, call, implicit, kind, body, room),
        Con::Guarded(left, right, body) => past_guard(alloc, call, left, right, body),
        Con::Arrow(from, to) => past_arrow(alloc, call, from, to),
        other => past_other(alloc, call, other),
    }
}

/// The walk, as far as it goes: to the end, or to where the type that is left has no form yet.
#[inline(never)]
pub fn walk(alloc: Global, call: &mut Call<'_>, room: u32) -> Result<bool, ElabFault> {
    for _ in 0..MOST {
        match step(alloc, call, room)? {
            Walked::On => {}
            Walked::End => return Ok(true),
            Walked::Stuck => return Ok(false),
        }
    }
    Err(ElabFault::Memory)
}

/// Goes on where a walk had no form, now that more is known: else what comes next has no parameter.
#[inline(never)]
pub fn unstick(alloc: Global, call: &mut Call<'_>) -> Result<(), ElabFault> {
    match told(alloc, &call.found, &call.rest)? {
        None => return Err(ElabFault::Unsolved(call.place)),
        Some(found) => match head_of(alloc, &found)? {
            None => {}
            Some(head) => {
                if has_form(&head) {
                    *call.rest = lowered(alloc, &call.found, &head)?;
                    return Ok(());
                }
            }
        },
    }
    let rest = copy_con(alloc, &call.rest)?;
    let input = take_input(call);
    Err(refused(alloc, call, &input, &rest)?)
}

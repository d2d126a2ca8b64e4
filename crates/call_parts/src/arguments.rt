//! The arguments of a call: their types matched with those of the parameters, and which comes next.
use con_terms::{Con, Place, Sym, copy_con, has_room, shift};
use name_scopes::ElabFault;
use open_terms::{
    Argument, Call, Core, Env, Frame, Outcome, Pattern, Pending, Slot, Step, Want, boxed_copy,
    may_grow, mismatch, on_heap, whole,
};
use row_normal::Normal;
use std::alloc::{AllocError, Global};
use std::mem::replace;
use type_faults::Fault;
use type_makers::symbols;
use unknowns::{Apart, FitFault, Found, filled, fit, is_known, told};

/// An argument that was elaborated before.
pub fn ready<'a>(outcome: Outcome<'a>) -> Argument<'a> {
    match outcome {
        Outcome::Done(typed) => Argument::Known(typed, false),
        Outcome::Later(pending) => Argument::Waiting(pending),
    }
}

/// A pattern as it is seen under all unknowns.
pub fn raise(alloc: Global, pattern: &mut Pattern, count: u32) -> Result<(), AllocError> {
    if pattern.under >= count {
        return Ok(());
    }
    let by = count - pattern.under;
    if by >= 0x4000_0000 || !has_room(&pattern.con) {
        return Err(AllocError);
    }
    *pattern.con = shift(alloc, &pattern.con, by, 0)?;
    pattern.under = count;
    Ok(())
}

/// The pattern of what a call is applied to, as it is seen under all unknowns.
fn raise_step(alloc: Global, step: &mut Step<'_>, count: u32) -> Result<(), AllocError> {
    match step {
        Step::Implied(pattern) => raise(alloc, pattern, count),
        Step::Term(slot) => raise(alloc, &mut slot.pattern, count),
        _ => Ok(()),
    }
}

/// All patterns of a call as they are seen under all its unknowns.
#[inline(never)]
pub fn raise_all(alloc: Global, call: &mut Call<'_>) -> Result<(), AllocError> {
    let count = call.found.count();
    for i in 0..call.steps.len() {
        match call.steps.get_mut(i) {
            Some(step) => raise_step(alloc, step, count)?,
            None => {}
        }
    }
    Ok(())
}

/// Puts `()` for each unknown for which nothing was found.
fn close_open(alloc: Global, found: &mut Found) -> Result<(), AllocError> {
    for i in 0..found.count() {
        if found.is_open(i) {
            match fit(alloc, &Con::Var(i), &Con::UnitCon, found) {
                Ok(()) => {}
                Err(_) => return Err(AllocError),
            }
        }
    }
    Ok(())
}

/// A side that differs, as it is told: seen from outside of the unknowns.
fn side(alloc: Global, found: &Found, c: Normal) -> Result<Con, AllocError> {
    match told(alloc, found, c.con())? {
        Some(c) => Ok(c),
        None => Err(AllocError),
    }
}

/// The sides of types that differ, as they are told.
#[derive(Drop)]
struct Sides {
    /// That of the pattern.
    pattern: Con,
    /// That of the type that should have matched.
    actual: Con,
}

/// The sides of types that differ. In them `()` stands for each unknown for which nothing was found.
fn sides_of(alloc: Global, found: &mut Found, apart: Box<Apart>) -> Result<Sides, AllocError> {
    let Apart {
        under,
        wanted,
        found: other,
    } = Box::into_inner(apart);
    if under == 0 {
        return Ok(Sides {
            pattern: wanted.into_con(),
            actual: other.into_con(),
        });
    }
    close_open(alloc, found)?;
    let pattern = side(alloc, found, wanted)?;
    let actual = side(alloc, found, other)?;
    Ok(Sides { pattern, actual })
}

/// What is told of a type that doesn't match the one that is wanted, which is the pattern.
#[inline(never)]
pub fn told_refusal(
    alloc: Global,
    env: &Env,
    found: &mut Found,
    place: Place,
    refusal: Refusal,
) -> Result<ElabFault, AllocError> {
    match refusal {
        Refusal::TooLarge => Ok(ElabFault::Told(Fault::TooLarge(place))),
        Refusal::Differ(apart) => {
            let Sides { pattern, actual } = sides_of(alloc, found, apart)?;
            mismatch(alloc, env, place, pattern, actual)
        }
    }
}

/// What is told of a call's result, which is the pattern, where another type is wanted.
#[inline(never)]
pub fn told_result(
    alloc: Global,
    env: &Env,
    found: &mut Found,
    place: Place,
    refusal: Refusal,
) -> Result<ElabFault, AllocError> {
    match refusal {
        Refusal::TooLarge => Ok(ElabFault::Told(Fault::TooLarge(place))),
        Refusal::Differ(apart) => {
            let Sides { pattern, actual } = sides_of(alloc, found, apart)?;
            mismatch(alloc, env, place, actual, pattern)
        }
    }
}

/// Why a type doesn't match.
#[derive(Drop)]
pub enum Refusal {
    Differ(Box<Apart>),
    TooLarge,
}

/// How matching a type with a pattern ends: matched, or open as yet, or refused.
#[derive(Drop)]
pub enum Match {
    Matched,
    Open,
    Refused(Refusal),
}

/// Matches a type with a pattern, where an unknown of it is still to be found.
#[inline(never)]
pub fn match_type(
    alloc: Global,
    found: &mut Found,
    pattern: &Con,
    actual: &Con,
) -> Result<Match, AllocError> {
    if is_known(found, pattern)? {
        return Ok(Match::Matched);
    }
    match fit(alloc, pattern, actual, found) {
        Ok(()) => Ok(Match::Matched),
        Err(FitFault::Open) => Ok(Match::Open),
        Err(FitFault::Differ(apart)) => Ok(Match::Refused(Refusal::Differ(apart))),
        Err(FitFault::TooLarge) => Ok(Match::Refused(Refusal::TooLarge)),
        Err(FitFault::Memory) => Err(AllocError),
    }
}

/// Matches the type of an argument, where it is known and wasn't matched before; says whether it is matched then.
fn matches(
    alloc: Global,
    env: &Env,
    found: &mut Found,
    slot: &Slot<'_>,
) -> Result<bool, ElabFault> {
    match &slot.argument {
        Argument::Known(typed, matched) => {
            if *matched {
                return Ok(false);
            }
            let place = typed.exp.place;
            match match_type(alloc, found, &slot.pattern.con, &typed.con)? {
                Match::Matched => Ok(true),
                Match::Open => Ok(false),
                Match::Refused(refusal) => Err(told_refusal(alloc, env, found, place, refusal)?),
            }
        }
        _ => Ok(false),
    }
}

/// Keeps that the type of an argument is matched.
fn mark(argument: &mut Argument<'_>) {
    match argument {
        Argument::Known(_, matched) => *matched = true,
        _ => {}
    }
}

/// Matches the type of what a call is applied to, where it is known.
fn match_step(
    alloc: Global,
    env: &Env,
    found: &mut Found,
    step: &mut Step<'_>,
) -> Result<(), ElabFault> {
    match step {
        Step::Term(slot) => {
            if matches(alloc, env, found, &**slot)? {
                mark(&mut slot.argument);
            }
            Ok(())
        }
        _ => Ok(()),
    }
}

/// Matches the types of all arguments that are known, in order.
#[inline(never)]
pub fn match_all(alloc: Global, call: &mut Call<'_>) -> Result<(), ElabFault> {
    for i in 0..call.steps.len() {
        match call.steps.get_mut(i) {
            Some(step) => match_step(alloc, &call.env, &mut call.found, step)?,
            None => {}
        }
    }
    Ok(())
}

/// An argument that wasn't looked at yet, and what is wanted of it: its parameter's type, where that has no unknowns.
#[derive(Drop)]
pub struct New<'a> {
    pub source: &'a plain_tree::Exp,
    pub want: Want,
}

/// The argument at a step, if it wasn't looked at yet.
pub fn new_at<'a>(alloc: Global, call: &Call<'a>, i: usize) -> Result<Option<New<'a>>, AllocError> {
    match call.steps.get(i) {
        Some(Step::Term(slot)) => match &slot.argument {
            Argument::New(source) => {
                let source = *source;
                let want = want_outside(alloc, &slot.pattern)?;
                Ok(Some(New { source, want }))
            }
            _ => Ok(None),
        },
        _ => Ok(None),
    }
}

/// What is wanted of an argument at a pattern: its type, where that has no unknowns.
fn want_outside(alloc: Global, pattern: &Pattern) -> Result<Want, AllocError> {
    if pattern.under == 0 {
        return Ok(Want::Whole(boxed_copy(alloc, &pattern.con)?));
    }
    Ok(Want::Free)
}

/// Puts what an argument gave.
pub fn put<'a>(call: &mut Call<'a>, i: usize, outcome: Outcome<'a>) {
    match call.steps.get_mut(i) {
        Some(Step::Term(slot)) => slot.argument = ready(outcome),
        _ => {}
    }
}

/// An argument that is tried next, and what is known of its wanted type.
#[derive(Drop)]
pub struct Trial<'a> {
    pub step: usize,
    pub pending: Box<Pending<'a>>,
    pub want: Want,
}

/// How much is known of a wanted type: more at each further parameter.
const ALL: u32 = u32::MAX;

/// The wanted type of a function, as far as its parameters are known, and how many are.
fn parameters_known(
    alloc: Global,
    found: &Found,
    pattern: &Con,
) -> Result<Option<(Con, Con)>, AllocError> {
    match pattern {
        Con::Arrow(a, b) => match told(alloc, found, a)? {
            None => Ok(None),
            Some(from) => Ok(Some((from, copy_con(alloc, b)?))),
        },
        _ => Ok(None),
    }
}

/// What is known of a function's type: this parameter, and this of the rest.
fn taking(alloc: Global, from: Con, rest: Want) -> Result<Want, AllocError> {
    let from = on_heap(alloc, from)?;
    Ok(Want::Takes(from, on_heap(alloc, rest)?))
}

/// What is known of the wanted type of a function, and how many of its parameters are.
fn function_want(alloc: Global, found: &Found, pattern: &Con) -> Result<(Want, u32), AllocError> {
    let mut parameters = Vec::new(alloc);
    let mut rest = filled(alloc, found, pattern)?;
    for _ in 0..1_000 {
        match parameters_known(alloc, found, &rest)? {
            None => break,
            Some((from, to)) => {
                parameters.push(from)?;
                rest = to;
            }
        }
    }
    let mut want = match told(alloc, found, &rest)? {
        None => Want::Free,
        Some(con) => whole(alloc, con)?,
    };
    let mut count: u32 = 0;
    'wraps: while let Some(from) = parameters.pop() {
        want = taking(alloc, from, want)?;
        if count < 1_000 {
            count += 1;
        }
    }
    Ok((want, count))
}

/// `xml c u b`, as its three constructors.
fn page_parts(c: &Con) -> Option<(&Con, &Con)> {
    let Con::App(f, _) = c else {
        return None;
    };
    let Con::App(g, uses) = &**f else {
        return None;
    };
    let Con::App(x, context) = &**g else {
        return None;
    };
    match &**x {
        Con::Basic(s) => {
            if is_xml(*s) {
                Some((context, uses))
            } else {
                None
            }
        }
        _ => None,
    }
}

/// Whether this is the symbol of `xml`.
fn is_xml(s: Sym) -> bool {
    s == symbols::XML
}

/// A type as it is told, on the heap; none where something of it is open.
fn boxed_told(alloc: Global, found: &Found, c: &Con) -> Result<Option<Box<Con>>, AllocError> {
    match told(alloc, found, c)? {
        None => Ok(None),
        Some(con) => Ok(Some(on_heap(alloc, con)?)),
    }
}

/// What is known of the wanted type of a literal of a page; none where its context isn't.
fn page_want(alloc: Global, found: &Found, pattern: &Con) -> Result<Option<Want>, AllocError> {
    let page = filled(alloc, found, pattern)?;
    match page_parts(&page) {
        None => Ok(None),
        Some((context, uses)) => match told(alloc, found, context)? {
            None => Ok(None),
            Some(context) => {
                let context = on_heap(alloc, context)?;
                let uses = boxed_told(alloc, found, uses)?;
                Ok(Some(Want::Page(Some(context), uses)))
            }
        },
    }
}

/// Whether what is wanted of a term is wanted of what stands inside of these.
fn keep_want(frames: &Vec<Frame<'_>>) -> bool {
    for i in 0..frames.len() {
        match &frames[i] {
            Frame::Let(_, _) | Frame::Case(_) => {}
            _ => return false,
        }
    }
    true
}

/// What is known of a wanted type that tells more than when the argument was tried last, and how much that is.
fn more_known(
    alloc: Global,
    found: &Found,
    slot: &Slot<'_>,
    pending: &Pending<'_>,
) -> Result<Option<(Want, u32)>, AllocError> {
    match told(alloc, found, &slot.pattern.con)? {
        Some(con) => return Ok(Some((whole(alloc, con)?, ALL))),
        None => {}
    }
    match &pending.core {
        Core::Fn(_) => {
            let (want, count) = function_want(alloc, found, &slot.pattern.con)?;
            if count > slot.tried {
                return Ok(Some((want, count)));
            }
            Ok(None)
        }
        Core::Page(_) => {
            if slot.tried > 0 || !keep_want(&pending.frames) {
                return Ok(None);
            }
            match page_want(alloc, found, &slot.pattern.con)? {
                None => Ok(None),
                Some(want) => Ok(Some((want, 1))),
            }
        }
        _ => Ok(None),
    }
}

/// Whether nothing but contexts of pages is to be chosen in an open term, as far as is seen.
#[cycle(only_contexts)]
pub fn only_contexts(pending: &Pending<'_>, room: u32) -> bool {
    if room == 0 {
        return false;
    }
    match &pending.core {
        Core::Fn(_) => false,
        Core::Page(_) => true,
        Core::Call(call) => {
            let mut some = false;
            for i in 0..call.steps.len() {
                match &call.steps[i] {
                    Step::Term(slot) => match &slot.argument {
                        Argument::Waiting(inner) => {
                            if !only_contexts(inner, room - 1) {
                                return false;
                            }
                            some = true;
                        }
                        _ => {}
                    },
                    _ => {}
                }
            }
            some
        }
        Core::Rec(rec) => {
            for i in 0..rec.fields.len() {
                match &rec.fields[i].value {
                    Outcome::Later(inner) => {
                        if !only_contexts(inner, room - 1) {
                            return false;
                        }
                    }
                    Outcome::Done(_) => {}
                }
            }
            true
        }
    }
}

/// Takes an open argument out.
fn take<'a>(call: &mut Call<'a>, step: usize, want: Want, tried: u32) -> Option<Trial<'a>> {
    match call.steps.get_mut(step) {
        Some(Step::Term(slot)) => {
            slot.tried = tried;
            match replace(&mut slot.argument, Argument::Taken) {
                Argument::Waiting(pending) => Some(Trial {
                    step,
                    pending,
                    want,
                }),
                other => {
                    slot.argument = other;
                    None
                }
            }
        }
        _ => None,
    }
}

/// What is known of the wanted type of what a call is applied to, where that is open and more is known than when it
/// was tried last.
fn step_known(
    alloc: Global,
    found: &Found,
    step: &Step<'_>,
) -> Result<Option<(Want, u32)>, AllocError> {
    match step {
        Step::Term(slot) => match &slot.argument {
            Argument::Waiting(pending) => more_known(alloc, found, slot, pending),
            _ => Ok(None),
        },
        _ => Ok(None),
    }
}

/// Where the first open argument stands of whose wanted type more is known than when it was tried last, and what.
fn first_known(alloc: Global, call: &Call<'_>) -> Result<Option<(usize, Want, u32)>, AllocError> {
    for i in 0..call.steps.len() {
        match step_known(alloc, &call.found, &call.steps[i])? {
            None => {}
            Some((want, tried)) => return Ok(Some((i, want, tried))),
        }
    }
    Ok(None)
}

/// The first open argument of whose wanted type more is known than when it was tried last.
#[inline(never)]
pub fn next_known<'a>(alloc: Global, call: &mut Call<'a>) -> Result<Option<Trial<'a>>, AllocError> {
    match first_known(alloc, call)? {
        None => Ok(None),
        Some((step, want, tried)) => Ok(take(call, step, want, tried)),
    }
}

/// Whether this is an open argument in which nothing but contexts of pages is to be chosen.
fn is_choice(step: &Step<'_>, room: u32) -> bool {
    match step {
        Step::Term(slot) => match &slot.argument {
            Argument::Waiting(pending) => only_contexts(pending, room),
            _ => false,
        },
        _ => false,
    }
}

/// Where the first open argument stands in which nothing but contexts of pages is to be chosen.
fn first_choice(call: &Call<'_>, room: u32) -> Option<usize> {
    for i in 0..call.steps.len() {
        if is_choice(&call.steps[i], room) {
            return Some(i);
        }
    }
    None
}

/// The first open argument in which nothing but contexts of pages is to be chosen.
#[inline(never)]
pub fn next_choice<'a>(call: &mut Call<'a>, room: u32) -> Option<Trial<'a>> {
    match first_choice(call, room) {
        None => None,
        Some(step) => take(call, step, Want::Choose, ALL),
    }
}

/// What comes next of a call's open arguments, where this is wanted of the call.
#[inline(never)]
pub fn next<'a>(
    alloc: Global,
    call: &mut Call<'a>,
    want: &Want,
    room: u32,
) -> Result<Option<Trial<'a>>, AllocError> {
    match next_known(alloc, call)? {
        Some(next) => Ok(Some(next)),
        None => {
            if may_grow(want) {
                return Ok(None);
            }
            Ok(next_choice(call, room))
        }
    }
}

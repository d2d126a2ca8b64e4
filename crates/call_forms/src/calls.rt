//! Calls: what they begin with, their arguments as they tell their types, and what is left then.
use call_parts::finish::finish;
use call_parts::walk::walk;
use call_parts::{
    Match, New, Refusal, begin, call_of, call_of_term, inputs, match_all, match_page, match_type,
    new_at, next, put, raise_all, unstick,
};
use con_terms::Place;
use name_scopes::ElabFault;
use open_terms::{Call, Env, Input, Outcome, Typed, Want, head_of_call, on_heap};
use plain_tree::{Exp, Items};
use std::alloc::{AllocError, Global};
use term_parts::{Part, Progress, Sought, ask, below, settled, term};

/// How often a call goes on at most.
const ROUNDS: usize = 1_000_000;

/// A call before its head is elaborated.
#[derive(Drop)]
pub struct HeadRest<'a> {
    pub env: Env,
    pub want: Want,
    pub place: Place,
    pub given: Vec<Input<'a>>,
}

/// A call whose arguments tell their types, from left to right.
#[derive(Drop)]
pub struct Telling<'a> {
    pub call: Box<Call<'a>>,
    pub want: Want,
    /// Whether the call's type is walked to its end.
    pub ended: bool,
    /// The step of the argument that is looked at.
    pub step: usize,
}

/// A call whose open arguments come, each when its wanted type is known.
#[derive(Drop)]
pub struct Settling<'a> {
    pub call: Box<Call<'a>>,
    pub want: Want,
    /// Why its result doesn't match the wanted type.
    pub clash: Option<Refusal>,
    /// The step of the argument that is looked at.
    pub step: usize,
}

/// How a call goes on with the part that it asked for.
#[derive(Drop)]
pub enum CallAfter<'a> {
    /// The head of a call.
    Head(Box<HeadRest<'a>>),
    /// An argument of a call, which tells its type.
    Told(Box<Telling<'a>>),
    /// An argument of a call that was open.
    Settled(Box<Settling<'a>>),
}

/// Goes on with what a part gave. Where it is refused, so is the whole.
pub fn go_on<'a>(
    alloc: Global,
    after: CallAfter<'a>,
    given: Result<Outcome<'a>, ElabFault>,
    room: u32,
) -> Result<Progress<'a, CallAfter<'a>>, ElabFault> {
    let outcome = given?;
    match after {
        CallAfter::Head(rest) => with_head(alloc, rest, outcome, room),
        CallAfter::Told(telling) => told(alloc, telling, outcome, room),
        CallAfter::Settled(settling) => settled_argument(alloc, settling, outcome, room),
    }
}

/// What never ends counts as want of memory. What it holds is let go here, where that is proved, and not by its caller.
pub fn endless(_progress: Progress<'_, CallAfter<'_>>) -> ElabFault {
    ElabFault::Memory
}

/// A name alone: a call without arguments.
pub fn of_name<'a>(
    alloc: Global,
    sought: Box<Sought<'a>>,
    room: u32,
) -> Result<Progress<'a, CallAfter<'a>>, ElabFault> {
    let Sought { env, want, source } = Box::into_inner(sought);
    match head_of_call(alloc, &env, source, None, room)? {
        None => Err(ElabFault::Memory),
        Some(head) => {
            let place = env.place(source.at);
            let call = call_of(alloc, &env, place, head, Vec::new(alloc))?;
            settle(alloc, call, want, room)
        }
    }
}

/// A term with what it is applied to.
pub fn of_call<'a>(
    alloc: Global,
    sought: Box<Sought<'a>>,
    head: &'a Exp,
    items: &'a Items,
    room: u32,
) -> Result<Progress<'a, CallAfter<'a>>, ElabFault> {
    let Sought { env, want, source } = Box::into_inner(sought);
    let place = env.place(source.at);
    let given = inputs(alloc, &env, items)?;
    match head_of_call(alloc, &env, head, items.items.first(), room)? {
        Some(known) => {
            let call = call_of(alloc, &env, place, known, given)?;
            run(alloc, call, want, room)
        }
        None => {
            let rest = HeadRest {
                env,
                want,
                place,
                given,
            };
            ask_head(alloc, rest, head, room)
        }
    }
}

/// Asks for the head of a call.
fn ask_head<'a>(
    alloc: Global,
    rest: HeadRest<'a>,
    head: &'a Exp,
    room: u32,
) -> Result<Progress<'a, CallAfter<'a>>, ElabFault> {
    let part = term(alloc, rest.env.share()?, Want::Choose, head)?;
    let after = CallAfter::Head(on_heap(alloc, rest)?);
    ask(alloc, after, part, below(room))
}

/// A call whose head is elaborated.
fn with_head<'a>(
    alloc: Global,
    rest: Box<HeadRest<'a>>,
    head: Outcome<'a>,
    room: u32,
) -> Result<Progress<'a, CallAfter<'a>>, ElabFault> {
    let HeadRest {
        env,
        want,
        place,
        given,
    } = Box::into_inner(rest);
    let Typed { exp, con } = Box::into_inner(settled(head)?);
    let call = call_of_term(alloc, &env, place, exp, con, given)?;
    run(alloc, call, want, room)
}

/// A call from its first argument on: its type is walked, and then what is left is found.
pub fn run<'a>(
    alloc: Global,
    call: Box<Call<'a>>,
    want: Want,
    room: u32,
) -> Result<Progress<'a, CallAfter<'a>>, ElabFault> {
    let mut call = call;
    let ended = pass_on(alloc, &mut call, room)?;
    let telling = Telling {
        call,
        want,
        ended,
        step: 0,
    };
    tell(alloc, telling, room)
}

/// Walks a call's type as far as that goes; says whether to its end.
fn pass_on(alloc: Global, call: &mut Call<'_>, room: u32) -> Result<bool, ElabFault> {
    let ended = walk(alloc, call, room)?;
    raise_all(alloc, call)?;
    Ok(ended)
}

/// Goes on where a walk stopped, now that all arguments so far told what they do; says whether to the end.
fn pass_further(alloc: Global, call: &mut Call<'_>, room: u32) -> Result<bool, ElabFault> {
    unstick(alloc, call)?;
    pass_on(alloc, call, room)
}

/// An argument that wasn't looked at yet, with its step.
#[derive(Drop)]
struct Untold<'a> {
    step: usize,
    new: New<'a>,
}

/// The first argument from a step on that wasn't looked at yet.
fn first_untold<'a>(
    alloc: Global,
    call: &Call<'a>,
    from: usize,
) -> Result<Option<Untold<'a>>, AllocError> {
    for step in from..call.steps.len() {
        match new_at(alloc, call, step)? {
            None => {}
            Some(new) => return Ok(Some(Untold { step, new })),
        }
    }
    Ok(None)
}

/// The arguments from a step on that weren't looked at yet, as far as they tell their type.
fn tell<'a>(
    alloc: Global,
    telling: Telling<'a>,
    room: u32,
) -> Result<Progress<'a, CallAfter<'a>>, ElabFault> {
    let Telling {
        call,
        want,
        ended,
        step,
    } = telling;
    let mut call = call;
    let mut ended = ended;
    let mut from = step;
    for _ in 0..ROUNDS {
        match first_untold(alloc, &call, from)? {
            Some(untold) => return ask_argument(alloc, call, want, ended, untold, room),
            None => {}
        }
        match_all(alloc, &mut call)?;
        if ended {
            return settle(alloc, call, want, room);
        }
        ended = pass_further(alloc, &mut call, room)?;
        from = 0;
    }
    Err(ElabFault::Memory)
}

/// Asks for an argument that wasn't looked at yet.
fn ask_argument<'a>(
    alloc: Global,
    call: Box<Call<'a>>,
    want: Want,
    ended: bool,
    untold: Untold<'a>,
    room: u32,
) -> Result<Progress<'a, CallAfter<'a>>, ElabFault> {
    let Untold { step, new } = untold;
    let New {
        source,
        want: wanted,
    } = new;
    let part = term(alloc, call.env.share()?, wanted, source)?;
    let telling = Telling {
        call,
        want,
        ended,
        step,
    };
    ask(
        alloc,
        CallAfter::Told(on_heap(alloc, telling)?),
        part,
        below(room),
    )
}

/// A call one of whose arguments was looked at.
fn told<'a>(
    alloc: Global,
    telling: Box<Telling<'a>>,
    outcome: Outcome<'a>,
    room: u32,
) -> Result<Progress<'a, CallAfter<'a>>, ElabFault> {
    let Telling {
        call,
        want,
        ended,
        step,
    } = Box::into_inner(telling);
    let mut call = call;
    put(&mut call, step, outcome);
    let telling = Telling {
        call,
        want,
        ended,
        step: step.saturating_add(1),
    };
    tell(alloc, telling, room)
}

/// What is left of a call: its result is matched with the wanted type, and the other arguments come, each when its
/// wanted type is known.
pub fn settle<'a>(
    alloc: Global,
    call: Box<Call<'a>>,
    want: Want,
    room: u32,
) -> Result<Progress<'a, CallAfter<'a>>, ElabFault> {
    if room == 0 {
        return Err(ElabFault::Memory);
    }
    let mut call = call;
    let clash = begin_settling(alloc, &mut call, &want)?;
    settle_on(alloc, call, want, clash, room)
}

/// Matches a call's result with the wanted type; gives what differs.
fn begin_settling(
    alloc: Global,
    call: &mut Call<'_>,
    want: &Want,
) -> Result<Option<Refusal>, ElabFault> {
    begin(alloc, call, want)?;
    raise_all(alloc, call)?;
    Ok(match_result(alloc, call, want)?)
}

/// The open argument that comes next, or the end of the call.
fn settle_on<'a>(
    alloc: Global,
    call: Box<Call<'a>>,
    want: Want,
    clash: Option<Refusal>,
    room: u32,
) -> Result<Progress<'a, CallAfter<'a>>, ElabFault> {
    let mut call = call;
    match next(alloc, &mut call, &want, room)? {
        None => Ok(Progress::Ended(finish(alloc, call, &want, clash, room)?)),
        Some(next) => {
            let part = Part::Open(next.pending, next.want);
            let settling = Settling {
                call,
                want,
                clash,
                step: next.step,
            };
            ask(
                alloc,
                CallAfter::Settled(on_heap(alloc, settling)?),
                part,
                below(room),
            )
        }
    }
}

/// A call one of whose open arguments came.
fn settled_argument<'a>(
    alloc: Global,
    settling: Box<Settling<'a>>,
    outcome: Outcome<'a>,
    room: u32,
) -> Result<Progress<'a, CallAfter<'a>>, ElabFault> {
    let Settling {
        call,
        want,
        clash,
        step,
    } = Box::into_inner(settling);
    let mut call = call;
    put(&mut call, step, outcome);
    match_all(alloc, &mut call)?;
    settle_on(alloc, call, want, clash, room)
}

/// Matches the result of a call with the wanted type; what differs is told only where something stays open.
fn match_result(
    alloc: Global,
    call: &mut Call<'_>,
    want: &Want,
) -> Result<Option<Refusal>, AllocError> {
    match want {
        Want::Whole(c) => match match_type(alloc, &mut *call.found, &*call.rest, c)? {
            Match::Refused(refusal) => Ok(Some(refusal)),
            _ => Ok(None),
        },
        Want::Page(c, u) => match_page(alloc, &mut *call.found, &*call.rest, c, u),
        _ => Ok(None),
    }
}

//! The recursion: a term and the parts that it asks for.
//!
//! Each form has a loop of its own, so that no function has to know the states of all forms.
use call_forms::{CallAfter, calls, of_call, of_name, run, settle};
use chain_forms::{ChainAfter, chains, of_chain};
use con_terms::Con;
use name_scopes::ElabFault;
use open_terms::{Core, Env, Outcome, Pending, Typed, Want};
use page_forms::{PageAfter, literals, of_page, of_xml};
use plain_forms::{
    FrameAfter, LetAfter, frames, lets, of_case, of_fn, of_fn_rest, of_let, of_typed, reopened,
};
use plain_tree::{Exp, Form};
use record_forms::{RecordAfter, of_record, of_record_rest, records};
use std::alloc::Global;
use term_parts::{Asked, Part, Progress, Sought, innermost, leaf, settled, too_deep, wanted_term};

/// A term of the source as a term of the explicit language, with its type. It and what it is built of nest at most
/// `room` deep; what would nest deeper counts as want of memory.
pub fn elaborate_term(
    alloc: Global,
    env: Env,
    wanted: Option<&Con>,
    e: &Exp,
    room: u32,
) -> Result<Box<Typed>, ElabFault> {
    settled(elab(alloc, wanted_term(alloc, env, wanted, e)?, room)?)
}

/// A part, as far as it can be elaborated where this is known of its type. Each part that it asks for has fewer
/// levels.
#[cycle(elab)]
pub fn elab<'a>(alloc: Global, part: Part<'a>, room: u32) -> Result<Outcome<'a>, ElabFault> {
    match part {
        Part::Term(sought) => of_term(alloc, sought, room),
        Part::Open(pending, want) => of_open(alloc, pending, want, room),
        Part::Call(call, want) => call_to_end(alloc, run(alloc, call, want, room)?, room),
    }
}

/// A part, for which so many levels are left.
#[cycle(elab)]
fn below<'a>(
    alloc: Global,
    part: Part<'a>,
    level: u32,
    room: u32,
) -> Result<Outcome<'a>, ElabFault> {
    if level >= room {
        return too_deep(part);
    }
    elab(alloc, part, level)
}

/// A term by its form.
#[cycle(elab)]
fn of_term<'a>(
    alloc: Global,
    sought: Box<Sought<'a>>,
    room: u32,
) -> Result<Outcome<'a>, ElabFault> {
    if room == 0 {
        return too_deep(Part::Term(sought));
    }
    let source = sought.source;
    match &source.form {
        Form::Int(_) | Form::Words(_) | Form::Sql(_, _) => leaf(alloc, sought),
        Form::Name(_, _) | Form::Builder(_, _) | Form::Basis(_) => {
            call_to_end(alloc, of_name(alloc, sought, room)?, room)
        }
        Form::Call(head, items) => {
            call_to_end(alloc, of_call(alloc, sought, head, items, room)?, room)
        }
        Form::Fn(args, body) => {
            frame_to_end(alloc, of_fn(alloc, sought, args, body, room)?, room)
        }
        Form::Case(scrutinee, first, rest) => {
            frame_to_end(
                alloc,
                of_case(alloc, sought, scrutinee, first, rest, room)?,
                room,
            )
        }
        Form::Let(locals, body) => {
            let_to_end(alloc, of_let(alloc, sought, locals, body, room)?, room)
        }
        Form::Typed(inner, c) => {
            let_to_end(alloc, of_typed(alloc, sought, inner, c, room)?, room)
        }
        Form::Rec(fields) => { record_to_end(alloc, of_record(alloc, sought, fields, room)?, room) }
        Form::Chain(first, links) => {
            chain_to_end(alloc, of_chain(alloc, sought, first, links, room)?, room)
        }
        Form::Xml(nodes) => page_to_end(alloc, of_xml(alloc, sought, nodes, room)?, room),
    }
}

/// A term that was open, now that more is known of its type: the open part first, where something stands around it.
#[cycle(elab)]
fn of_open<'a>(
    alloc: Global,
    pending: Box<Pending<'a>>,
    want: Want,
    room: u32,
) -> Result<Outcome<'a>, ElabFault> {
    if pending.frames.is_empty() {
        return of_core(alloc, innermost(pending), want, room);
    }
    frame_to_end(alloc, reopened(alloc, pending, want, room)?, room)
}

/// A part that was open, of which this is wanted now.
#[cycle(elab)]
fn of_core<'a>(
    alloc: Global,
    core: Core<'a>,
    want: Want,
    room: u32,
) -> Result<Outcome<'a>, ElabFault> {
    match core {
        Core::Fn(rest) => frame_to_end(alloc, of_fn_rest(alloc, rest, want, room)?, room),
        Core::Call(call) => call_to_end(alloc, settle(alloc, call, want, room)?, room),
        Core::Rec(rest) => record_to_end(alloc, of_record_rest(alloc, rest, want, room)?, room),
        Core::Page(rest) => page_to_end(alloc, of_page(alloc, rest, want, room)?, room),
    }
}

/// A name or a call to its end.
#[cycle(elab)]
#[inline(never)]
fn call_to_end<'a>(
    alloc: Global,
    begun: Progress<'a, CallAfter<'a>>,
    room: u32,
) -> Result<Outcome<'a>, ElabFault> {
    let mut progress = begun;
    for _ in 0..u32::MAX {
        match progress {
            Progress::Ended(outcome) => return Ok(outcome),
            Progress::Asks(asked) => {
                let Asked { after, part, level } = Box::into_inner(asked);
                progress = calls::go_on(alloc, after, below(alloc, part, level, room), room)?;
            }
        }
    }
    Err(calls::endless(progress))
}

/// What stands inside of frames, the body of a function too, to its end.
#[cycle(elab)]
#[inline(never)]
fn frame_to_end<'a>(
    alloc: Global,
    begun: Progress<'a, FrameAfter<'a>>,
    room: u32,
) -> Result<Outcome<'a>, ElabFault> {
    let mut progress = begun;
    for _ in 0..u32::MAX {
        match progress {
            Progress::Ended(outcome) => return Ok(outcome),
            Progress::Asks(asked) => {
                let Asked { after, part, level } = Box::into_inner(asked);
                progress = frames::go_on(alloc, after, below(alloc, part, level, room), room)?;
            }
        }
    }
    Err(frames::endless(progress))
}

/// A `let`, or a term with its type, to its end.
#[cycle(elab)]
#[inline(never)]
fn let_to_end<'a>(
    alloc: Global,
    begun: Progress<'a, LetAfter<'a>>,
    room: u32,
) -> Result<Outcome<'a>, ElabFault> {
    let mut progress = begun;
    for _ in 0..u32::MAX {
        match progress {
            Progress::Ended(outcome) => return Ok(outcome),
            Progress::Asks(asked) => {
                let Asked { after, part, level } = Box::into_inner(asked);
                progress = lets::go_on(alloc, after, below(alloc, part, level, room), room)?;
            }
        }
    }
    Err(lets::endless(progress))
}

/// A record to its end.
#[cycle(elab)]
#[inline(never)]
fn record_to_end<'a>(
    alloc: Global,
    begun: Progress<'a, RecordAfter<'a>>,
    room: u32,
) -> Result<Outcome<'a>, ElabFault> {
    let mut progress = begun;
    for _ in 0..u32::MAX {
        match progress {
            Progress::Ended(outcome) => return Ok(outcome),
            Progress::Asks(asked) => {
                let Asked { after, part, level } = Box::into_inner(asked);
                progress = records::go_on(alloc, after, below(alloc, part, level, room), room)?;
            }
        }
    }
    Err(records::endless(progress))
}

/// A chain to its end.
#[cycle(elab)]
#[inline(never)]
fn chain_to_end<'a>(
    alloc: Global,
    begun: Progress<'a, ChainAfter<'a>>,
    room: u32,
) -> Result<Outcome<'a>, ElabFault> {
    let mut progress = begun;
    for _ in 0..u32::MAX {
        match progress {
            Progress::Ended(outcome) => return Ok(outcome),
            Progress::Asks(asked) => {
                let Asked { after, part, level } = Box::into_inner(asked);
                progress = chains::go_on(alloc, after, below(alloc, part, level, room), room)?;
            }
        }
    }
    Err(chains::endless(progress))
}

/// A literal of pages to its end.
#[cycle(elab)]
#[inline(never)]
fn page_to_end<'a>(
    alloc: Global,
    begun: Progress<'a, PageAfter<'a>>,
    room: u32,
) -> Result<Outcome<'a>, ElabFault> {
    let mut progress = begun;
    for _ in 0..u32::MAX {
        match progress {
            Progress::Ended(outcome) => return Ok(outcome),
            Progress::Asks(asked) => {
                let Asked { after, part, level } = Box::into_inner(asked);
                progress = literals::go_on(alloc, after, below(alloc, part, level, room), room)?;
            }
        }
    }
    Err(literals::endless(progress))
}

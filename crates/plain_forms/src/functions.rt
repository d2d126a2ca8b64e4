//! Functions, parameter by parameter.
use crate::frames::{Around, FrameAfter};
use name_scopes::ElabFault;
use open_terms::{Core, Env, FnRest, Frame, Outcome, Pending, Want, add, on_heap, under};
use plain_tree::{Args, Exp};
use std::alloc::{AllocError, Global};
use term_parts::{Entered, Progress, Sought, ask, enter, term};

/// `fn .. => e`
pub fn of_fn<'a>(
    alloc: Global,
    sought: Box<Sought<'a>>,
    args: &'a Args,
    body: &'a Exp,
    room: u32,
) -> Result<Progress<'a, FrameAfter<'a>>, ElabFault> {
    let Sought { env, want, source } = Box::into_inner(sought);
    let place = env.place(source.at);
    let rest = FnRest {
        env,
        place,
        args,
        from: 0,
        body,
    };
    parameters(alloc, rest, want, room)
}

/// `fn .. => e`, from the parameter on that was open.
pub fn of_fn_rest<'a>(
    alloc: Global,
    rest: Box<FnRest<'a>>,
    want: Want,
    room: u32,
) -> Result<Progress<'a, FrameAfter<'a>>, ElabFault> {
    parameters(alloc, Box::into_inner(rest), want, room)
}

/// Parameters, as far as their types are known; behind the last one the body comes.
fn parameters<'a>(
    alloc: Global,
    rest: FnRest<'a>,
    want: Want,
    room: u32,
) -> Result<Progress<'a, FrameAfter<'a>>, ElabFault> {
    let FnRest {
        env,
        place,
        args,
        from,
        body,
    } = rest;
    let mut env = env;
    let mut want = want;
    let mut frames = Vec::new(alloc);
    for i in from..args.items.len() {
        match enter(alloc, &env, place, &args.items[i], &want, room)? {
            None => {
                let rest = FnRest {
                    env,
                    place,
                    args,
                    from: i,
                    body,
                };
                return Ok(Progress::Ended(open_at(alloc, frames, rest)?));
            }
            Some(entered) => {
                let Entered {
                    env: inner,
                    frame,
                    want: wanted,
                } = entered;
                env = inner;
                want = wanted;
                add(&mut frames, frame)?;
            }
        }
    }
    ask_body(alloc, frames, env, want, body, room)
}

/// A function that is open at a parameter.
fn open_at<'a>(
    alloc: Global,
    frames: Vec<Frame<'a>>,
    rest: FnRest<'a>,
) -> Result<Outcome<'a>, AllocError> {
    let pending = Pending {
        frames: Vec::new(alloc),
        core: Core::Fn(on_heap(alloc, rest)?),
    };
    under(alloc, frames, on_heap(alloc, pending)?)
}

/// Asks for the body of a function, which stands as many levels deeper as there are parameters.
fn ask_body<'a>(
    alloc: Global,
    frames: Vec<Frame<'a>>,
    env: Env,
    want: Want,
    body: &'a Exp,
    room: u32,
) -> Result<Progress<'a, FrameAfter<'a>>, ElabFault> {
    if frames.is_empty() || frames.len() >= room as usize {
        return Err(ElabFault::Memory);
    }
    let left = room - frames.len() as u32;
    let part = term(alloc, env, want, body)?;
    let around = Around { frames, left };
    ask(
        alloc,
        FrameAfter::Around(on_heap(alloc, around)?),
        part,
        left,
    )
}

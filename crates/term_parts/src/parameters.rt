//! Parameters of functions.
use crate::patterns::{own_type, pattern, with_bound};
use con_terms::{Con, Kind, Place, copy_con, copy_kind};
use name_scopes::ElabFault;
use open_terms::{
    Env, Frame, Side, Want, after_con, after_guard, after_term, any_function, copy_want, head_of,
    kept, not_wanted, on_heap,
};
use plain_tree::Arg;
use std::alloc::{AllocError, Global};

/// A parameter that is bound: the scope of what is behind it, what stands around that, and what is wanted of it.
#[derive(Drop)]
pub struct Entered<'a> {
    pub env: Env,
    pub frame: Frame<'a>,
    pub want: Want,
}

/// The type of the parameter of a wanted function; none where it may be known later.
fn wanted_parameter(
    alloc: Global,
    env: &Env,
    function: Place,
    binder: Place,
    want: &Want,
) -> Result<Option<Con>, ElabFault> {
    match want {
        Want::Free | Want::Page(_, _) => Ok(None),
        Want::Choose => Err(ElabFault::Unsolved(binder)),
        Want::Takes(a, _) => Ok(Some(kept(alloc, copy_con(alloc, a)?)?)),
        Want::Whole(c) => match head_of(alloc, c)? {
            Some(Con::Arrow(a, _)) => Ok(Some(kept(alloc, Box::into_inner(a))?)),
            _ => {
                let found = any_function(alloc)?;
                Err(not_wanted(alloc, env, function, c, found)?)
            }
        },
    }
}

/// A pattern as a parameter; none where its type may be known later.
#[inline(never)]
fn enter_pattern<'a>(
    alloc: Global,
    env: &Env,
    function: Place,
    p: &'a plain_tree::Pat,
    want: &Want,
    room: u32,
) -> Result<Option<Entered<'a>>, ElabFault> {
    let told = own_type(alloc, env, p, room)?;
    let con = match told {
        Some(con) => con,
        None => match wanted_parameter(alloc, env, function, env.place(p.at), want)? {
            Some(con) => con,
            None => return Ok(None),
        },
    };
    let mut bound = Vec::new(alloc);
    let con = on_heap(alloc, con)?;
    let pat = pattern(alloc, env, p, &con, &mut bound, room)?;
    let inner = with_bound(alloc, env, bound)?;
    let want = after_term(alloc, want)?;
    Ok(Some(Entered {
        env: inner,
        frame: Frame::Fn(function, pat, con),
        want,
    }))
}

/// A constructor as a parameter.
#[inline(never)]
fn enter_con<'a>(
    alloc: Global,
    env: &Env,
    function: Place,
    arg: &Arg,
    want: &Want,
) -> Result<Option<Entered<'a>>, ElabFault> {
    match arg {
        Arg::Con(_, implicit, written, name, kind) => {
            let symbol = env.symbol(&name.text)?;
            let inner = env.with_con(alloc, &name.text, kind)?;
            let want = after_con(alloc, want)?;
            let kind = on_heap(alloc, copy_kind(alloc, kind)?)?;
            Ok(Some(Entered {
                env: inner,
                frame: Frame::FnCon(function, symbol, *implicit, *written, kind),
                want,
            }))
        }
        _ => Ok(None),
    }
}

/// A guard as a parameter.
#[inline(never)]
fn enter_guard<'a>(
    alloc: Global,
    env: &Env,
    function: Place,
    left: &plain_tree::Con,
    right: &plain_tree::Con,
    want: &Want,
    room: u32,
) -> Result<Option<Entered<'a>>, ElabFault> {
    let left = env.con_and_kind(alloc, left, room)?;
    let right = env.con_and_kind(alloc, right, room)?;
    let inner = env.with_guard(alloc, &left, &right, function)?;
    let want = after_guard(alloc, want)?;
    let Side { con: left, kind: _ } = left;
    let left = on_heap(alloc, left)?;
    let Side {
        con: right,
        kind: _,
    } = right;
    let right = on_heap(alloc, right)?;
    Ok(Some(Entered {
        env: inner,
        frame: Frame::FnGuard(function, left, right),
        want,
    }))
}

/// A parameter of a function at a place; none where its type may be known later.
#[inline(never)]
pub fn enter<'a>(
    alloc: Global,
    env: &Env,
    function: Place,
    arg: &'a Arg,
    want: &Want,
    room: u32,
) -> Result<Option<Entered<'a>>, ElabFault> {
    match arg {
        Arg::Pat(p) => enter_pattern(alloc, env, function, p, want, room),
        Arg::Con(_, _, _, _, _) => enter_con(alloc, env, function, arg, want),
        Arg::Guard(_, left, right) => enter_guard(alloc, env, function, left, right, want, room),
    }
}

/// What is wanted inside of frames, the outermost first.
#[inline(never)]
pub fn want_inside(alloc: Global, frames: &Vec<Frame<'_>>, want: &Want) -> Result<Want, ElabFault> {
    let mut inside = copy_want(alloc, want)?;
    for i in 0..frames.len() {
        match &frames[i] {
            Frame::Fn(_, _, _) => inside = after_term(alloc, &inside)?,
            Frame::FnCon(_, _, _, _, _) => inside = after_con(alloc, &inside)?,
            Frame::FnGuard(_, _, _) => inside = after_guard(alloc, &inside)?,
            Frame::Let(_, _) | Frame::Case(_) => {}
        }
    }
    Ok(inside)
}

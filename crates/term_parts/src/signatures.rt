//! The type of a function as far as it is written, which its own group sees.
use crate::patterns::own_type;
use con_terms::{Con, Kind, copy_kind};
use name_scopes::ElabFault;
use open_terms::{Env, Side, add, on_heap};
use plain_tree::{Arg, Args, Exp, Form};
use std::alloc::{AllocError, Global};
use type_makers::{arrow, guarded, poly};

/// What a parameter adds to the type of what is behind it.
#[derive(Drop)]
enum Parameter {
    Term(Box<Con>),
    Con(bool, Box<Kind>),
    Guard(Box<Con>, Box<Con>),
}

/// A parameter's part, with the scope behind it; none where its type isn't written.
fn part(
    alloc: Global,
    env: &Env,
    at: u32,
    arg: &Arg,
    room: u32,
) -> Result<Option<(Parameter, Env)>, ElabFault> {
    match arg {
        Arg::Pat(p) => match own_type(alloc, env, p, room)? {
            None => Ok(None),
            Some(con) => {
                let part = Parameter::Term(on_heap(alloc, con)?);
                Ok(Some((part, env.share()?)))
            }
        },
        Arg::Con(_, implicit, _, name, kind) => {
            let inner = env.with_con(alloc, &name.text, kind)?;
            let kind = on_heap(alloc, copy_kind(alloc, kind)?)?;
            Ok(Some((Parameter::Con(*implicit, kind), inner)))
        }
        Arg::Guard(_, left, right) => {
            let left = env.con_and_kind(alloc, left, room)?;
            let right = env.con_and_kind(alloc, right, room)?;
            let inner = env.with_guard(alloc, &left, &right, env.place(at))?;
            let Side { con: left, kind: _ } = left;
            let left = on_heap(alloc, left)?;
            let Side {
                con: right,
                kind: _,
            } = right;
            let right = on_heap(alloc, right)?;
            Ok(Some((Parameter::Guard(left, right), inner)))
        }
    }
}

/// The parts of parameters, with the scope behind them; none where the type of one isn't written.
fn parts_of(
    alloc: Global,
    env: &Env,
    at: u32,
    args: &Args,
    room: u32,
) -> Result<Option<(Vec<Parameter>, Env)>, ElabFault> {
    let mut parts = Vec::new(alloc);
    let mut inner = env.share()?;
    for i in 0..args.items.len() {
        match part(alloc, &inner, at, &args.items[i], room)? {
            None => return Ok(None),
            Some((part, next)) => {
                add(&mut parts, part)?;
                inner = next;
            }
        }
    }
    Ok(Some((parts, inner)))
}

/// A part before a type.
fn before(alloc: Global, part: Parameter, con: Con) -> Result<Con, AllocError> {
    match part {
        Parameter::Term(t) => arrow(alloc, Box::into_inner(t), con),
        Parameter::Con(implicit, kind) => poly(alloc, implicit, Box::into_inner(kind), con),
        Parameter::Guard(left, right) => {
            guarded(alloc, Box::into_inner(left), Box::into_inner(right), con)
        }
    }
}

/// Parts, the outermost first, before a type.
fn before_all(alloc: Global, parts: Vec<Parameter>, con: Con) -> Result<Con, AllocError> {
    let mut parts = parts;
    let mut con = con;
    'builds: while let Some(part) = parts.pop() {
        con = before(alloc, part, con)?;
    }
    Ok(con)
}

/// The type of a term as far as it is written: that of `(e : t)`, and of `fn` over written parameters and such a body;
/// none where something of it is open.
#[cycle(signature_of)]
pub fn signature_of(
    alloc: Global,
    env: &Env,
    e: &Exp,
    room: u32,
) -> Result<Option<Con>, ElabFault> {
    if room == 0 {
        return Err(ElabFault::Memory);
    }
    match &e.form {
        Form::Typed(_, c) => Ok(Some(env.con(alloc, c, &Kind::Types, room - 1)?)),
        Form::Fn(args, body) => match parts_of(alloc, env, e.at, args, room)? {
            None => Ok(None),
            Some((parts, inner)) => match signature_of(alloc, &inner, body, room - 1)? {
                None => Ok(None),
                Some(con) => Ok(Some(before_all(alloc, parts, con)?)),
            },
        },
        _ => Ok(None),
    }
}

/// The type of a term as far as it is written, in a scope that ends with it.
pub fn signature_within(
    alloc: Global,
    env: Env,
    e: &Exp,
    room: u32,
) -> Result<Option<Con>, ElabFault> {
    signature_of(alloc, &env, e, room)
}

//! The two sides of an operator that is no call, and the other links of chains.
use con_terms::{Con, Kind, Place};
use core_terms::{Branch, Exp, Form};
use name_scopes::{ElabFault, KnownBuilder};
use open_terms::{
    Env, Outcome, Typed, Want, boxed_copy, done, joined, left_out, node, on_heap, operator,
    projected, row_left_out, whole,
};
use plain_tree::{BasisBuilder, Infix, Link};
use std::alloc::{AllocError, Global};
use term_parts::{bare_branch, settled, two_branches};
use type_makers::bool_type;

/// What is wanted of what stands before a link: nothing yet where it is an operand, else nothing.
pub fn left_want(link: Option<&Link>) -> Want {
    match link {
        Some(Link::Infix(_, infix, _)) => match operator(*infix) {
            Some(_) => Want::Free,
            None => Want::Choose,
        },
        _ => Want::Choose,
    }
}

/// What is wanted of the right side of an operator that is no call.
pub fn right_want(alloc: Global, want: &Want, infix: Infix) -> Result<Want, AllocError> {
    match want {
        Want::Whole(c) => match infix {
            Infix::And | Infix::Or => Ok(Want::Whole(boxed_copy(alloc, c)?)),
            _ => Ok(Want::Choose),
        },
        _ => match infix {
            Infix::Or => whole(alloc, bool_type()),
            _ => Ok(Want::Choose),
        },
    }
}

/// `e && d`, `e || d`, `e ++ d`
pub fn two_sides<'a>(
    alloc: Global,
    env: &Env,
    place: Place,
    at: Place,
    infix: Infix,
    left: Box<Typed>,
    right: Box<Typed>,
) -> Result<Outcome<'a>, ElabFault> {
    match infix {
        Infix::And => both(alloc, env, place, at, left, right),
        Infix::Or => either(alloc, env, place, at, left, right),
        _ => concatenated(alloc, env, place, left, right),
    }
}

/// A truth value.
fn truth(alloc: Global, env: &Env, at: Place, value: BasisBuilder) -> Result<Box<Exp>, AllocError> {
    let KnownBuilder {
        datatype,
        index,
        ..
    } = env.scope.basis_builder(alloc, value)?;
    node(alloc, at, Form::Build(datatype, index))
}

/// The type of a truth value.
fn truth_type(alloc: Global, env: &Env, value: BasisBuilder) -> Result<Con, AllocError> {
    let KnownBuilder { con, .. } = env.scope.basis_builder(alloc, value)?;
    Ok(con)
}

/// A branch for a truth value.
fn truth_branch(
    alloc: Global,
    env: &Env,
    at: Place,
    value: BasisBuilder,
    body: Box<Exp>,
) -> Result<Box<Branch>, AllocError> {
    let known = env.scope.basis_builder(alloc, value)?;
    bare_branch(alloc, at, &known, body)
}

/// `case e of True => d | False => False`
fn conjunction(
    alloc: Global,
    env: &Env,
    place: Place,
    at: Place,
    test: Box<Exp>,
    exp: Box<Exp>,
) -> Result<Box<Exp>, AllocError> {
    let first = truth_branch(alloc, env, at, BasisBuilder::True, exp)?;
    let failed = truth(alloc, env, at, BasisBuilder::False)?;
    let second = truth_branch(alloc, env, at, BasisBuilder::False, failed)?;
    two_branches(alloc, place, test, first, second)
}

/// `case e of True => True | False => d`
fn disjunction(
    alloc: Global,
    env: &Env,
    place: Place,
    at: Place,
    test: Box<Exp>,
    exp: Box<Exp>,
) -> Result<Box<Exp>, AllocError> {
    let held = truth(alloc, env, at, BasisBuilder::True)?;
    let first = truth_branch(alloc, env, at, BasisBuilder::True, held)?;
    let second = truth_branch(alloc, env, at, BasisBuilder::False, exp)?;
    two_branches(alloc, place, test, first, second)
}

/// `e && d`
fn both<'a>(
    alloc: Global,
    env: &Env,
    place: Place,
    at: Place,
    left: Box<Typed>,
    right: Box<Typed>,
) -> Result<Outcome<'a>, ElabFault> {
    let Typed { exp: test, con: _ } = Box::into_inner(left);
    let Typed { exp, con } = Box::into_inner(right);
    let exp = conjunction(alloc, env, place, at, test, exp)?;
    Ok(done(alloc, exp, con)?)
}

/// `e || d`
fn either<'a>(
    alloc: Global,
    env: &Env,
    place: Place,
    at: Place,
    left: Box<Typed>,
    right: Box<Typed>,
) -> Result<Outcome<'a>, ElabFault> {
    let Typed { exp: test, con: _ } = Box::into_inner(left);
    let Typed { exp, con: _ } = Box::into_inner(right);
    let exp = disjunction(alloc, env, place, at, test, exp)?;
    let con = truth_type(alloc, env, BasisBuilder::True)?;
    Ok(done(alloc, exp, con)?)
}

/// `e ++ d`
fn concatenated<'a>(
    alloc: Global,
    env: &Env,
    place: Place,
    left: Box<Typed>,
    right: Box<Typed>,
) -> Result<Outcome<'a>, ElabFault> {
    let from = left.exp.place;
    let to = right.exp.place;
    let con = joined(alloc, env, from, &left.con, to, &right.con)?;
    let Typed { exp: first, con: _ } = Box::into_inner(left);
    let Typed {
        exp: second,
        con: _,
    } = Box::into_inner(right);
    let exp = node(alloc, place, Form::Cat(first, second))?;
    Ok(done(alloc, exp, con)?)
}

/// `e.c`, `e -- c`, `e --- c`
pub fn other_link<'a>(
    alloc: Global,
    env: &Env,
    place: Place,
    left: Outcome<'a>,
    link: &Link,
    room: u32,
) -> Result<Outcome<'a>, ElabFault> {
    let left = settled(left)?;
    match link {
        Link::Field(c) => field(alloc, env, place, left, c, room),
        Link::Without(_, c) => without_field(alloc, env, place, left, c, room),
        Link::WithoutRow(_, c) => without_row(alloc, env, place, left, c, room),
        Link::Infix(_, _, _) => Err(ElabFault::Memory),
    }
}

/// `e.c`
fn field<'a>(
    alloc: Global,
    env: &Env,
    place: Place,
    left: Box<Typed>,
    c: &plain_tree::Con,
    room: u32,
) -> Result<Outcome<'a>, ElabFault> {
    let name = on_heap(alloc, env.con(alloc, c, &Kind::Names, room)?)?;
    let con = projected(alloc, env, place, left.exp.place, &left.con, &name)?;
    let Typed { exp, con: _ } = Box::into_inner(left);
    let exp = node(alloc, place, Form::Proj(exp, Box::into_inner(name)))?;
    Ok(done(alloc, exp, con)?)
}

/// `e -- c`
fn without_field<'a>(
    alloc: Global,
    env: &Env,
    place: Place,
    left: Box<Typed>,
    c: &plain_tree::Con,
    room: u32,
) -> Result<Outcome<'a>, ElabFault> {
    let name = on_heap(alloc, env.con(alloc, c, &Kind::Names, room)?)?;
    let con = left_out(alloc, env, place, left.exp.place, &left.con, &name)?;
    let Typed { exp, con: _ } = Box::into_inner(left);
    let exp = node(alloc, place, Form::Drop(exp, Box::into_inner(name)))?;
    Ok(done(alloc, exp, con)?)
}

/// `e --- c`
fn without_row<'a>(
    alloc: Global,
    env: &Env,
    place: Place,
    left: Box<Typed>,
    c: &plain_tree::Con,
    room: u32,
) -> Result<Outcome<'a>, ElabFault> {
    let kind = Kind::Row(on_heap(alloc, Kind::Types)?);
    let row = on_heap(alloc, env.con(alloc, c, &kind, room)?)?;
    let con = row_left_out(alloc, env, place, left.exp.place, &left.con, &row)?;
    let Typed { exp, con: _ } = Box::into_inner(left);
    let exp = node(alloc, place, Form::DropRow(exp, Box::into_inner(row)))?;
    Ok(done(alloc, exp, con)?)
}

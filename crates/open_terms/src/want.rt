//! What is known of the type of a term, and a term with its type.
use crate::memory::on_heap;
use crate::types::{boxed_head, wants_nothing};
use con_terms::{Con, copy_con};
use core_terms::Exp;
use name_scopes::ElabFault;
use std::alloc::{AllocError, Global};

/// A term with its type.
#[derive(Drop)]
pub struct Typed {
    pub exp: Box<Exp>,
    pub con: Con,
}

/// What is known of a wanted type.
#[cycle(want)]
#[derive(Drop)]
pub enum Want {
    /// Nothing yet; more may be known later.
    Free,
    /// Nothing, and no more will be known: contexts of pages are chosen.
    Choose,
    /// All of it.
    Whole(Box<Con>),
    /// That it is a function's, with this parameter.
    Takes(Box<Con>, Box<Want>),
    /// That it is a page's, with what is known of its context and of the fields filled before it.
    Page(Option<Box<Con>>, Option<Box<Con>>),
}

/// A copy of a constructor, on the heap.
pub fn boxed_copy(alloc: Global, c: &Con) -> Result<Box<Con>, AllocError> {
    on_heap(alloc, copy_con(alloc, c)?)
}

/// What is known where all of a type is.
pub fn whole(alloc: Global, c: Con) -> Result<Want, AllocError> {
    Ok(Want::Whole(on_heap(alloc, c)?))
}

/// A copy of what is known, if any.
fn copy_known(alloc: Global, known: &Option<Box<Con>>) -> Result<Option<Box<Con>>, AllocError> {
    match known {
        None => Ok(None),
        Some(c) => Ok(Some(boxed_copy(alloc, c)?)),
    }
}

/// A copy of what is known of a wanted type.
#[cycle(copy_want)]
pub fn copy_want(alloc: Global, want: &Want) -> Result<Want, AllocError> {
    match want {
        Want::Free => Ok(Want::Free),
        Want::Choose => Ok(Want::Choose),
        Want::Whole(c) => Ok(Want::Whole(boxed_copy(alloc, c)?)),
        Want::Takes(c, w) => {
            let con = boxed_copy(alloc, c)?;
            let rest = copy_want(alloc, w)?;
            Ok(Want::Takes(con, on_heap(alloc, rest)?))
        }
        Want::Page(c, u) => {
            let context = copy_known(alloc, c)?;
            Ok(Want::Page(context, copy_known(alloc, u)?))
        }
    }
}

/// Whether more may be known of a wanted type later.
pub fn may_grow(want: &Want) -> bool {
    match want {
        Want::Free | Want::Takes(_, _) | Want::Page(_, _) => true,
        Want::Choose | Want::Whole(_) => false,
    }
}

/// What is wanted of the result of a function of this type.
fn wanted_result(t: Box<Con>) -> Want {
    match Box::into_inner(t) {
        Con::Arrow(_, b) => Want::Whole(b),
        _ => Want::Choose,
    }
}

/// What is wanted of the body of a function of a constructor, of this type.
fn wanted_of_poly(t: Box<Con>) -> Want {
    match Box::into_inner(t) {
        Con::Poly(_, _, b) => Want::Whole(b),
        _ => Want::Choose,
    }
}

/// What is wanted of the body of a function of a guard's proof, of this type.
fn wanted_of_guarded(t: Box<Con>) -> Want {
    match Box::into_inner(t) {
        Con::Guarded(_, _, b) => Want::Whole(b),
        _ => Want::Choose,
    }
}

/// What is wanted of the result of a function of which this is wanted.
pub fn after_term(alloc: Global, want: &Want) -> Result<Want, ElabFault> {
    match want {
        Want::Free | Want::Page(_, _) => Ok(Want::Free),
        Want::Choose => Ok(Want::Choose),
        Want::Takes(_, w) => Ok(copy_want(alloc, w)?),
        Want::Whole(c) => match boxed_head(alloc, c)? {
            Some(t) => Ok(wanted_result(t)),
            None => Ok(Want::Choose),
        },
    }
}

/// What is wanted of the body of a function of a constructor.
pub fn after_con(alloc: Global, want: &Want) -> Result<Want, ElabFault> {
    match want {
        Want::Whole(c) => match boxed_head(alloc, c)? {
            Some(t) => Ok(wanted_of_poly(t)),
            None => Ok(Want::Choose),
        },
        _ => Ok(wants_nothing(want)),
    }
}

/// What is wanted of the body of a function of a guard's proof.
pub fn after_guard(alloc: Global, want: &Want) -> Result<Want, ElabFault> {
    match want {
        Want::Whole(c) => match boxed_head(alloc, c)? {
            Some(t) => Ok(wanted_of_guarded(t)),
            None => Ok(Want::Choose),
        },
        _ => Ok(wants_nothing(want)),
    }
}

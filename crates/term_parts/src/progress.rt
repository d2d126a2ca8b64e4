//! How far a term is: it ended, or it asks for a part before it goes on.
use con_terms::{Con, Place};
use core_terms::MOST_NESTED;
use name_scopes::ElabFault;
use open_terms::{
    Call, Core, Env, Outcome, Pending, Typed, Want, boxed_copy, number, on_heap, open_place, words,
};
use plain_tree::{Exp, Form};
use std::alloc::{AllocError, Global};

/// A term where it stands, and what is wanted of it.
#[derive(Drop)]
pub struct Sought<'a> {
    pub env: Env,
    pub want: Want,
    pub source: &'a Exp,
}

impl<'a> Sought<'a> {
    /// The place of the term.
    pub fn place(&self) -> Place {
        self.env.place(self.source.at)
    }
}

/// What is elaborated.
#[derive(Drop)]
pub enum Part<'a> {
    Term(Box<Sought<'a>>),
    /// A term that was open, and what is wanted of it now.
    Open(Box<Pending<'a>>, Want),
    /// A call from its first argument on, and what is wanted of it.
    Call(Box<Call<'a>>, Want),
}

/// A part that a term asks for, and how the term goes on with it. Each form has its own states `A`.
#[derive(Drop)]
pub struct Asked<'a, A> {
    pub after: A,
    pub part: Part<'a>,
    /// The number of levels that are left for the part.
    pub level: u32,
}

/// How far a term is.
#[derive(Drop)]
pub enum Progress<'a, A> {
    Ended(Outcome<'a>),
    Asks(Box<Asked<'a, A>>),
}

/// States of a form, which are among the states `B` too.
pub trait Becomes<B> {
    /// The same state among those.
    fn becomes(self) -> B;
}

/// Asks for a part, for which so many levels are left.
pub fn ask<'a, A: Drop>(
    alloc: Global,
    after: A,
    part: Part<'a>,
    level: u32,
) -> Result<Progress<'a, A>, ElabFault> {
    Ok(Progress::Asks(on_heap(alloc, Asked { after, part, level })?))
}

/// What a form gave, with its state among others.
pub fn raised<'a, A: Drop + Becomes<B>, B: Drop>(
    alloc: Global,
    progress: Progress<'a, A>,
) -> Result<Progress<'a, B>, ElabFault> {
    match progress {
        Progress::Ended(outcome) => Ok(Progress::Ended(outcome)),
        Progress::Asks(asked) => {
            let Asked { after, part, level } = Box::into_inner(asked);
            ask(alloc, after.becomes(), part, level)
        }
    }
}

/// A term as a part.
pub fn term<'a>(
    alloc: Global,
    env: Env,
    want: Want,
    source: &'a Exp,
) -> Result<Part<'a>, AllocError> {
    Ok(Part::Term(on_heap(alloc, Sought { env, want, source })?))
}

/// A term as a part, of which this type is wanted, or any.
pub fn wanted_term<'a>(
    alloc: Global,
    env: Env,
    wanted: Option<&Con>,
    source: &'a Exp,
) -> Result<Part<'a>, ElabFault> {
    let want = match wanted {
        None => Want::Choose,
        Some(c) => Want::Whole(boxed_copy(alloc, c)?),
    };
    Ok(term(alloc, env, want, source)?)
}

/// A number or a text. For any other form that asks for no part there are no rules yet.
pub fn leaf<'a>(alloc: Global, sought: Box<Sought<'a>>) -> Result<Outcome<'a>, ElabFault> {
    let source = sought.source;
    match &source.form {
        Form::Int(digits) => number(alloc, sought.place(), *digits),
        Form::Words(text) => words(alloc, sought.place(), text),
        _ => Err(ElabFault::NotBuilt(sought.place())),
    }
}

/// The part of a term that is open, where nothing stands around it.
pub fn innermost<'a>(pending: Box<Pending<'a>>) -> Core<'a> {
    let Pending { frames: _, core } = Box::into_inner(pending);
    core
}

/// A part that nests too deep, which counts as want of memory. It is let go here, and not by the caller.
pub fn too_deep<'a>(_part: Part<'a>) -> Result<Outcome<'a>, ElabFault> {
    Err(ElabFault::Memory)
}

/// One level less. Where none is left, no part is elaborated.
pub fn below(room: u32) -> u32 {
    room.saturating_sub(1)
}

/// A term whose type is known; else it is told where it is open.
pub fn settled(outcome: Outcome<'_>) -> Result<Box<Typed>, ElabFault> {
    match outcome {
        Outcome::Done(typed) => Ok(typed),
        Outcome::Later(pending) => Err(ElabFault::Unsolved(open_place(&pending, MOST_NESTED))),
    }
}

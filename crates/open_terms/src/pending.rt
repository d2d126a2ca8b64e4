//! Terms whose type isn't known yet, as far as they are elaborated.
//!
//! What is large stands behind a `Box`: a function pays for each large value that it owns wherever it may fail.
use crate::env::Env;
use crate::memory::{on_heap, put_before};
use crate::want::Typed;
use con_terms::{Con, Kind, Place, Sym};
use core_terms::{ConOrigin, Exp, Locals, Pat, Sigil};
use std::alloc::{AllocError, Global};
use unknowns::Found;

/// What elaborating a term gave.
#[cycle(pending)]
#[derive(Drop)]
pub enum Outcome<'a> {
    Done(Box<Typed>),
    Later(Box<Pending<'a>>),
}

/// A term whose type isn't known yet.
#[cycle(pending)]
#[derive(Drop)]
pub struct Pending<'a> {
    /// What stands around the part that is open, the outermost first.
    pub frames: Vec<Frame<'a>>,
    pub core: Core<'a>,
}

/// The part of a term that is open.
#[cycle(pending)]
#[derive(Drop)]
pub enum Core<'a> {
    Fn(Box<FnRest<'a>>),
    Call(Box<Call<'a>>),
    Rec(Box<RecRest<'a>>),
    Page(Box<PageRest<'a>>),
}

/// A function whose next parameter has no type yet.
#[derive(Drop)]
pub struct FnRest<'a> {
    pub env: Env,
    pub place: Place,
    pub args: &'a plain_tree::Args,
    pub from: usize,
    pub body: &'a plain_tree::Exp,
}

/// A record with its fields in order.
#[cycle(pending)]
#[derive(Drop)]
pub struct RecRest<'a> {
    pub place: Place,
    pub fields: Vec<RecField<'a>>,
}

/// A field of a record.
#[cycle(pending)]
#[derive(Drop)]
pub struct RecField<'a> {
    pub place: Place,
    pub name: Box<Con>,
    pub value: Outcome<'a>,
}

/// An XML literal whose context isn't chosen yet.
#[derive(Drop)]
pub struct PageRest<'a> {
    pub env: Env,
    pub place: Place,
    pub nodes: &'a plain_tree::Nodes,
}

/// What stands around an open part.
#[derive(Drop)]
pub enum Frame<'a> {
    /// `fn p => ..`
    Fn(Place, Box<Pat>, Box<Con>),
    /// `fn [x :: k] => ..`
    FnCon(Place, Sym, bool, bool, Box<Kind>),
    /// `fn [c ~ d] => ..`
    FnGuard(Place, Box<Con>, Box<Con>),
    /// `let .. in ..`
    Let(Place, Locals),
    /// `case e of p => ..`, with the branches that are still to come.
    Case(Box<CaseRest<'a>>),
}

/// A `case` whose first branch is open.
#[derive(Drop)]
pub struct CaseRest<'a> {
    pub env: Env,
    pub place: Place,
    pub scrutinee: Box<Typed>,
    pub branch: Place,
    pub pat: Box<Pat>,
    pub rest: &'a plain_tree::Branches,
}

/// What a call is still to be applied to.
#[cycle(pending)]
#[derive(Drop)]
pub enum Input<'a> {
    Term(&'a plain_tree::Exp),
    /// A term that was elaborated before, at its place.
    Ready(Place, Outcome<'a>),
    Con(Place, &'a plain_tree::Con),
    Guard(Place),
    /// What was taken.
    Taken,
}

/// What a call is applied to.
#[cycle(pending)]
#[derive(Drop)]
pub enum Step<'a> {
    /// A constructor that is found: the unknown that was bound so many unknowns after the first.
    Unknown(Place, ConOrigin, u32),
    /// A constructor that is written.
    Con(Place, Box<Con>),
    /// A guard's proof, and whether it is inserted.
    Guard(Place, bool),
    /// A folder or an instance of this type, which is inserted.
    Implied(Pattern),
    Term(Box<Slot<'a>>),
}

/// A type with unknowns, as it is seen under so many of them.
#[derive(Drop)]
pub struct Pattern {
    pub con: Box<Con>,
    pub under: u32,
}

/// An argument with the type of its parameter.
#[cycle(pending)]
#[derive(Drop)]
pub struct Slot<'a> {
    pub place: Place,
    pub pattern: Pattern,
    pub argument: Argument<'a>,
    /// How much was known of its wanted type when it was tried last.
    pub tried: u32,
}

/// How far an argument is elaborated.
#[cycle(pending)]
#[derive(Drop)]
pub enum Argument<'a> {
    New(&'a plain_tree::Exp),
    Waiting(Box<Pending<'a>>),
    /// With its type, and whether that was matched.
    Known(Box<Typed>, bool),
    /// What was taken.
    Taken,
}

/// A call.
#[cycle(pending)]
#[derive(Drop)]
pub struct Call<'a> {
    pub env: Box<Env>,
    pub place: Place,
    pub head: Box<Exp>,
    /// What the source has before the head.
    pub sigil: Sigil,
    /// What the walk inserts: as behind this.
    pub inserts: Sigil,
    /// Whether it has no arguments, and its leading implicits weren't inserted yet.
    pub alone: bool,
    pub inputs: Vec<Input<'a>>,
    pub next: usize,
    pub steps: Vec<Step<'a>>,
    pub found: Box<Found>,
    /// The type that is left.
    pub rest: Box<Con>,
}

/// A term with its type.
pub fn done<'a>(alloc: Global, exp: Box<Exp>, con: Con) -> Result<Outcome<'a>, AllocError> {
    Ok(Outcome::Done(on_heap(alloc, Typed { exp, con })?))
}

/// An open part with nothing around it.
pub fn later<'a>(alloc: Global, core: Core<'a>) -> Result<Outcome<'a>, AllocError> {
    let frames = Vec::new(alloc);
    Ok(Outcome::Later(on_heap(alloc, Pending { frames, core })?))
}

/// What is open, with these around it.
pub fn under<'a>(
    _alloc: Global,
    outer: Vec<Frame<'a>>,
    pending: Box<Pending<'a>>,
) -> Result<Outcome<'a>, AllocError> {
    let mut pending = pending;
    put_before(&mut pending.frames, outer)?;
    Ok(Outcome::Later(pending))
}

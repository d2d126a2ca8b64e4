//! What stands around a term, put around it once the term is known; `case` goes on with its other branches then.
use con_terms::{Con, Place};
use core_terms::{Branch, Branches, Pat};
use name_scopes::ElabFault;
use open_terms::{
    CaseRest, Env, Frame, Outcome, Pending, Typed, Want, add, boxed_copy, on_heap, under,
};
use plain_tree::Exp;
use std::alloc::{AllocError, Global};
use std::mem::replace;
use term_parts::{
    Part, Progress, Sought, around_case, around_con, around_fn, around_guard, around_let, ask,
    below, pattern, settled, term, want_inside, with_bound,
};

/// What stands around a term, the outermost first, and the number of levels that were left inside of it.
#[derive(Drop)]
pub struct Around<'a> {
    pub frames: Vec<Frame<'a>>,
    pub left: u32,
}

/// A `case` before what it looks at.
#[derive(Drop)]
pub struct CaseStart<'a> {
    pub env: Env,
    pub want: Want,
    pub place: Place,
    pub first: &'a plain_tree::Branch,
    pub rest: &'a plain_tree::Branches,
}

/// A `case` whose first branch is known.
#[derive(Drop)]
pub struct Branching<'a> {
    pub around: Around<'a>,
    pub case: Box<CaseRest<'a>>,
    pub first: Box<Typed>,
    pub built: Branches,
    /// The branch that is looked at.
    pub head: BranchHead,
}

/// The place of a branch, and its pattern.
#[derive(Drop)]
pub struct BranchHead {
    pub place: Place,
    pub pat: Box<Pat>,
}

/// How a term goes on with what stands inside of frames, or with a part of a `case`.
#[derive(Drop)]
pub enum FrameAfter<'a> {
    /// What stands inside of frames.
    Around(Box<Around<'a>>),
    /// What a `case` looks at.
    Scrutinee(Box<CaseStart<'a>>),
    /// A branch of a `case` but the first.
    Branch(Box<Branching<'a>>),
}

/// Goes on with what a part gave. Where it is refused, so is the whole.
pub fn go_on<'a>(
    alloc: Global,
    after: FrameAfter<'a>,
    given: Result<Outcome<'a>, ElabFault>,
    room: u32,
) -> Result<Progress<'a, FrameAfter<'a>>, ElabFault> {
    let outcome = given?;
    match after {
        FrameAfter::Around(around) => {
            let Around { frames, left } = Box::into_inner(around);
            unwind(alloc, frames, outcome, left)
        }
        FrameAfter::Scrutinee(start) => scrutinized(alloc, start, outcome, room),
        FrameAfter::Branch(branching) => with_branch(alloc, branching, outcome),
    }
}

/// What never ends counts as want of memory. What it holds is let go here, where that is proved, and not by its caller.
pub fn endless(_progress: Progress<'_, FrameAfter<'_>>) -> ElabFault {
    ElabFault::Memory
}

/// A branch with its pattern matched.
#[derive(Drop)]
struct EnteredBranch {
    env: Env,
    head: BranchHead,
}

/// Matches the pattern of a branch.
fn enter_branch(
    alloc: Global,
    env: &Env,
    branch: &plain_tree::Branch,
    t: &Con,
    room: u32,
) -> Result<EnteredBranch, ElabFault> {
    let mut bound = Vec::new(alloc);
    let pat = pattern(alloc, env, &branch.pat, t, &mut bound, room)?;
    Ok(EnteredBranch {
        env: with_bound(alloc, env, bound)?,
        head: BranchHead {
            place: env.place(branch.at),
            pat,
        },
    })
}

/// `case e of p => e | ..`
pub fn of_case<'a>(
    alloc: Global,
    sought: Box<Sought<'a>>,
    scrutinee: &'a Exp,
    first: &'a plain_tree::Branch,
    rest: &'a plain_tree::Branches,
    room: u32,
) -> Result<Progress<'a, FrameAfter<'a>>, ElabFault> {
    let Sought { env, want, source } = Box::into_inner(sought);
    let part = term(alloc, env.share()?, Want::Choose, scrutinee)?;
    let place = env.place(source.at);
    let start = CaseStart {
        env,
        want,
        place,
        first,
        rest,
    };
    ask(
        alloc,
        FrameAfter::Scrutinee(on_heap(alloc, start)?),
        part,
        below(room),
    )
}

/// A `case` that knows what it looks at: its first branch comes next.
fn scrutinized<'a>(
    alloc: Global,
    start: Box<CaseStart<'a>>,
    outcome: Outcome<'a>,
    room: u32,
) -> Result<Progress<'a, FrameAfter<'a>>, ElabFault> {
    let CaseStart {
        env,
        want,
        place,
        first,
        rest,
    } = Box::into_inner(start);
    let scrutinee = settled(outcome)?;
    let entered = enter_branch(alloc, &env, first, &scrutinee.con, below(room))?;
    let EnteredBranch { env: inner, head } = entered;
    let part = term(alloc, inner, want, &first.body)?;
    let case = CaseRest {
        env,
        place,
        scrutinee,
        branch: head.place,
        pat: head.pat,
        rest,
    };
    let frame = Frame::Case(on_heap(alloc, case)?);
    ask_inside(alloc, frame, part, room)
}

/// Asks for what stands inside of a frame.
pub fn ask_inside<'a>(
    alloc: Global,
    frame: Frame<'a>,
    part: Part<'a>,
    room: u32,
) -> Result<Progress<'a, FrameAfter<'a>>, ElabFault> {
    let mut frames = Vec::new(alloc);
    add(&mut frames, frame)?;
    let around = Around { frames, left: room };
    ask(
        alloc,
        FrameAfter::Around(on_heap(alloc, around)?),
        part,
        below(room),
    )
}

/// A term that was open and has something around it: the open part first.
pub fn reopened<'a>(
    alloc: Global,
    pending: Box<Pending<'a>>,
    want: Want,
    room: u32,
) -> Result<Progress<'a, FrameAfter<'a>>, ElabFault> {
    let mut pending = pending;
    let frames = replace(&mut pending.frames, Vec::new(alloc));
    if frames.len() >= room as usize {
        return Err(ElabFault::Memory);
    }
    let left = room - frames.len() as u32;
    let inside = want_inside(alloc, &frames, &want)?;
    let around = on_heap(alloc, Around { frames, left })?;
    ask(
        alloc,
        FrameAfter::Around(around),
        Part::Open(pending, inside),
        left,
    )
}

/// Puts frames around what they were around, from the innermost on. A `case` goes on with its other branches, which
/// have one level less than `left`.
fn unwind<'a>(
    alloc: Global,
    frames: Vec<Frame<'a>>,
    outcome: Outcome<'a>,
    left: u32,
) -> Result<Progress<'a, FrameAfter<'a>>, ElabFault> {
    match outcome {
        Outcome::Later(pending) => Ok(Progress::Ended(under(alloc, frames, pending)?)),
        Outcome::Done(typed) => unwound(alloc, Around { frames, left }, typed),
    }
}

/// A term with what stands around it, up to the first `case` that has other branches.
fn unwound<'a>(
    alloc: Global,
    around: Around<'a>,
    typed: Box<Typed>,
) -> Result<Progress<'a, FrameAfter<'a>>, ElabFault> {
    let Around { frames, left } = around;
    let mut frames = frames;
    let mut typed = typed;
    for _ in 0..frames.len() {
        match frames.pop() {
            None => {}
            Some(frame) => match with_frame(alloc, frame, typed)? {
                Framed::Whole(more) => typed = more,
                Framed::Case(case, first) => {
                    let branches = Branches::new(alloc);
                    return ask_branch(alloc, Around { frames, left }, case, first, branches);
                }
            },
        }
    }
    Ok(Progress::Ended(Outcome::Done(typed)))
}

/// A term with one frame more around it; a `case` may want other branches before.
#[derive(Drop)]
enum Framed<'a> {
    Whole(Box<Typed>),
    Case(Box<CaseRest<'a>>, Box<Typed>),
}

/// Puts a frame around a term.
fn with_frame<'a>(
    alloc: Global,
    frame: Frame<'a>,
    typed: Box<Typed>,
) -> Result<Framed<'a>, AllocError> {
    match frame {
        Frame::Fn(place, pat, con) => Ok(Framed::Whole(around_fn(alloc, place, pat, con, typed)?)),
        Frame::FnCon(place, symbol, implicit, written, kind) => {
            let whole = around_con(alloc, place, symbol, implicit, written, kind, typed)?;
            Ok(Framed::Whole(whole))
        }
        Frame::FnGuard(place, left, right) => {
            Ok(Framed::Whole(around_guard(alloc, place, left, right, typed)?))
        }
        Frame::Let(place, locals) => Ok(Framed::Whole(around_let(alloc, place, locals, typed)?)),
        Frame::Case(case) => {
            if case.rest.items.is_empty() {
                let branches = Branches::new(alloc);
                let whole = around_case(alloc, Box::into_inner(case), typed, branches)?;
                return Ok(Framed::Whole(whole));
            }
            Ok(Framed::Case(case, typed))
        }
    }
}

/// Asks for the branch of a `case` that comes next, of which the type of the first is wanted.
fn ask_branch<'a>(
    alloc: Global,
    around: Around<'a>,
    case: Box<CaseRest<'a>>,
    first: Box<Typed>,
    built: Branches,
) -> Result<Progress<'a, FrameAfter<'a>>, ElabFault> {
    let rest = case.rest;
    let Some(branch) = rest.items.get(built.items.len()) else {
        return Err(ElabFault::Memory);
    };
    let level = below(around.left);
    let entered = enter_branch(alloc, &case.env, branch, &case.scrutinee.con, level)?;
    let want = Want::Whole(boxed_copy(alloc, &first.con)?);
    let EnteredBranch { env, head } = entered;
    let part = term(alloc, env, want, &branch.body)?;
    let branching = Branching {
        around,
        case,
        first,
        built,
        head,
    };
    ask(
        alloc,
        FrameAfter::Branch(on_heap(alloc, branching)?),
        part,
        level,
    )
}

/// A `case` with one branch more.
fn with_branch<'a>(
    alloc: Global,
    branching: Box<Branching<'a>>,
    outcome: Outcome<'a>,
) -> Result<Progress<'a, FrameAfter<'a>>, ElabFault> {
    let Branching {
        around,
        case,
        first,
        built,
        head,
    } = Box::into_inner(branching);
    let mut built = built;
    push_branch(&mut built, head, settled(outcome)?)?;
    if built.items.len() < case.rest.items.len() {
        return ask_branch(alloc, around, case, first, built);
    }
    let whole = around_case(alloc, Box::into_inner(case), first, built)?;
    unwound(alloc, around, whole)
}

/// Puts a branch last.
fn push_branch(built: &mut Branches, head: BranchHead, body: Box<Typed>) -> Result<(), AllocError> {
    let BranchHead { place, pat } = head;
    let Typed { exp, con: _ } = Box::into_inner(body);
    built.push(Branch {
        place,
        pat: Box::into_inner(pat),
        body: Box::into_inner(exp),
    })
}

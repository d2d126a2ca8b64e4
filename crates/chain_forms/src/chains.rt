//! A term, and what follows it from left to right.
use crate::sides::{left_want, other_link, right_want, two_sides};
use call_parts::{call_of, operands};
use con_terms::Place;
use core_terms::BasisName;
use name_scopes::ElabFault;
use open_terms::{Call, Env, Outcome, Typed, Want, copy_want, of_basis, on_heap, operator};
use plain_tree::{Exp, Infix, Link, Links};
use std::alloc::{AllocError, Global};
use term_parts::{Part, Progress, Sought, ask, below, settled, term};

/// A chain before one of its links.
#[derive(Drop)]
pub struct Chaining<'a> {
    pub env: Env,
    /// What is wanted of the whole chain.
    pub want: Want,
    pub place: Place,
    pub links: &'a Links,
    /// The number of the link.
    pub next: usize,
}

/// An operator that is no call, before its right side.
#[derive(Drop)]
pub struct RightRest<'a> {
    pub chaining: Box<Chaining<'a>>,
    pub left: Box<Typed>,
    pub at: Place,
    pub infix: Infix,
}

/// How a chain goes on with the part that it asked for.
#[derive(Drop)]
pub enum ChainAfter<'a> {
    /// What stands before a link of a chain.
    Link(Box<Chaining<'a>>),
    /// The right side of an operator that is no call.
    Right(Box<RightRest<'a>>),
}

/// Goes on with what a part gave. Where it is refused, so is the whole.
pub fn go_on<'a>(
    alloc: Global,
    after: ChainAfter<'a>,
    given: Result<Outcome<'a>, ElabFault>,
    room: u32,
) -> Result<Progress<'a, ChainAfter<'a>>, ElabFault> {
    let outcome = given?;
    match after {
        ChainAfter::Link(chaining) => linked(alloc, chaining, outcome, room),
        ChainAfter::Right(rest) => with_right(alloc, rest, outcome, room),
    }
}

/// What never ends counts as want of memory. What it holds is let go here, where that is proved, and not by its caller.
pub fn endless(_progress: Progress<'_, ChainAfter<'_>>) -> ElabFault {
    ElabFault::Memory
}

/// The number of levels that are left at a link: behind each further one there is one level less around what stands
/// before it.
fn level_at(links: &Links, next: usize, room: u32) -> u32 {
    let behind = links.items.len().saturating_sub(next).saturating_sub(1);
    match u32::try_from(behind) {
        Ok(behind) => room.saturating_sub(behind),
        Err(_) => 0,
    }
}

/// A term, and what follows it.
pub fn of_chain<'a>(
    alloc: Global,
    sought: Box<Sought<'a>>,
    first: &'a Exp,
    links: &'a Links,
    room: u32,
) -> Result<Progress<'a, ChainAfter<'a>>, ElabFault> {
    if links.items.is_empty() || links.items.len() >= room as usize {
        return Err(ElabFault::Memory);
    }
    let Sought { env, want, source } = Box::into_inner(sought);
    let place = env.place(source.at);
    let part = term(alloc, env.share()?, left_want(links.items.first()), first)?;
    let chaining = Chaining {
        env,
        want,
        place,
        links,
        next: 0,
    };
    let level = below(level_at(links, 0, room));
    ask(
        alloc,
        ChainAfter::Link(on_heap(alloc, chaining)?),
        part,
        level,
    )
}

/// What stands before a link, with what follows it.
fn linked<'a>(
    alloc: Global,
    chaining: Box<Chaining<'a>>,
    left: Outcome<'a>,
    room: u32,
) -> Result<Progress<'a, ChainAfter<'a>>, ElabFault> {
    let mut chaining = chaining;
    let mut left = left;
    let links = chaining.links;
    for i in chaining.next..links.items.len() {
        match &links.items[i] {
            Link::Infix(at, infix, right) => {
                chaining.next = i;
                let side = Side {
                    at: chaining.env.place(*at),
                    infix: *infix,
                    right,
                };
                return infix_link(alloc, chaining, left, side, room);
            }
            link => {
                let level = level_at(links, i, room);
                left = other_link(alloc, &chaining.env, chaining.place, left, link, level)?;
            }
        }
    }
    Ok(Progress::Ended(left))
}

/// An operator at its place, with its right side.
#[derive(Drop)]
struct Side<'a> {
    at: Place,
    infix: Infix,
    right: &'a Exp,
}

/// What is wanted of what stands before the link behind this one, or of the whole chain.
fn want_behind(alloc: Global, chaining: &Chaining<'_>) -> Result<Want, AllocError> {
    match chaining.links.items.get(chaining.next.saturating_add(1)) {
        None => copy_want(alloc, &chaining.want),
        link => Ok(left_want(link)),
    }
}

/// An operator with its two sides, of which the left one was elaborated before.
fn infix_link<'a>(
    alloc: Global,
    chaining: Box<Chaining<'a>>,
    left: Outcome<'a>,
    side: Side<'a>,
    room: u32,
) -> Result<Progress<'a, ChainAfter<'a>>, ElabFault> {
    let want = want_behind(alloc, &chaining)?;
    match operator(side.infix) {
        Some(name) => {
            let call = operator_call(alloc, &chaining, name, left, side)?;
            run_link(alloc, chaining, call, want, room)
        }
        None => ask_right(alloc, chaining, settled(left)?, side, &want, room),
    }
}

/// The call that an operator stands for.
fn operator_call<'a>(
    alloc: Global,
    chaining: &Chaining<'a>,
    name: BasisName,
    left: Outcome<'a>,
    side: Side<'a>,
) -> Result<Box<Call<'a>>, ElabFault> {
    let head = of_basis(alloc, &chaining.env, side.at, name)?;
    let given = operands(alloc, chaining.place, left, side.right)?;
    Ok(call_of(alloc, &chaining.env, chaining.place, head, given)?)
}

/// A call that stands before another link, or that is the whole chain.
fn run_link<'a>(
    alloc: Global,
    chaining: Box<Chaining<'a>>,
    call: Box<Call<'a>>,
    want: Want,
    room: u32,
) -> Result<Progress<'a, ChainAfter<'a>>, ElabFault> {
    let level = level_at(chaining.links, chaining.next, below(room));
    let mut chaining = chaining;
    chaining.next = chaining.next.saturating_add(1);
    ask(
        alloc,
        ChainAfter::Link(chaining),
        Part::Call(call, want),
        level,
    )
}

/// Asks for the right side of an operator that is no call.
fn ask_right<'a>(
    alloc: Global,
    chaining: Box<Chaining<'a>>,
    left: Box<Typed>,
    side: Side<'a>,
    want: &Want,
    room: u32,
) -> Result<Progress<'a, ChainAfter<'a>>, ElabFault> {
    let Side { at, infix, right } = side;
    let level = below(level_at(chaining.links, chaining.next, room));
    let wanted = right_want(alloc, want, infix)?;
    let part = term(alloc, chaining.env.share()?, wanted, right)?;
    let rest = RightRest {
        chaining,
        left,
        at,
        infix,
    };
    ask(alloc, ChainAfter::Right(on_heap(alloc, rest)?), part, level)
}

/// An operator that is no call, with both sides.
fn with_right<'a>(
    alloc: Global,
    rest: Box<RightRest<'a>>,
    right: Outcome<'a>,
    room: u32,
) -> Result<Progress<'a, ChainAfter<'a>>, ElabFault> {
    let RightRest {
        chaining,
        left,
        at,
        infix,
    } = Box::into_inner(rest);
    let mut chaining = chaining;
    let place = chaining.place;
    let whole = two_sides(
        alloc,
        &chaining.env,
        place,
        at,
        infix,
        left,
        settled(right)?,
    )?;
    chaining.next = chaining.next.saturating_add(1);
    linked(alloc, chaining, whole, room)
}

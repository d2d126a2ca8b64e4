//! Literals of pages: where they stand.
use crate::contexts::{first_spliced, ring_of};
use crate::elements::with_attribute;
use crate::grounds::{Ground, boxed_context, wanted_ground};
use crate::nodes::Ready;
use crate::placing::{PageAfter, literal_at, with_tree, with_value};
use call_parts::{no_fields, page_parts};
use name_scopes::ElabFault;
use open_terms::{Core, Outcome, PageRest, Want, later, may_grow, on_heap};
use plain_tree::{Node, Nodes};
use std::alloc::Global;
use term_parts::{Progress, Sought, ask, below, settled, term};

/// Goes on with what a part gave. Where it is refused, so is the whole.
pub fn go_on<'a>(
    alloc: Global,
    after: PageAfter<'a>,
    given: Result<Outcome<'a>, ElabFault>,
    room: u32,
) -> Result<Progress<'a, PageAfter<'a>>, ElabFault> {
    let outcome = given?;
    match after {
        PageAfter::Spliced(rest, i) => spliced(alloc, rest, i, outcome, room),
        PageAfter::Tree(placing) => with_tree(alloc, placing, outcome, room),
        PageAfter::Value(placing) => with_value(alloc, placing, outcome, room),
        PageAfter::Attribute(attributing, place, name) => {
            with_attribute(alloc, attributing, place, name, outcome, room)
        }
    }
}

/// What never ends counts as want of memory. What it holds is let go here, where that is proved, and not by its caller.
pub fn endless(_progress: Progress<'_, PageAfter<'_>>) -> ElabFault {
    ElabFault::Memory
}

/// `<xml> .. </xml>`
pub fn of_xml<'a>(
    alloc: Global,
    sought: Box<Sought<'a>>,
    nodes: &'a Nodes,
    room: u32,
) -> Result<Progress<'a, PageAfter<'a>>, ElabFault> {
    let Sought { env, want, source } = Box::into_inner(sought);
    let place = env.place(source.at);
    let rest = PageRest { env, place, nodes };
    of_page(alloc, on_heap(alloc, rest)?, want, room)
}

/// A literal of which this is wanted. Where nothing tells its context as yet, it is open.
pub fn of_page<'a>(
    alloc: Global,
    rest: Box<PageRest<'a>>,
    want: Want,
    room: u32,
) -> Result<Progress<'a, PageAfter<'a>>, ElabFault> {
    match wanted_ground(alloc, &want)? {
        Some(ground) => literal_at(alloc, rest, ground, None, room),
        None => {
            if may_grow(&want) {
                return Ok(Progress::Ended(later(alloc, Core::Page(rest))?));
            }
            chosen(alloc, rest, room)
        }
    }
}

/// A literal whose context nothing tells: it is that of the first tree that is spliced in, else the first that fits
/// its nodes.
fn chosen<'a>(
    alloc: Global,
    rest: Box<PageRest<'a>>,
    room: u32,
) -> Result<Progress<'a, PageAfter<'a>>, ElabFault> {
    let nodes = rest.nodes;
    let Some(i) = first_spliced(nodes) else {
        return fitted(alloc, rest, None, room);
    };
    match nodes.items.get(i) {
        Some(Node::Exp(_, e)) => {
            let part = term(alloc, rest.env.share()?, Want::Choose, e)?;
            ask(alloc, PageAfter::Spliced(rest, i), part, below(room))
        }
        _ => Err(ElabFault::Unsolved(rest.place)),
    }
}

/// A literal whose first tree that is spliced in is known.
fn spliced<'a>(
    alloc: Global,
    rest: Box<PageRest<'a>>,
    i: usize,
    outcome: Outcome<'a>,
    room: u32,
) -> Result<Progress<'a, PageAfter<'a>>, ElabFault> {
    let typed = settled(outcome)?;
    let parts = page_parts(alloc, &typed.con)?;
    let ready = Some(Ready { index: i, typed });
    match parts {
        None => fitted(alloc, rest, ready, room),
        Some(parts) => {
            let ground = Ground {
                context: parts.context,
                uses: no_fields(alloc)?,
            };
            literal_at(alloc, rest, ground, ready, room)
        }
    }
}

/// A literal whose context is the first that fits its nodes.
fn fitted<'a>(
    alloc: Global,
    rest: Box<PageRest<'a>>,
    ready: Option<Ready>,
    room: u32,
) -> Result<Progress<'a, PageAfter<'a>>, ElabFault> {
    match ring_of(alloc, &rest.env, rest.nodes)? {
        None => Err(ElabFault::Unsolved(rest.place)),
        Some(ring) => {
            let ground = Ground {
                context: boxed_context(alloc, ring.standing, ring.in_form)?,
                uses: no_fields(alloc)?,
            };
            literal_at(alloc, rest, ground, ready, room)
        }
    }
}

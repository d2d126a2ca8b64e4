//! Nodes of a literal, one after the other. Each has the fields before it as filled.
use crate::contexts::is_spliced_value;
use crate::elements::{Attributing, Opening, element_node, open_element};
use crate::grounds::{Ground, page_of};
use crate::nodes::{KnownNode, Placed, Ready, literal_term, put_node, ready_at, tree_node, words};
use call_parts::no_fields;
use con_terms::Place;
use core_terms::AttrName;
use name_scopes::ElabFault;
use open_terms::{Env, Outcome, PageRest, Want, boxed_copy, done, on_heap};
use plain_tree::{Exp, Node as Source};
use std::alloc::{AllocError, Global};
use std::mem::replace;
use term_parts::{Part, Progress, ask, settled, term};

/// Nodes that stand beside one another.
#[derive(Drop)]
pub struct Siblings<'a> {
    pub source: &'a plain_tree::Nodes,
    /// The number of the node that comes next.
    pub next: usize,
    /// Where that one stands.
    pub here: Ground,
    pub placed: Placed,
}

/// An element whose content comes, with the nodes beside it.
#[derive(Drop)]
pub struct Opened<'a> {
    pub around: Box<Siblings<'a>>,
    pub element: Opening,
}

/// A literal with its nodes so far.
#[derive(Drop)]
pub struct Placing<'a> {
    pub env: Env,
    /// The place of the literal.
    pub place: Place,
    /// Where the literal stands.
    pub ground: Ground,
    /// A node of the literal's own that was elaborated before.
    pub ready: Option<Ready>,
    pub inner: Box<Siblings<'a>>,
    /// The elements around these, the outermost first.
    pub outer: Vec<Opened<'a>>,
}

impl<'a> Placing<'a> {
    /// The number of levels that are left for a term at the node that comes next.
    pub fn level(&self, room: u32) -> u32 {
        match u32::try_from(self.outer.len()) {
            Ok(around) => room.saturating_sub(around).saturating_sub(1),
            Err(_) => 0,
        }
    }
}

/// How a literal goes on with the part that it asked for.
#[derive(Drop)]
pub enum PageAfter<'a> {
    /// The tree that tells the context of a literal, with its number among the nodes.
    Spliced(Box<PageRest<'a>>, usize),
    /// A tree of a page, which may be open yet.
    Tree(Box<Placing<'a>>),
    /// A tree of a page that is to be known.
    Value(Box<Placing<'a>>),
    /// The value of an element's attribute, at a place.
    Attribute(Box<Attributing<'a>>, Place, AttrName),
}

/// How far a literal is: at its next node, or it asks for a part, or it ended.
#[derive(Drop)]
pub enum Turn<'a> {
    On(Box<Placing<'a>>),
    Out(Progress<'a, PageAfter<'a>>),
}

/// Nodes of which none is placed yet.
pub fn none_placed<'a>(
    alloc: Global,
    source: &'a plain_tree::Nodes,
    here: Ground,
) -> Result<Box<Siblings<'a>>, AllocError> {
    let siblings = Siblings {
        source,
        next: 0,
        here,
        placed: Placed::new(alloc)?,
    };
    on_heap(alloc, siblings)
}

/// A literal that stands there, of which one node may be elaborated before.
pub fn literal_at<'a>(
    alloc: Global,
    rest: Box<PageRest<'a>>,
    ground: Ground,
    ready: Option<Ready>,
    room: u32,
) -> Result<Progress<'a, PageAfter<'a>>, ElabFault> {
    let PageRest { env, place, nodes } = Box::into_inner(rest);
    let here = ground.copy(alloc)?;
    let placing = Placing {
        env,
        place,
        ground,
        ready,
        inner: none_placed(alloc, nodes, here)?,
        outer: Vec::new(alloc),
    };
    place_nodes(alloc, on_heap(alloc, placing)?, room)
}

/// The nodes that come next, up to one that asks for a part.
pub fn place_nodes<'a>(
    alloc: Global,
    placing: Box<Placing<'a>>,
    room: u32,
) -> Result<Progress<'a, PageAfter<'a>>, ElabFault> {
    let mut placing = placing;
    for _ in 0..u32::MAX {
        match next_turn(alloc, placing, room)? {
            Turn::On(next) => placing = next,
            Turn::Out(progress) => return Ok(progress),
        }
    }
    Err(ElabFault::Memory)
}

/// The node that comes next, or the end of the nodes beside it.
fn next_turn<'a>(
    alloc: Global,
    placing: Box<Placing<'a>>,
    room: u32,
) -> Result<Turn<'a>, ElabFault> {
    let mut placing = placing;
    let source = placing.inner.source;
    match source.items.get(placing.inner.next) {
        None => close(alloc, placing),
        Some(source) => match known_node(alloc, &mut placing)? {
            Some(node) => Ok(Turn::On(with_node(alloc, placing, node)?)),
            None => of_node(alloc, placing, source, room),
        },
    }
}

/// The next node, if it was elaborated before.
fn known_node(alloc: Global, placing: &mut Placing<'_>) -> Result<Option<KnownNode>, AllocError> {
    if placing.outer.is_empty() {
        let next = placing.inner.next;
        return ready_at(alloc, &mut placing.ready, next);
    }
    Ok(None)
}

/// A literal with one node more.
fn with_node<'a>(
    alloc: Global,
    placing: Box<Placing<'a>>,
    node: KnownNode,
) -> Result<Box<Placing<'a>>, AllocError> {
    let mut placing = placing;
    put_last(alloc, &mut *placing.inner, node)?;
    Ok(placing)
}

/// Puts a node last.
fn put_last(alloc: Global, beside: &mut Siblings<'_>, node: KnownNode) -> Result<(), AllocError> {
    put_node(alloc, &mut beside.placed, &mut beside.here, node)?;
    beside.next = beside.next.saturating_add(1);
    Ok(())
}

/// The end of nodes beside one another: of an element's content, or of the literal.
fn close<'a>(alloc: Global, placing: Box<Placing<'a>>) -> Result<Turn<'a>, ElabFault> {
    let mut placing = placing;
    match placing.outer.pop() {
        None => Ok(Turn::Out(Progress::Ended(whole(alloc, placing)?))),
        Some(opened) => {
            go_outside(alloc, &mut placing, opened)?;
            Ok(Turn::On(placing))
        }
    }
}

/// Goes outside of an element, which is put last there.
fn go_outside<'a>(
    alloc: Global,
    placing: &mut Placing<'a>,
    opened: Opened<'a>,
) -> Result<(), AllocError> {
    let Opened { around, element } = opened;
    let inner = replace(&mut placing.inner, around);
    let Siblings { placed, .. } = Box::into_inner(inner);
    put_element(alloc, &mut *placing.inner, element, placed)
}

/// Puts an element last, with its content.
fn put_element(
    alloc: Global,
    beside: &mut Siblings<'_>,
    element: Opening,
    content: Placed,
) -> Result<(), AllocError> {
    let node = element_node(alloc, element, content, &beside.here)?;
    put_last(alloc, beside, node)
}

/// A literal whose nodes are all placed.
fn whole<'a>(alloc: Global, placing: Box<Placing<'a>>) -> Result<Outcome<'a>, AllocError> {
    let Placing {
        place,
        ground,
        inner,
        ..
    } = Box::into_inner(placing);
    let Ground { context, uses } = ground;
    let Siblings { placed, .. } = Box::into_inner(inner);
    let Placed { nodes, fills } = placed;
    let t = on_heap(alloc, page_of(alloc, &context, &uses, fills)?)?;
    let exp = literal_term(alloc, place, context, uses, nodes)?;
    done(alloc, exp, Box::into_inner(t))
}

/// A node by its form.
fn of_node<'a>(
    alloc: Global,
    placing: Box<Placing<'a>>,
    source: &'a Source,
    room: u32,
) -> Result<Turn<'a>, ElabFault> {
    match source {
        Source::Run(at, text) => {
            let node = words(alloc, placing.env.place(*at), text, &placing.inner.here)?;
            Ok(Turn::On(with_node(alloc, placing, node)?))
        }
        Source::Exp(_, e) => {
            if is_spliced_value(e) {
                Ok(Turn::Out(ask_value(alloc, placing, e, room)?))
            } else {
                Ok(Turn::Out(ask_tree(alloc, placing, e, room)?))
            }
        }
        Source::Element(_, _, _, _, _) => open_element(alloc, placing, source, room),
    }
}

/// What is wanted of a call of `txt` that stands there.
fn value_want(alloc: Global, here: &Ground) -> Result<Want, AllocError> {
    let t = page_of(alloc, &here.context, &here.uses, no_fields(alloc)?)?;
    Ok(Want::Whole(on_heap(alloc, t)?))
}

/// What is wanted of a tree that stands there.
fn tree_want(alloc: Global, here: &Ground) -> Result<Want, AllocError> {
    let context = boxed_copy(alloc, &here.context)?;
    let uses = boxed_copy(alloc, &here.uses)?;
    Ok(Want::Page(Some(context), Some(uses)))
}

/// Asks for `{[e]}`: a call of `txt`, which fills nothing.
fn ask_value<'a>(
    alloc: Global,
    placing: Box<Placing<'a>>,
    e: &'a Exp,
    room: u32,
) -> Result<Progress<'a, PageAfter<'a>>, ElabFault> {
    let want = value_want(alloc, &placing.inner.here)?;
    let part = term(alloc, placing.env.share()?, want, e)?;
    let level = placing.level(room);
    ask(alloc, PageAfter::Value(placing), part, level)
}

/// Asks for `{e}`: a tree, which wants the context and the fields before it. What it fills is its own.
fn ask_tree<'a>(
    alloc: Global,
    placing: Box<Placing<'a>>,
    e: &'a Exp,
    room: u32,
) -> Result<Progress<'a, PageAfter<'a>>, ElabFault> {
    let want = tree_want(alloc, &placing.inner.here)?;
    let part = term(alloc, placing.env.share()?, want, e)?;
    let level = placing.level(room);
    ask(alloc, PageAfter::Tree(placing), part, level)
}

/// A literal with one tree more; where that is open, nothing more will be known of it.
pub fn with_tree<'a>(
    alloc: Global,
    placing: Box<Placing<'a>>,
    outcome: Outcome<'a>,
    room: u32,
) -> Result<Progress<'a, PageAfter<'a>>, ElabFault> {
    match outcome {
        Outcome::Done(typed) => with_value(alloc, placing, Outcome::Done(typed), room),
        Outcome::Later(pending) => {
            let level = placing.level(room);
            ask(
                alloc,
                PageAfter::Value(placing),
                Part::Open(pending, Want::Choose),
                level,
            )
        }
    }
}

/// A literal with one tree more, which is known.
pub fn with_value<'a>(
    alloc: Global,
    placing: Box<Placing<'a>>,
    outcome: Outcome<'a>,
    room: u32,
) -> Result<Progress<'a, PageAfter<'a>>, ElabFault> {
    let node = tree_node(alloc, settled(outcome)?)?;
    let placing = with_node(alloc, placing, node)?;
    place_nodes(alloc, placing, room)
}

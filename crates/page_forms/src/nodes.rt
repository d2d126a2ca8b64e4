//! Nodes of pages in which nothing is left to elaborate.
use crate::grounds::Ground;
use call_parts::{is_empty_row, no_fields, page_parts, rows_joined};
use con_terms::{Con, Place, copy_con};
use core_terms::{BasisName, ConOrigin, Exp, Form, Item, Items, Literal, Node, Nodes, Sigil};
use open_terms::{Typed, node, on_heap};
use std::alloc::{AllocError, Global};
use std::mem::replace;
use table_rows::Text;

/// A node that was elaborated before.
#[derive(Drop)]
pub struct Ready {
    pub index: usize,
    pub typed: Box<Typed>,
}

/// A node with the fields that it fills, before it is put among others.
#[derive(Drop)]
pub struct KnownNode {
    pub fills: Box<Con>,
    pub term: Box<Exp>,
}

/// Nodes with the fields that they fill.
#[derive(Drop)]
pub struct Placed {
    pub nodes: Nodes,
    pub fills: Box<Con>,
}

impl Placed {
    /// No nodes.
    pub fn new(alloc: Global) -> Result<Placed, AllocError> {
        Ok(Placed {
            nodes: Nodes::new(alloc),
            fills: no_fields(alloc)?,
        })
    }
}

/// Puts a node last. What it fills is filled before those behind it.
pub fn put_node(
    alloc: Global,
    placed: &mut Placed,
    here: &mut Ground,
    node: KnownNode,
) -> Result<(), AllocError> {
    let KnownNode { fills, term } = node;
    if !is_empty_row(&fills) {
        placed.fills = rows_joined(alloc, &placed.fills, &fills)?;
        here.uses = rows_joined(alloc, &here.uses, &fills)?;
    }
    placed.nodes.push(Node {
        fills: Box::into_inner(fills),
        term: Box::into_inner(term),
    })
}

/// The node that was elaborated before, if it is this one.
pub fn ready_at(
    alloc: Global,
    ready: &mut Option<Ready>,
    i: usize,
) -> Result<Option<KnownNode>, AllocError> {
    let is_here = match ready {
        Some(known) => known.index == i,
        None => false,
    };
    if !is_here {
        return Ok(None);
    }
    match replace(ready, None) {
        None => Ok(None),
        Some(known) => Ok(Some(tree_node(alloc, known.typed)?)),
    }
}

/// A tree as a node: it fills what its type tells.
pub fn tree_node(alloc: Global, typed: Box<Typed>) -> Result<KnownNode, AllocError> {
    let Typed { exp, con } = Box::into_inner(typed);
    let fills = match page_parts(alloc, &con)? {
        None => no_fields(alloc)?,
        Some(parts) => parts.fills,
    };
    Ok(KnownNode { fills, term: exp })
}

/// Puts an inserted constructor last.
fn add_con(alloc: Global, items: &mut Items, place: Place, c: &Con) -> Result<(), AllocError> {
    let con = copy_con(alloc, c)?;
    items.push(Item::Con(place, ConOrigin::Inserted, con))
}

/// Puts a term last.
fn add_term(items: &mut Items, term: Box<Exp>) -> Result<(), AllocError> {
    items.push(Item::Term(Box::into_inner(term)))
}

/// A call of `cdata`.
fn cdata(alloc: Global, place: Place, items: Items) -> Result<Box<Exp>, AllocError> {
    let head = node(alloc, place, Form::Basis(BasisName::Cdata))?;
    node(alloc, place, Form::Call(head, Sigil::Plain, items))
}

/// A text: a call of `cdata`.
pub fn words(
    alloc: Global,
    place: Place,
    text: &Text,
    here: &Ground,
) -> Result<KnownNode, AllocError> {
    let mut items = Items::new(alloc);
    add_con(alloc, &mut items, place, &here.context)?;
    add_con(alloc, &mut items, place, &here.uses)?;
    let text = node(alloc, place, Form::Words(text.copy(alloc)?))?;
    add_term(&mut items, text)?;
    let term = cdata(alloc, place, items)?;
    Ok(KnownNode {
        fills: no_fields(alloc)?,
        term,
    })
}

/// A literal of a page with its nodes.
fn boxed_literal(
    alloc: Global,
    context: Box<Con>,
    uses: Box<Con>,
    nodes: Nodes,
) -> Result<Box<Literal>, AllocError> {
    let literal = Literal {
        context: Box::into_inner(context),
        uses: Box::into_inner(uses),
        nodes,
    };
    on_heap(alloc, literal)
}

/// A literal of a page as a term.
pub fn literal_term(
    alloc: Global,
    place: Place,
    context: Box<Con>,
    uses: Box<Con>,
    nodes: Nodes,
) -> Result<Box<Exp>, AllocError> {
    let literal = boxed_literal(alloc, context, uses, nodes)?;
    node(alloc, place, Form::Literal(literal))
}

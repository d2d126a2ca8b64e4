//! Pages: literals as the calls of `join` that they stand for, elements as markup.
use crate::cons::{APPLIED as CON_APPLIED, SUM as CON_SUM, WHOLE as CON_WHOLE};
use crate::tasks::{Leaf, Task, Tasks, TermTask, con, more, term, word};
use crate::terms::{PIECE, WHOLE};
use con_terms::Con;
use core_terms::{Attribute, Element, Form, Literal, Node};
use std::alloc::AllocError;

/// Whether a row is the literal one without fields.
fn is_empty(row: &Con) -> bool {
    match row {
        Con::Row(_, pairs) => pairs.items.is_empty(),
        _ => false,
    }
}

/// The place of the first node that fills fields; that behind the last, where none does.
fn first_filling(nodes: &[Node]) -> usize {
    let mut place: usize = 0;
    for node in nodes.iter() {
        if !is_empty(&node.fills) {
            break;
        }
        place = place.saturating_add(1);
    }
    place
}

/// A row, behind `++` where a row stands before it.
fn fill<'a>(tasks: &mut Tasks<'a>, row: &'a Con, further: bool) -> Result<(), AllocError> {
    if further {
        tasks.first(&[word("++"), con(row, CON_APPLIED)])
    } else {
        tasks.before(con(row, CON_SUM))
    }
}

/// The rows of the nodes that fill fields, each behind `++`; the first of them only behind a row.
fn filled<'a>(
    tasks: &mut Tasks<'a>,
    behind_a_row: bool,
    nodes: &'a [Node],
) -> Result<(), AllocError> {
    let first = first_filling(nodes);
    let mut place = nodes.len();
    for node in nodes.iter().rev() {
        place = place.saturating_sub(1);
        if !is_empty(&node.fills) {
            fill(tasks, &node.fills, behind_a_row || place > first)?;
        }
    }
    Ok(())
}

/// `[u ++ b ++ ..]`: a row, and the fields that nodes fill. The empty row stands where there is none.
fn sum_of<'a>(
    tasks: &mut Tasks<'a>,
    first: Option<&'a Con>,
    nodes: &'a [Node],
) -> Result<(), AllocError> {
    tasks.before(word("]"))?;
    let begun = match first {
        Some(row) => !is_empty(row),
        None => false,
    };
    if !begun && first_filling(nodes) >= nodes.len() {
        tasks.first(&[word("["), word("]")])?;
    }
    filled(tasks, begun, nodes)?;
    if let Some(row) = first
        && begun
    {
        tasks.before(con(row, CON_SUM))?;
    }
    tasks.before(word("["))
}

/// `@@join [ctx] [u] [b] [c] ! !`, for the node at a place.
pub fn print_join<'a>(
    tasks: &mut Tasks<'a>,
    context: &'a Con,
    uses: &'a Con,
    nodes: &'a [Node],
    place: usize,
) -> Result<(), AllocError> {
    let (before, rest) = nodes.split_at(place.min(nodes.len()));
    let (own, later) = rest.split_at(rest.len().min(1));
    tasks.first(&[word("!"), word("!")])?;
    sum_of(tasks, None, later)?;
    sum_of(tasks, None, own)?;
    sum_of(tasks, Some(uses), before)?;
    tasks.first(&[
        word("@@"),
        word("join"),
        word("["),
        con(context, CON_WHOLE),
        word("]"),
    ])
}

/// The page without nodes.
fn no_nodes<'a>(tasks: &mut Tasks<'a>, context: &'a Con, uses: &'a Con) -> Result<(), AllocError> {
    tasks.first(&[
        word("["),
        con(uses, CON_WHOLE),
        word("]"),
        Task::Leaf(Leaf::Text("")),
    ])?;
    tasks.first(&[
        word("@@"),
        word("cdata"),
        word("["),
        con(context, CON_WHOLE),
        word("]"),
    ])
}

/// A node at a place: each but the last is joined with what follows it, which stands in brackets.
fn print_node<'a>(
    tasks: &mut Tasks<'a>,
    literal: &'a Literal,
    place: usize,
    node: &'a Node,
) -> Result<(), AllocError> {
    let nodes = literal.nodes.items.as_slice();
    let last = place.saturating_add(1) >= nodes.len();
    tasks.before(term(&node.term, PIECE))?;
    if !last {
        tasks.before(Task::Term(TermTask::Join(&literal.context, &literal.uses, nodes, place)))?;
    }
    if place > 0 && !last {
        tasks.before(word("("))?;
    }
    Ok(())
}

/// The nodes of a literal.
fn nodes_of<'a>(tasks: &mut Tasks<'a>, literal: &'a Literal) -> Result<(), AllocError> {
    let mut place = literal.nodes.items.len();
    for node in literal.nodes.items.iter().rev() {
        place = place.saturating_sub(1);
        print_node(tasks, literal, place, node)?;
    }
    Ok(())
}

/// A literal: its nodes beside one another.
pub fn print_literal<'a>(tasks: &mut Tasks<'a>, literal: &'a Literal) -> Result<(), AllocError> {
    let count = literal.nodes.items.len();
    if count == 0 {
        return no_nodes(tasks, &literal.context, &literal.uses);
    }
    for _ in 2..count {
        tasks.before(word(")"))?;
    }
    nodes_of(tasks, literal)
}

/// `name = value`: a string as it is, another term in braces.
pub fn print_attribute<'a>(
    tasks: &mut Tasks<'a>,
    attribute: &'a Attribute,
) -> Result<(), AllocError> {
    match &attribute.value.form {
        Form::Words(text) => tasks.before(Task::Leaf(Leaf::Text(text.as_str())))?,
        _ => tasks.first(&[word("{"), term(&attribute.value, WHOLE), word("}")])?,
    }
    tasks.first(&[word(attribute.name.as_str()), word("=")])
}

/// What is in an element, each node in braces, and its closing.
fn content<'a>(tasks: &mut Tasks<'a>, element: &'a Element) -> Result<(), AllocError> {
    tasks.first(&[word("</"), more(element.tag.as_str()), more(">")])?;
    for node in element.content.items.iter().rev() {
        tasks.first(&[word("{"), term(&node.term, WHOLE), word("}")])?;
    }
    tasks.before(word(">"))
}

/// The attributes of an element, behind the field that an input fills.
fn attributes<'a>(tasks: &mut Tasks<'a>, element: &'a Element) -> Result<(), AllocError> {
    for attribute in element.attributes.items.iter().rev() {
        tasks.before(Task::Term(TermTask::Attribute(attribute)))?;
    }
    match &element.field {
        Some(field) => tasks.first(&[word("{"), con(&field.name, CON_WHOLE), word("}")]),
        None => Ok(()),
    }
}

/// An element: `<xml> <name attributes> {e} .. </name> </xml>`, or with `/>` where nothing is in it.
pub fn print_element<'a>(tasks: &mut Tasks<'a>, element: &'a Element) -> Result<(), AllocError> {
    tasks.before(word("</xml>"))?;
    if element.content.items.is_empty() {
        tasks.before(word("/>"))?;
    } else {
        content(tasks, element)?;
    }
    attributes(tasks, element)?;
    tasks.first(&[word("<xml>"), word("<"), more(element.tag.as_str())])
}

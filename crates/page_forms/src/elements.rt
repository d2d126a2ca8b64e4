//! Elements of pages: their attributes, and what stands around their content.
use crate::contexts::tag_named;
use crate::fields::{filled_by, input_name};
use crate::grounds::{Ground, content_ground};
use crate::nodes::{KnownNode, Placed};
use crate::placing::{Opened, PageAfter, Placing, Siblings, Turn, none_placed, place_nodes};
use con_terms::{Con, Place, copy_con};
use core_terms::{AttrName, Attribute, Attributes, Element, Exp, Form, InputName, Nodes, TagName};
use name_scopes::ElabFault;
use open_terms::{Env, Outcome, Typed, Want, add, boxed_copy, node, on_heap, whole};
use plain_tree::Node as Source;
use std::alloc::{AllocError, Global};
use std::mem::replace;
use term_parts::{Progress, ask, settled, term};
use type_makers::attribute_type;

/// An element before its content.
#[derive(Drop)]
pub struct Opening {
    pub tag: TagName,
    pub place: Place,
    /// The field that an input fills.
    pub field: Option<Box<InputName>>,
    pub attributes: Attributes,
}

/// An element with its attributes so far.
#[derive(Drop)]
pub struct Attributing<'a> {
    pub placing: Box<Placing<'a>>,
    pub opening: Opening,
    pub source: &'a plain_tree::Attributes,
    pub content: &'a plain_tree::Nodes,
}

/// An element that comes next: its attributes, or its content where it has none.
pub fn open_element<'a>(
    alloc: Global,
    placing: Box<Placing<'a>>,
    element: &'a Source,
    room: u32,
) -> Result<Turn<'a>, ElabFault> {
    match element {
        Source::Element(at, name, field, source, content) => {
            let level = placing.level(room);
            let env = &placing.env;
            let tag = tag_named(alloc, env, *at, name)?;
            let opening = before_attributes(alloc, env, env.place(*at), tag, field, level)?;
            let attributing = Attributing {
                placing,
                opening,
                source,
                content,
            };
            next_attribute(alloc, on_heap(alloc, attributing)?, room)
        }
        _ => Err(ElabFault::Memory),
    }
}

/// An element before its attributes.
fn before_attributes(
    alloc: Global,
    env: &Env,
    place: Place,
    tag: TagName,
    field: &Option<plain_tree::Con>,
    room: u32,
) -> Result<Opening, ElabFault> {
    Ok(Opening {
        tag,
        place,
        field: input_name(alloc, env, place, tag, field, room)?,
        attributes: Attributes::new(alloc),
    })
}

/// The attribute that comes next, or the content.
fn next_attribute<'a>(
    alloc: Global,
    attributing: Box<Attributing<'a>>,
    room: u32,
) -> Result<Turn<'a>, ElabFault> {
    let source = attributing.source;
    match source.items.get(attributing.opening.attributes.items.len()) {
        Some(attribute) => Ok(Turn::Out(ask_attribute(alloc, attributing, attribute, room)?)),
        None => {
            let Attributing {
                placing,
                opening,
                source: _,
                content,
            } = Box::into_inner(attributing);
            Ok(Turn::On(entered(alloc, placing, opening, content, room)?))
        }
    }
}

/// Asks for the value of an attribute, which wants the type that the tag's attribute has.
fn ask_attribute<'a>(
    alloc: Global,
    attributing: Box<Attributing<'a>>,
    attribute: &'a plain_tree::Attribute,
    room: u32,
) -> Result<Progress<'a, PageAfter<'a>>, ElabFault> {
    let env = &attributing.placing.env;
    let place = env.place(attribute.name.at);
    let Some(name) = AttrName::named(attribute.name.text.as_str()) else {
        return Err(ElabFault::Unbound(place, attribute.name.text.copy(alloc)?));
    };
    let here = &attributing.placing.inner.here;
    let want = attribute_want(alloc, here, attributing.opening.tag, name)?;
    let part = term(alloc, env.share()?, want, &attribute.value)?;
    let level = attributing.placing.level(room);
    ask(
        alloc,
        PageAfter::Attribute(attributing, place, name),
        part,
        level,
    )
}

/// What is wanted of the value of an attribute.
fn attribute_want(
    alloc: Global,
    here: &Ground,
    tag: TagName,
    name: AttrName,
) -> Result<Want, AllocError> {
    let uses = copy_con(alloc, &here.uses)?;
    match attribute_type(alloc, uses, tag, name)? {
        None => Ok(Want::Choose),
        Some(t) => whole(alloc, t),
    }
}

/// Puts an attribute last.
fn put_attribute(
    attributes: &mut Attributes,
    place: Place,
    name: AttrName,
    value: Box<Exp>,
) -> Result<(), AllocError> {
    attributes.push(Attribute {
        place,
        name,
        value: Box::into_inner(value),
    })
}

/// An element with one attribute more.
pub fn with_attribute<'a>(
    alloc: Global,
    attributing: Box<Attributing<'a>>,
    place: Place,
    name: AttrName,
    outcome: Outcome<'a>,
    room: u32,
) -> Result<Progress<'a, PageAfter<'a>>, ElabFault> {
    let mut attributing = attributing;
    let Typed { exp, con: _ } = Box::into_inner(settled(outcome)?);
    put_attribute(&mut attributing.opening.attributes, place, name, exp)?;
    match next_attribute(alloc, attributing, room)? {
        Turn::On(placing) => place_nodes(alloc, placing, room),
        Turn::Out(progress) => Ok(progress),
    }
}

/// A literal inside of one element more.
fn entered<'a>(
    alloc: Global,
    placing: Box<Placing<'a>>,
    element: Opening,
    content: &'a plain_tree::Nodes,
    room: u32,
) -> Result<Box<Placing<'a>>, ElabFault> {
    let mut placing = placing;
    let here = content_ground(alloc, element.tag, &placing.inner.here)?;
    let inner = none_placed(alloc, content, here)?;
    go_inside(&mut placing, element, inner)?;
    if placing.outer.len() >= room as usize {
        return Err(ElabFault::Memory);
    }
    Ok(placing)
}

/// Goes inside of an element, among its content.
fn go_inside<'a>(
    placing: &mut Placing<'a>,
    element: Opening,
    inner: Box<Siblings<'a>>,
) -> Result<(), AllocError> {
    let around = replace(&mut placing.inner, inner);
    add(&mut placing.outer, Opened { around, element })
}

/// The field that an input fills, by itself.
fn own_field(field: Option<Box<InputName>>) -> Option<InputName> {
    match field {
        None => None,
        Some(field) => Some(Box::into_inner(field)),
    }
}

/// An element where it stands.
fn element_at(
    alloc: Global,
    opening: Opening,
    nodes: Nodes,
    context: Box<Con>,
    uses: Box<Con>,
) -> Result<Box<Element>, AllocError> {
    let Opening {
        tag,
        place: _,
        field,
        attributes,
    } = opening;
    let element = Element {
        tag,
        field: own_field(field),
        context: Box::into_inner(context),
        uses: Box::into_inner(uses),
        attributes,
        content: nodes,
    };
    on_heap(alloc, element)
}

/// An element with its content, which stands there.
pub fn element_node(
    alloc: Global,
    opening: Opening,
    content: Placed,
    here: &Ground,
) -> Result<KnownNode, AllocError> {
    let place = opening.place;
    let Placed { nodes, fills } = content;
    let fills = filled_by(alloc, opening.tag, &opening.field, fills)?;
    let context = boxed_copy(alloc, &here.context)?;
    let uses = boxed_copy(alloc, &here.uses)?;
    let element = element_at(alloc, opening, nodes, context, uses)?;
    let term = node(alloc, place, Form::Element(element))?;
    Ok(KnownNode { fills, term })
}

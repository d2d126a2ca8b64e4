//! Elements.
ghost use Rattle.std.specs.Prelude.{◌≡◌, true, map, IfOk};
ghost use Rattle.carried_types.specs.Carriers.{AreCarriers};
ghost use Rattle.carried_types.specs.View.{carriers_view};
ghost use Rattle.con_terms.specs.View.{con_tree};
ghost use Rattle.core_terms.specs.Lists.{attribute_list};
ghost use Rattle.core_terms.specs.View.{attributes_tree, datatype_view, maybe_con, maybe_name, nodes_tree};
ghost use Rattle.judgements.specs.View.{judged_tree, sc_view};
ghost use Rattle.markup_rules.specs.Elements as computed;
ghost use Rattle.markup_rules.specs.View.{around_view, attributes_found_tree, element_tree, judgements_view, nodes_found_tree, position_tree};
ghost use Rattle.type_faults.specs.View.{maybe_fault};
ghost use Rattle.type_makers.specs.Standing.{sort_view};

use crate::attributes::{AttributesFound, attributes_found, has_link, stands_before};
use crate::content::content_by;
use crate::judged::{Judgements, is_silent, told_of};
use crate::nodes::NodesFound;
use crate::standing::{Around, Position, is_input, name_told, rows_told, stands_by};
use carried_types::{Carriers, carriers_of};
use con_terms::{Con, Place};
use core_terms::{AttrName, Attributes, Element, InputName, Nodes, TagName};
use judgements::{Globals, Here, Judged, copied};
use std::alloc::{AllocError, Global};
use type_faults::{Fault, first};
use type_makers::{TagSort, sort_of, stands, xml_of};

/// An element's tag.
fn tag_of(e: &Element) -> TagName
    ensures { result ≡ computed.tag_of (element_tree e.now) }
{
    e.tag
}

/// The name of the field that an element fills.
fn field_of(e: &Element) -> &Option<InputName>
    ensures { maybe_name result.now ≡ computed.field_of (element_tree e.now) }
{
    &e.field
}

/// The row of where an element stands.
fn context_of(e: &Element) -> &Con
    ensures { con_tree result.now ≡ computed.context_of (element_tree e.now) }
{
    &e.context
}

/// The fields that are filled before an element.
fn uses_of(e: &Element) -> &Con
    ensures { con_tree result.now ≡ computed.uses_of (element_tree e.now) }
{
    &e.uses
}

/// An element's attributes.
fn attributes_of(e: &Element) -> &Attributes
    ensures { attributes_tree result.now ≡ computed.attributes_of (element_tree e.now) }
{
    &e.attributes
}

/// The nodes in an element.
fn nodes_of(e: &Element) -> &Nodes
    ensures { nodes_tree result.now ≡ computed.nodes_of (element_tree e.now) }
{
    &e.content
}

/// What is told of a button without an action.
fn action_by(p: Place, attributes: &Attributes, sort: TagSort) -> Option<Fault>
    ensures { maybe_fault result ≡ computed.action_by p (attribute_list (attributes_tree attributes.now))
        (sort_view sort) }
{
    match sort {
        TagSort::Button => {
            if stands_before(attributes, AttrName::Action, attributes.len()) {
                None
            } else {
                Some(Fault::LinkNotCall(p))
            }
        }
        _ => None,
    }
}

/// The type of an element or a literal that fills these fields, where all is found.
pub fn row_type(
    alloc: Global,
    context: &Con,
    uses: &Con,
    row: Option<Con>,
) -> Result<Option<Con>, AllocError>
    ensures { IfOk result
        (λ o. maybe_con o ≡ computed.row_type (con_tree context.now) (con_tree uses.now) (maybe_con row)) }
{
    match row {
        None => Ok(None),
        Some(row) => {
            let c = copied(alloc, context)?;
            let u = copied(alloc, uses)?;
            Ok(Some(xml_of(alloc, c, u, row)?))
        }
    }
}

/// The type of an element, where nothing of its own is at fault and all its attributes are found.
fn if_found(
    alloc: Global,
    context: &Con,
    uses: &Con,
    found: bool,
    own: &Option<Fault>,
    row: Option<Con>,
) -> Result<Option<Con>, AllocError>
    ensures { IfOk result
        (λ o. maybe_con o ≡ computed.if_found (con_tree context.now) (con_tree uses.now) found (maybe_fault own.now)
        (maybe_con row)) }
{
    if !found {
        return Ok(None);
    }
    if is_silent(own) {
        row_type(alloc, context, uses, row)
    } else {
        Ok(None)
    }
}

/// What an element tells of itself, and whether a form is around it.
fn itself(
    alloc: Global,
    g: &Globals,
    s: &Here,
    p: Place,
    e: &Element,
) -> Result<Position, AllocError>
    ensures { IfOk result
        (λ r. position_tree r ≡ computed.itself (sc_view g.now s.now) p (element_tree e.now)) }
{
    let context = context_of(e);
    let uses = uses_of(e);
    let sort = sort_of(tag_of(e));
    let stand = stands_by(alloc, g, s, p, context, uses, stands(tag_of(e)), sort)?;
    let Position { around, told } = stand;
    let rows = rows_told(alloc, g, s, p, context, uses)?;
    let name = name_told(alloc, g, s, p, is_input(sort), field_of(e))?;
    let action = action_by(p, attributes_of(e), sort);
    Ok(Position {
        around,
        told: first(first(told, rows), first(name, action)),
    })
}

/// What an element holds.
fn content_found(
    alloc: Global,
    g: &Globals,
    s: &Here,
    e: &Element,
    around: Around,
    nodes: &Judgements,
) -> Result<NodesFound, AllocError>
    ensures { IfOk result
        (λ r. nodes_found_tree r ≡ computed.content_found (sc_view g.now s.now) (element_tree e.now)
        (around_view around) (judgements_view nodes.now)) }
{
    let tag = tag_of(e);
    let sort = sort_of(tag);
    let uses = uses_of(e);
    content_by(
        alloc,
        g,
        s,
        field_of(e),
        uses,
        stands(tag),
        around,
        nodes_of(e),
        nodes,
        sort,
    )
}

/// An element with what it tells of itself, of its attributes and of its nodes.
fn with_parts(
    alloc: Global,
    e: &Element,
    told: Option<Fault>,
    attributes: AttributesFound,
    nodes: NodesFound,
) -> Result<Judged, AllocError>
    ensures { IfOk result
        (λ j. judged_tree j ≡ computed.with_parts (element_tree e.now) (maybe_fault told)
        (attributes_found_tree attributes) (nodes_found_tree nodes)) }
{
    let AttributesFound {
        found,
        own: of_attributes,
    } = attributes;
    let NodesFound { own: of_nodes, row } = nodes;
    let own = first(told, first(of_attributes, of_nodes));
    let ty = if_found(alloc, context_of(e), uses_of(e), found, &own, row)?;
    Ok(Judged { ty, told: own })
}

/// An element, from what is found for its attributes and for its nodes, without what these tell.
fn element_found(
    alloc: Global,
    g: &Globals,
    s: &Here,
    p: Place,
    e: &Element,
    all: &Carriers,
    attributes: &Judgements,
    nodes: &Judgements,
) -> Result<Judged, AllocError>
    ensures { IfOk result
        (λ j. judged_tree j ≡ computed.element_found (carriers_view all.now) (sc_view g.now s.now) p
        (element_tree e.now) (judgements_view attributes.now) (judgements_view nodes.now)) }
{
    let Position { around, told } = itself(alloc, g, s, p, e)?;
    let given = attributes_of(e);
    let uses = uses_of(e);
    let of_attributes = attributes_found(alloc, g, s, all, tag_of(e), uses, given, attributes)?;
    let of_nodes = content_found(alloc, g, s, e, around, nodes)?;
    with_parts(alloc, e, told, of_attributes, of_nodes)
}

/// What is found, with what its terms tell.
pub fn with_terms(told: Option<Fault>, j: Judged) -> Judged
    ensures { judged_tree result ≡ computed.with_terms (maybe_fault told) (judged_tree j) }
{
    let Judged { ty, told: own } = j;
    Judged {
        ty,
        told: first(told, own),
    }
}

/// Which datatypes' values links carry, where an element has links.
fn marks_for(alloc: Global, g: &Globals, e: &Element) -> Result<Carriers, AllocError>
    ensures { IfOk result
        (λ all. computed.links_of (element_tree e.now) ≡ true
        → AreCarriers (map datatype_view g.now.datatypes.items) (carriers_view all)) }
{
    if has_link(attributes_of(e)) {
        carriers_of(alloc, &g.datatypes)
    } else {
        Ok(Carriers {
            carried: Vec::new(alloc),
        })
    }
}

/// `<tag ..>..</tag>`, from what is found for its attributes and for its nodes.
pub fn of_element(
    alloc: Global,
    g: &Globals,
    s: &Here,
    p: Place,
    e: &Element,
    attributes: Judgements,
    nodes: Judgements,
) -> Result<Judged, AllocError>
    ensures { IfOk result
        (λ j. computed.ElementJudged (sc_view g.now s.now) p (element_tree e.now) (judgements_view attributes)
        (judgements_view nodes) (judged_tree j)) }
{
    let all = marks_for(alloc, g, e)?;
    let found = element_found(alloc, g, s, p, e, &all, &attributes, &nodes)?;
    let told = first(told_of(attributes), told_of(nodes));
    Ok(with_terms(told, found))
}

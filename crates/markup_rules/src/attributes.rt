//! The attributes of an element.
ghost use Rattle.std.specs.Prelude.{◌≡◌, ◌≤◌, length, map, take, IfOk};
ghost use Rattle.carried_types.specs.View.{carriers_view};
ghost use Rattle.con_terms.specs.View.{con_tree};
ghost use Rattle.core_terms.specs.Lists.{attribute_list, attribute_tree};
ghost use Rattle.core_terms.specs.View.{attributes_tree, maybe_con};
ghost use Rattle.judgements.specs.View.{sc_view};
ghost use Rattle.markup_rules.specs.Attributes as computed;
ghost use Rattle.markup_rules.specs.View.{attributes_found_tree, judgements_view, link_view};
ghost use Rattle.type_faults.specs.View.{maybe_fault};

use crate::judged::Judgements;
use crate::links::{LinkFault, link_fault};
use crate::places::{attribute_name, attribute_place, attribute_term, term_place};
use carried_types::Carriers;
use con_terms::{Con, Place};
use core_terms::{AttrName, Attribute, Attributes, TagName};
use judgements::{Globals, Here, copied, wants};
use std::alloc::{AllocError, Global};
use type_faults::{Fault, Name, Twice, first};
use type_makers::attribute_type;

/// Whether all attributes are found, and what is told of them. Contracts see it as `attributes_found_tree`.
#[derive(Drop)]
pub struct AttributesFound {
    pub found: bool,
    pub own: Option<Fault>,
}

/// Whether two names of attributes are one.
fn same_name(n: AttrName, m: AttrName) -> bool
    ensures { result ≡ computed.same_name n m }
{
    match n {
        AttrName::Title => matches!(m, AttrName::Title),
        AttrName::Link => matches!(m, AttrName::Link),
        AttrName::Href => matches!(m, AttrName::Href),
        AttrName::Src => matches!(m, AttrName::Src),
        AttrName::Alt => matches!(m, AttrName::Alt),
        AttrName::Border => matches!(m, AttrName::Border),
        AttrName::Value => matches!(m, AttrName::Value),
        AttrName::Size => matches!(m, AttrName::Size),
        AttrName::Action => matches!(m, AttrName::Action),
    }
}

/// What a link or an action tells at its attribute.
fn link_told(p: Place, fault: LinkFault) -> Option<Fault>
    ensures { maybe_fault result ≡ computed.link_told p (link_view fault) }
{
    match fault {
        LinkFault::Nothing => None,
        LinkFault::NotCall => Some(Fault::LinkNotCall(p)),
        LinkFault::NotSerialisable => Some(Fault::NotSerialisable(p)),
    }
}

/// What an attribute's term tells, whose wanted type this is.
fn other_told(
    alloc: Global,
    g: &Globals,
    s: &Here,
    a: &Attribute,
    t: &Con,
    found: &Option<Con>,
) -> Result<Option<Fault>, AllocError>
    ensures { IfOk result
        (λ o. maybe_fault o ≡ computed.other_told (sc_view g.now s.now) (attribute_tree a.now) (maybe_con found.now)
        (con_tree t.now)) }
{
    match found {
        None => Ok(None),
        Some(v) => wants(alloc, g, s, term_place(attribute_term(a)), t, v),
    }
}

/// What an attribute breaks that is a link or an action.
fn link_of(
    alloc: Global,
    g: &Globals,
    s: &Here,
    all: &Carriers,
    a: &Attribute,
    t: &Con,
    found: &Option<Con>,
) -> Result<LinkFault, AllocError>
    ensures { IfOk result
        (λ r. link_view r ≡ computed.link_of (carriers_view all.now) (sc_view g.now s.now) (attribute_tree a.now).1
        (con_tree t.now) (attribute_tree a.now).2 (maybe_con found.now)) }
{
    match attribute_name(a) {
        AttrName::Link => link_fault(alloc, g, all, false, t, attribute_term(a), found),
        AttrName::Action => link_fault(alloc, g, all, true, t, attribute_term(a), found),
        _ => Ok(LinkFault::Nothing),
    }
}

/// What an attribute tells that the tag has with this type.
fn typed_told(
    alloc: Global,
    g: &Globals,
    s: &Here,
    all: &Carriers,
    a: &Attribute,
    t: &Con,
    found: &Option<Con>,
) -> Result<Option<Fault>, AllocError>
    ensures { IfOk result
        (λ o. maybe_fault o ≡ computed.typed_told (carriers_view all.now) (sc_view g.now s.now) (attribute_tree a.now)
        (maybe_con found.now) (con_tree t.now)) }
{
    let other = other_told(alloc, g, s, a, t, found)?;
    let linked = link_of(alloc, g, s, all, a, t, found)?;
    Ok(first(other, link_told(attribute_place(a), linked)))
}

/// What one attribute tells.
fn attribute_told(
    alloc: Global,
    g: &Globals,
    s: &Here,
    all: &Carriers,
    tag: TagName,
    uses: &Con,
    a: &Attribute,
    found: &Option<Con>,
) -> Result<Option<Fault>, AllocError>
    ensures { IfOk result
        (λ o. maybe_fault o ≡ computed.attribute_told (carriers_view all.now) (sc_view g.now s.now) tag
        (con_tree uses.now) (attribute_tree a.now) (maybe_con found.now)) }
{
    let uses = copied(alloc, uses)?;
    let name = attribute_name(a);
    match attribute_type(alloc, uses, tag, name)? {
        None => Ok(Some(Fault::Unbound(attribute_place(a), Name::Attribute(name)))),
        Some(t) => typed_told(alloc, g, s, all, a, &t, found),
    }
}

/// Whether an attribute of a name stands before a place of the list.
pub fn stands_before(attributes: &Attributes, name: AttrName, before: usize) -> bool
    requires { before ≤ length (attribute_list (attributes_tree attributes.now)) }
    ensures { result ≡ computed.stands_among name (take before (attribute_list (attributes_tree attributes.now))) }
{
    for i in 0..before {
        if same_name(attribute_name(attributes.at(i)), name) {
            return true;
        }
    }
    false
}

/// A second attribute of a name.
fn second_told(attributes: &Attributes, a: &Attribute, i: usize) -> Option<Fault>
    requires { i ≤ length (attribute_list (attributes_tree attributes.now)) }
    ensures { maybe_fault result ≡ computed.second_told (take i (attribute_list (attributes_tree attributes.now)))
        (attribute_tree a.now) }
{
    let name = attribute_name(a);
    if stands_before(attributes, name, i) {
        Some(Fault::Redeclared(attribute_place(a), Twice::Attribute(name)))
    } else {
        None
    }
}

/// Whether a type is there.
fn has_type(t: &Option<Con>) -> bool
    ensures { result ≡ computed.has_type (maybe_con t.now) }
{
    match t {
        None => false,
        Some(_) => true,
    }
}

/// The attributes before a place of the list, and the one at it.
fn with_attribute(
    alloc: Global,
    g: &Globals,
    s: &Here,
    all: &Carriers,
    tag: TagName,
    uses: &Con,
    a: &Attribute,
    ty: &Option<Con>,
    second: Option<Fault>,
    before: AttributesFound,
) -> Result<AttributesFound, AllocError>
    ensures { IfOk result
        (λ r. attributes_found_tree r ≡ computed.with_told (carriers_view all.now) (sc_view g.now s.now) tag
        (con_tree uses.now) (maybe_fault second) (attribute_tree a.now) (maybe_con ty.now)
        (attributes_found_tree before)) }
{
    let AttributesFound { found, own } = before;
    let told = attribute_told(alloc, g, s, all, tag, uses, a, ty)?;
    let is_typed = has_type(ty);
    Ok(AttributesFound {
        found: found && is_typed,
        own: first(first(own, told), second),
    })
}

/// The attributes, from what is found for their terms.
pub fn attributes_found(
    alloc: Global,
    g: &Globals,
    s: &Here,
    all: &Carriers,
    tag: TagName,
    uses: &Con,
    attributes: &Attributes,
    judged: &Judgements,
) -> Result<AttributesFound, AllocError>
    ensures { IfOk result
        (λ r. attributes_found_tree r ≡ computed.attributes_found (carriers_view all.now) (sc_view g.now s.now) tag
        (con_tree uses.now) (attribute_list (attributes_tree attributes.now)) (judgements_view judged.now)) }
{
    let mut now = AttributesFound {
        found: true,
        own: None,
    };
    for i in 0..attributes.len() {
        if i >= judged.len() {
            return Err(AllocError);
        }
        let a = attributes.at(i);
        let second = second_told(attributes, a, i);
        now = with_attribute(
            alloc,
            g,
            s,
            all,
            tag,
            uses,
            a,
            &judged.at(i).ty,
            second,
            now,
        )?;
    }
    Ok(now)
}

/// Whether a name is that of a link or of an action.
fn is_link(n: AttrName) -> bool
    ensures { result ≡ computed.is_link n }
{
    match n {
        AttrName::Link => true,
        AttrName::Action => true,
        _ => false,
    }
}

/// Whether one of the attributes is a link or an action.
pub fn has_link(attributes: &Attributes) -> bool
    ensures { result ≡ computed.has_link (attribute_list (attributes_tree attributes.now)) }
{
    for i in 0..attributes.len() {
        if is_link(attribute_name(attributes.at(i))) {
            return true;
        }
    }
    false
}

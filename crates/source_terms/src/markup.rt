//! Pages: texts, terms and elements.
ghost use Rattle.std.specs.Prelude.{◌≡◌, ◌&&◌, Bool, IfOk};
ghost use Rattle.std.specs.Str.{bytes_eq};
ghost use Rattle.core_terms.specs.Lists.{attribute_tree, node_tree};
ghost use Rattle.core_terms.specs.Strip.{strip, strip_attributes, strip_items, strip_nodes};
ghost use Rattle.core_terms.specs.Trees.{Xs};
ghost use Rattle.core_terms.specs.View.{attributes_tree, exp_tree, form_tree, items_tree, maybe_name, nodes_tree};
ghost use Rattle.plain_tree.specs.ConView as con_view;
ghost use Rattle.plain_tree.specs.ExpView as plain;
ghost use Rattle.plain_tree.specs.Trees.{exp_xml};
ghost use Rattle.source_names.specs.View.{scope_view};
ghost use Rattle.source_terms.specs.Leaves.{form_of};
ghost use Rattle.source_terms.specs.Left.{left};
ghost use Rattle.source_terms.specs.Parts.{is_text_of, reads_attribute, reads_page_node};
ghost use Rattle.source_terms.specs.Tasks.{all_read, at_content};
ghost use Rattle.source_terms.specs.Terms as terms;
ghost use Rattle.source_terms.specs.Terms.{is_filled as fills, reads_attributes, reads_element, reads_form};
ghost use Rattle.source_terms.specs.Terms.{reads_nodes, reads_run};
ghost use Rattle.xml_trees.specs.SourceNames.{tag_text};

use crate::forms::{is_cdata, is_filled};
use crate::leaves::{is_attribute_name, is_tag, is_words};
use crate::standing::{one_left, standing};
use crate::tasks::{Task, ask};
use core_terms::{Attribute, Attributes, Exp, Form, InputName, Items, Node, Nodes, Sigil, TagName};
use source_names::Here;
use std::alloc::{AllocError, Global};
use table_rows::Text;

/// `<xml>..</xml>`
#[inline(never)]
pub fn is_page<'a, 'p>(
    alloc: Global,
    s: &Here<'p>,
    ns: &'a plain_tree::Nodes,
    f: &'a Form,
    tasks: &mut Vec<Task<'a, 'p>>,
) -> Result<bool, AllocError>
    ensures { IfOk result
        (λ b. (b && all_read tasks.new.items)
        ≡ (reads_form (scope_view s.now) (exp_xml (plain.nodes_tree ns.now)) (left (form_tree f.now))
        && all_read tasks.old.items)) }
{
    match f {
        Form::Literal(page) => are_nodes(alloc, s, ns, &page.nodes, tasks),
        _ => Ok(false),
    }
}

/// Nodes beside one another.
#[cycle(are_nodes)]
fn are_nodes<'a, 'p>(
    alloc: Global,
    s: &Here<'p>,
    ns: &'a plain_tree::Nodes,
    xs: &'a Nodes,
    tasks: &mut Vec<Task<'a, 'p>>,
) -> Result<bool, AllocError>
    ensures { IfOk result
        (λ b. (b && all_read tasks.new.items)
        ≡ (reads_nodes (scope_view s.now) (plain.nodes_tree ns.now) (strip_nodes (nodes_tree xs.now))
        && all_read tasks.old.items)) }
{
    if ns.items.len() != xs.items.len() {
        return Ok(false);
    }
    for i in 0..ns.items.len() {
        if !is_node(alloc, s, &ns.items[i], &xs.items[i], tasks)? {
            return Ok(false);
        }
    }
    Ok(true)
}

/// A text, a term or an element.
#[cycle(are_nodes)]
#[inline(never)]
fn is_node<'a, 'p>(
    alloc: Global,
    s: &Here<'p>,
    n: &'a plain_tree::Node,
    x: &'a Node,
    tasks: &mut Vec<Task<'a, 'p>>,
) -> Result<bool, AllocError>
    ensures { IfOk result
        (λ b. (b && all_read tasks.new.items)
        ≡ (reads_page_node (scope_view s.now) (plain.node_tree n.now) (node_tree x.now)
        && all_read tasks.old.items)) }
{
    match n {
        plain_tree::Node::Run(_, t) => Ok(is_run(t, standing(&x.term))),
        plain_tree::Node::Exp(_, e) => {
            ask(tasks, s, e, &x.term)?;
            Ok(true)
        }
        plain_tree::Node::Element(_, tag, field, attributes, nodes) => {
            match content(alloc, s, tag, field, attributes, standing(&x.term), tasks)? {
                None => Ok(false),
                Some(inside) => Ok(are_nodes(alloc, s, nodes, inside, tasks)?),
            }
        }
    }
}

/// A text.
#[inline(never)]
fn is_run(t: &Text, f: &Form) -> bool
    ensures { result ≡ reads_run t.now (left (form_tree f.now)) }
{
    match f {
        Form::Call(head, sigil, items) => {
            if *sigil != Sigil::Plain {
                return false;
            }
            if !is_cdata(standing(head)) {
                return false;
            }
            is_one_text(t, items)
        }
        _ => false,
    }
}

/// Whether one text is all that a call is applied to.
#[tactic(auto, using(crate::proofs::Calling::one_is, crate::proofs::Calling::one_is_not))]
fn is_one_text(t: &Text, items: &Items) -> bool
    ensures { result ≡ terms.is_one_text t.now (strip_items (items_tree items.now)) }
{
    match one_left(items) {
        None => false,
        Some(x) => is_that(t, standing(x)),
    }
}

/// Whether a form is a text.
fn is_that(t: &Text, f: &Form) -> bool
    ensures { result ≡ is_text_of t.now (left (form_tree f.now)) }
{
    match f {
        Form::Words(u) => is_words(u, t),
        _ => false,
    }
}

/// The content of an element, where the element is otherwise the one of the source.
#[inline(never)]
fn content<'a, 'p>(
    alloc: Global,
    s: &Here<'p>,
    tag: &Text,
    field: &Option<plain_tree::Con>,
    attributes: &'a plain_tree::Attributes,
    f: &'a Form,
    tasks: &mut Vec<Task<'a, 'p>>,
) -> Result<Option<&'a Nodes>, AllocError>
    ensures { IfOk result
        (λ o. (test : Xs → Bool) → (at_content o test && all_read tasks.new.items)
        ≡ (reads_element (scope_view s.now) tag.now (con_view.maybe_con field.now)
        (λ bs. reads_attributes (scope_view s.now) (plain.attributes_tree attributes.now) bs) test
        (left (form_tree f.now)) && all_read tasks.old.items)) }
{
    match f {
        Form::Element(x) => {
            if !is_around(
                alloc,
                s,
                tag,
                field,
                attributes,
                x.tag,
                &x.field,
                &x.attributes,
                tasks,
            )? {
                return Ok(None);
            }
            Ok(Some(&x.content))
        }
        _ => Ok(None),
    }
}

/// Whether an element is of this tag, fills this field, and has these attributes.
fn is_around<'a, 'p>(
    alloc: Global,
    s: &Here<'p>,
    tag: &Text,
    field: &Option<plain_tree::Con>,
    attributes: &'a plain_tree::Attributes,
    tag_found: TagName,
    field_found: &Option<InputName>,
    attributes_found: &'a Attributes,
    tasks: &mut Vec<Task<'a, 'p>>,
) -> Result<bool, AllocError>
    ensures { IfOk result
        (λ b. (b && all_read tasks.new.items) ≡ ((bytes_eq (tag_text tag_found) tag.now
        && fills (scope_view s.now) (con_view.maybe_con field.now) (maybe_name field_found.now)
        && reads_attributes (scope_view s.now) (plain.attributes_tree attributes.now)
        (strip_attributes (attributes_tree attributes_found.now))) && all_read tasks.old.items)) }
{
    if !is_tag(tag_found, tag) {
        return Ok(false);
    }
    if !is_filled(alloc, s, field, field_found)? {
        return Ok(false);
    }
    Ok(are_attributes(alloc, s, attributes, attributes_found, tasks)?)
}

/// The attributes of an element.
fn are_attributes<'a, 'p>(
    alloc: Global,
    s: &Here<'p>,
    bs: &'a plain_tree::Attributes,
    cs: &'a Attributes,
    tasks: &mut Vec<Task<'a, 'p>>,
) -> Result<bool, AllocError>
    ensures { IfOk result
        (λ b. (b && all_read tasks.new.items) ≡ (reads_attributes (scope_view s.now) (plain.attributes_tree bs.now)
        (strip_attributes (attributes_tree cs.now)) && all_read tasks.old.items)) }
{
    if bs.items.len() != cs.items.len() {
        return Ok(false);
    }
    for i in 0..bs.items.len() {
        if !is_attribute(alloc, s, &bs.items[i], &cs.items[i], tasks)? {
            return Ok(false);
        }
    }
    Ok(true)
}

/// `a=e`
#[inline(never)]
fn is_attribute<'a, 'p>(
    alloc: Global,
    s: &Here<'p>,
    b: &'a plain_tree::Attribute,
    c: &'a Attribute,
    tasks: &mut Vec<Task<'a, 'p>>,
) -> Result<bool, AllocError>
    ensures { IfOk result
        (λ r. (r && all_read tasks.new.items)
        ≡ (reads_attribute (scope_view s.now) (plain.attribute_tree b.now) (attribute_tree c.now)
        && all_read tasks.old.items)) }
{
    if !is_attribute_name(c.name, &b.name.text) {
        return Ok(false);
    }
    ask(tasks, s, &b.value, &c.value)?;
    Ok(true)
}

//! Markup.
ghost use Rattle.std.specs.Prelude.{◌≡◌, map, IfOk};
ghost use Rattle.plain_tree.specs.ConView.{maybe_con};
ghost use Rattle.plain_tree.specs.ExpView.{attribute_tree, exp_tree, node_tree};
ghost use Rattle.plain_tree.specs.Trees.{node_exp};
ghost use Rattle.desugar_values.specs.Meanings.{a_node};
ghost use Rattle.desugar_values.specs.View.{meaning_tree, meanings_tree};
ghost use Rattle.desugar_terms.specs.Markup.{attribute_by, attribute_of, attributes_of, brace_by, element_at, element_by, element_end, node_brace, node_text, run_of, splice, whole_element};
ghost use Rattle.desugar_terms.specs.Nodes.{nodes_of};

use crate::boxes::{boxed_exp, boxed_exp_of, next_exp};
use crate::lists::{attributes_made, nodes_made};
use crate::made::call_one;
use crate::nodes::nodes_of;
use desugar_types::both;
use desugar_values::{Meaning, Meanings, group_of};
use plain_tree::{Attribute, Basis, Con, Exp, Node, Word};
use std::alloc::{AllocError, Global};

/// A node of markup.
fn boxed(alloc: Global, node: Node) -> Result<Meaning, AllocError>
    ensures { IfOk result (λ m. meaning_tree m ≡ a_node (node_tree node)) }
{
    Ok(Meaning::Node(Box::new(alloc, node)?))
}

/// A name as a run of text, at its place.
fn run_of(word: Word) -> Node
    ensures { node_tree result ≡ run_of word }
{
    Node::Run(word.at, word.text)
}

/// `NodeText = text`
pub fn node_text(alloc: Global, parts: Meanings) -> Result<Meaning, AllocError>
    ensures { IfOk result (λ m. meaning_tree m ≡ node_text (meanings_tree parts)) }
{
    let mut parts = parts;
    boxed(alloc, run_of(parts.name(alloc)))
}

/// A term as a node.
fn node_at(at: u32, exp: Box<Exp>) -> Node
    ensures { node_tree result ≡ node_exp at (exp_tree exp.value) }
{
    Node::Exp(at, Box::into_inner(exp))
}

/// `"{" Splice "}"`, `Splice = "[" Exp "]"`: `{[e]}` is `txt e`, at the brace.
fn splice(alloc: Global, at: u32, parts: Meanings) -> Result<Node, AllocError>
    ensures { IfOk result (λ n. node_tree n ≡ splice at (meanings_tree parts)) }
{
    let mut parts = parts;
    parts.skip();
    let x = next_exp(alloc, &mut parts)?;
    let form = call_one(alloc, at, Basis::Txt, x)?;
    Ok(node_at(at, boxed_exp(alloc, at, form)?))
}

/// What stands in braces: `NodeSplice = Splice "}"`, or `NodeExp = Exp "}"`.
fn brace_by(alloc: Global, at: u32, first: Meaning) -> Result<Node, AllocError>
    ensures { IfOk result (λ n. node_tree n ≡ brace_by at (meaning_tree first)) }
{
    match first {
        Meaning::Group(parts) => splice(alloc, at, parts),
        other => Ok(node_at(at, boxed_exp_of(alloc, other)?)),
    }
}

/// `NodeBrace = "{" NodeBraceRest`
pub fn node_brace(alloc: Global, parts: Meanings) -> Result<Meaning, AllocError>
    ensures { IfOk result (λ m. meaning_tree m ≡ node_brace (meanings_tree parts)) }
{
    let mut parts = parts;
    let at = parts.at();
    let mut rest = parts.group(alloc);
    let node = brace_by(alloc, at, rest.take())?;
    boxed(alloc, node)
}

/// `name "=" AttributeValue`
fn attribute_by(alloc: Global, parts: Meanings) -> Attribute
    ensures { attribute_tree result ≡ attribute_by (meanings_tree parts) }
{
    let mut parts = parts;
    let name = parts.name(alloc);
    parts.skip();
    Attribute {
        name,
        value: parts.exp(),
    }
}

/// `Attribute = name "=" AttributeValue`
fn attribute_of(alloc: Global, part: Meaning) -> Attribute
    ensures { attribute_tree result ≡ attribute_of (meaning_tree part) }
{
    attribute_by(alloc, group_of(alloc, part))
}

/// `{Attribute}`
fn attributes_of(alloc: Global, several: Meanings) -> Result<Vec<Attribute>, AllocError>
    ensures { IfOk result (λ made. map attribute_tree made.items ≡ attributes_of (meanings_tree several)) }
{
    let mut made = Vec::new(alloc);
    for part in several.into_list() {
        made.push(attribute_of(alloc, part))?;
    }
    Ok(made)
}

/// What stands in an element: `ElementEmpty = "/>"`, or `ElementFull = ">" {Node} close_tag`.
fn element_end(alloc: Global, parts: Meanings) -> Result<Vec<Node>, AllocError>
    ensures { IfOk result (λ nodes. map node_tree nodes.items ≡ element_end (meanings_tree parts)) }
{
    let mut parts = parts;
    parts.skip();
    nodes_of(alloc, parts.several(alloc))
}

/// An element by its opening tag, its name, its attributes and what stands in it.
fn element_at(tag: Word, name: Option<Con>, attributes: Vec<Attribute>, inner: Vec<Node>) -> Node
    ensures { node_tree result
        ≡ element_at tag (maybe_con name) (map attribute_tree attributes.items) (map node_tree inner.items) }
{
    let attributes = attributes_made(attributes);
    let inner = nodes_made(inner);
    Node::Element(tag.at, tag.text, name, attributes, inner)
}

/// `[TagName] {Attribute} ElementEnd`, behind the opening tag.
fn element_by(alloc: Global, tag: Word, parts: Meanings) -> Result<Node, AllocError>
    ensures { IfOk result (λ n. node_tree n ≡ element_by tag (meanings_tree parts)) }
{
    let mut parts = parts;
    let name = parts.maybe_con();
    let attributes = attributes_of(alloc, parts.several(alloc));
    match both(attributes, element_end(alloc, parts.group(alloc))) {
        Ok((attributes, inner)) => Ok(element_at(tag, name, attributes, inner)),
        Err(full) => {
            drop(name);
            Err(full)
        }
    }
}

/// `NodeElement = open_tag [TagName] {Attribute} ElementEnd`
pub fn whole_element(alloc: Global, parts: Meanings) -> Result<Meaning, AllocError>
    ensures { IfOk result (λ m. meaning_tree m ≡ whole_element (meanings_tree parts)) }
{
    let mut parts = parts;
    let tag = parts.name(alloc);
    let node = element_by(alloc, tag, parts)?;
    boxed(alloc, node)
}

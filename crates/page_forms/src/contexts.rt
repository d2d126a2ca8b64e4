//! The context of a literal of a page that nothing else tells: the first that fits its nodes.
ghost use Rattle.std.specs.Prelude.{◌≡◌, ◌++◌, ◌∷◌, [], IfOk, OnOk, map, option_map};
ghost use Rattle.core_terms.specs.Markup as meant;
ghost use Rattle.guided_terms.specs.Contexts as rule;
ghost use Rattle.page_forms.specs.Tags as computed;
ghost use Rattle.page_forms.specs.View.{ring_view};
ghost use Rattle.plain_tree.specs.ExpView.{exp_tree, node_tree, nodes_tree};
ghost use Rattle.type_makers.specs.Standing.{where_of};
ghost use Rattle.xml_trees.specs.SourceNames as spelled;

use core_terms::TagName;
use name_scopes::ElabFault;
use open_terms::Env;
use plain_tree::{Basis, Exp, Form, Node, Nodes};
use std::alloc::{AllocError, Global};
use table_rows::Text;
use type_makers::{Standing, TagSort, sort_of, stands};

/// A place, and whether a form is around it.
#[derive(Clone, Copy, Debug, PartialEq, Eq)]
pub struct Ring {
    pub standing: Standing,
    pub in_form: bool,
}

/// A place without a form around it.
fn free(standing: Standing) -> Ring
    ensures { ring_view result ≡ rule.free (where_of standing) }
{
    Ring {
        standing,
        in_form: false,
    }
}

/// Whether a term is `txt` of another, as `{[e]}` stands for.
pub fn is_spliced_value(e: &Exp) -> bool
    ensures { result ≡ rule.is_spliced_value (exp_tree e.now) }
{
    match &e.form {
        Form::Call(head, _) => match &head.form {
            Form::Basis(Basis::Txt) => true,
            _ => false,
        },
        _ => false,
    }
}

/// Whether a node is a tree that is spliced in.
fn is_spliced_tree(node: &Node) -> bool
    ensures { result ≡ rule.is_spliced_tree (node_tree node.now) }
{
    match node {
        Node::Exp(_, e) => !is_spliced_value(e),
        _ => false,
    }
}

/// Where the first tree that is spliced in stands among nodes.
pub fn first_spliced(nodes: &Nodes) -> Option<usize>
    ensures { result ≡ rule.first_spliced (nodes_tree nodes.now) }
{
    for i in 0..nodes.items.len() {
        if is_spliced_tree(&nodes.items[i]) {
            return Some(i);
        }
    }
    None
}

/// The tag of a name.
pub fn tag_named(alloc: Global, env: &Env, at: u32, name: &Text) -> Result<TagName, ElabFault>
    ensures { IfOk result (λ tag. spelled.tag_named name.now ≡ Some tag) }
{
    match TagName::named(name.as_str()) {
        Some(tag) => Ok(tag),
        None => Err(ElabFault::Unbound(env.place(at), name.copy(alloc)?)),
    }
}

/// Puts a tag last.
fn put(tags: &mut Vec<TagName>, tag: TagName) -> Result<(), AllocError>
    ensures { OnOk result (tags.new.items ≡ tags.old.items ++ tag ∷ []) }
{
    tags.push(tag)?;
    Ok(())
}

/// The tags of the elements among nodes.
fn tags_of(alloc: Global, env: &Env, nodes: &Nodes) -> Result<Vec<TagName>, ElabFault>
    ensures { IfOk result (λ tags. computed.tags_of (nodes_tree nodes.now) ≡ map Some tags.items) }
{
    let mut tags = Vec::new(alloc);
    for i in 0..nodes.items.len() {
        match &nodes.items[i] {
            Node::Element(at, name, _, _, _) => {
                let tag = tag_named(alloc, env, *at, name)?;
                put(&mut tags, tag)?;
            }
            _ => {}
        }
    }
    Ok(tags)
}

/// Whether a tag stands in this kind of place.
fn stands_in(tag: TagName, standing: Standing) -> bool
    ensures { result ≡ rule.same_place (meant.stands tag) (where_of standing) }
{
    stands(tag) == standing
}

/// Whether a tag stands in a place.
fn fits(tag: TagName, ring: Ring) -> bool
    ensures { result ≡ rule.tag_fits tag (ring_view ring) }
{
    if !stands_in(tag, ring.standing) {
        return false;
    }
    match sort_of(tag) {
        TagSort::Form => !ring.in_form,
        TagSort::TextInput | TagSort::TruthInput | TagSort::Button => ring.in_form,
        _ => true,
    }
}

/// Whether each tag stands in a place.
fn fits_all(tags: &Vec<TagName>, ring: Ring) -> bool
    ensures { result ≡ computed.all_stand (ring_view ring) tags.now.items }
{
    for i in 0..tags.len() {
        if !fits(tags[i], ring) {
            return false;
        }
    }
    true
}

/// The first of these places in which each tag stands.
fn first_of(rings: &[Ring], tags: &Vec<TagName>) -> Option<Ring>
    ensures { option_map ring_view result ≡ computed.first_of (map ring_view rings.now) tags.now.items }
{
    for i in 0..rings.len() {
        if fits_all(tags, rings[i]) {
            return Some(rings[i]);
        }
    }
    None
}

/// The first place in which each tag stands: one without a form around it, or else a body with one.
fn first_fitting(tags: &Vec<TagName>) -> Option<Ring>
    ensures { option_map ring_view result ≡ computed.first_of rule.rings tags.now.items }
{
    let rings = [
        free(Standing::Html),
        free(Standing::Body),
        free(Standing::Head),
        free(Standing::Table),
        free(Standing::Tr),
        Ring {
            standing: Standing::Body,
            in_form: true,
        },
    ];
    first_of(&rings, tags)
}

/// Whether there are nodes, and no tags among them.
fn are_texts(nodes: &Nodes, tags: &Vec<TagName>) -> bool
    ensures { result ≡ computed.are_texts (nodes_tree nodes.now) tags.now.items }
{
    if nodes.items.is_empty() {
        return false;
    }
    tags.is_empty()
}

/// The place of nodes of which none is a tree that is spliced in; none where no place fits.
///
/// Texts alone stand in a body.
pub fn ring_of(alloc: Global, env: &Env, nodes: &Nodes) -> Result<Option<Ring>, ElabFault>
    ensures { IfOk result (λ ring. option_map ring_view ring ≡ rule.place_of (nodes_tree nodes.now)) }
{
    let tags = tags_of(alloc, env, nodes)?;
    if are_texts(nodes, &tags) {
        return Ok(Some(free(Standing::Body)));
    }
    Ok(first_fitting(&tags))
}

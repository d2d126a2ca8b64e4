//! The terms that stand side by side in one scope, whatever else stands in their list.
ghost use Rattle.std.specs.Prelude.{◌≡◌, Some, length, option_map};
ghost use Rattle.core_checker.specs.Parts.{part_terms};
ghost use Rattle.core_terms.specs.Lists.{item_tree};
ghost use Rattle.core_terms.specs.View.{attributes_tree, exp_tree, exps_tree, fields_tree, items_tree, named_list_tree, nodes_tree};
ghost use Rattle.judged_terms.specs.Listed.{attribute_parts, exp_parts, field_terms, item_part, item_terms, name_terms, node_parts, part_at};

use crate::places::{attribute_term, field_term, named_term, node_term};
use core_terms::{Attributes, Exp, Exps, Fields, Item, Items, NamedList, Nodes};

/// A list in which terms stand. Contracts see it as `part_terms`.
#[derive(Clone, Copy)]
pub enum Parts<'a> {
    Items(&'a Items),
    Fields(&'a Fields),
    Names(&'a NamedList),
    Attributes(&'a Attributes),
    Nodes(&'a Nodes),
    Terms(&'a Exps),
}

impl<'a> Parts<'a> {
    /// How many things stand in the list.
    pub fn len(self) -> usize
        ensures { result ≡ length (part_terms self.entry) }
    {
        match self {
            Parts::Items(is) => is.len(),
            Parts::Fields(fs) => fs.len(),
            Parts::Names(ns) => ns.len(),
            Parts::Attributes(attributes) => attributes.len(),
            Parts::Nodes(nodes) => nodes.len(),
            Parts::Terms(es) => es.len(),
        }
    }

    /// The term at a place of the list, counted from 0; none where something else stands there.
    pub fn at(self, i: usize) -> Option<&'a Exp>
        ensures { option_map (λ e. exp_tree e.now) result ≡ part_at (part_terms self.entry) i }
    {
        match self {
            Parts::Items(is) => item_at(is, i),
            Parts::Fields(fs) => field_at(fs, i),
            Parts::Names(ns) => name_at(ns, i),
            Parts::Attributes(attributes) => attribute_at(attributes, i),
            Parts::Nodes(nodes) => node_at(nodes, i),
            Parts::Terms(es) => term_at(es, i),
        }
    }
}

/// The term that an item is.
fn item_term(item: &Item) -> Option<&Exp>
    ensures { option_map (λ e. exp_tree e.now) result ≡ item_part (item_tree item.now) }
{
    match item {
        Item::Term(e) => Some(e),
        Item::Con(_, _, _) => None,
        Item::Guard(_, _) => None,
    }
}

/// The term at a place among items.
#[tactic(auto, using(crate::proofs::Listed::part_some, crate::proofs::Listed::part_none))]
fn item_at(is: &Items, i: usize) -> Option<&Exp>
    ensures { option_map (λ e. exp_tree e.now) result ≡ part_at (item_terms (items_tree is.now)) i }
{
    if i < is.len() {
        item_term(is.at(i))
    } else {
        None
    }
}

/// The term at a place among fields.
#[tactic(auto, using(crate::proofs::Listed::part_some, crate::proofs::Listed::part_none))]
fn field_at(fs: &Fields, i: usize) -> Option<&Exp>
    ensures { option_map (λ e. exp_tree e.now) result ≡ part_at (field_terms (fields_tree fs.now)) i }
{
    if i < fs.len() {
        Some(field_term(fs.at(i)))
    } else {
        None
    }
}

/// The term at a place among names.
#[tactic(auto, using(crate::proofs::Listed::part_some, crate::proofs::Listed::part_none))]
fn name_at(ns: &NamedList, i: usize) -> Option<&Exp>
    ensures { option_map (λ e. exp_tree e.now) result ≡ part_at (name_terms (named_list_tree ns.now)) i }
{
    if i < ns.len() {
        Some(named_term(ns.at(i)))
    } else {
        None
    }
}

/// The term at a place among attributes.
#[tactic(auto, using(crate::proofs::Listed::part_some, crate::proofs::Listed::part_none))]
fn attribute_at(attributes: &Attributes, i: usize) -> Option<&Exp>
    ensures { option_map (λ e. exp_tree e.now) result ≡ part_at (attribute_parts (attributes_tree attributes.now)) i }
{
    if i < attributes.len() {
        Some(attribute_term(attributes.at(i)))
    } else {
        None
    }
}

/// The term at a place among nodes.
#[tactic(auto, using(crate::proofs::Listed::part_some, crate::proofs::Listed::part_none))]
fn node_at(nodes: &Nodes, i: usize) -> Option<&Exp>
    ensures { option_map (λ e. exp_tree e.now) result ≡ part_at (node_parts (nodes_tree nodes.now)) i }
{
    if i < nodes.len() {
        Some(node_term(nodes.at(i)))
    } else {
        None
    }
}

/// The term at a place among terms.
#[tactic(auto, using(crate::proofs::Listed::part_some, crate::proofs::Listed::part_none))]
fn term_at(es: &Exps, i: usize) -> Option<&Exp>
    ensures { option_map (λ e. exp_tree e.now) result ≡ part_at (exp_parts (exps_tree es.now)) i }
{
    if i < es.len() { Some(es.at(i)) } else { None }
}

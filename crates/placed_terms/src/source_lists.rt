//! The parts of plain declarations that stand in lists.
ghost use Rattle.std.specs.Prelude.{◌≡◌, ◌∷◌, OnOk};
ghost use Rattle.plain_tree.specs.ExpView.{exp_tree, named_list_tree};
ghost use Rattle.placed_terms.specs.Parts.{source_listed};
ghost use Rattle.placed_terms.specs.Source as goal;
ghost use Rattle.placed_terms.specs.SourceItems as items;

use crate::source_parts::{SourceItem, SourcePart, put, put_at};
use plain_tree::{
    Attribute, Branch, DatatypeBuilder, Exp, Field, Infix, Item, Link, Local, Named, NamedList,
    Node, PatField, Word,
};
use std::alloc::AllocError;

/// A byte, and a term behind it.
pub fn put_inside<'a>(
    parts: &mut Vec<SourcePart<'a>>,
    at: u32,
    e: &'a Exp,
) -> Result<(), AllocError>
    ensures { OnOk result (source_listed parts.new.items
        ≡ at ∷ goal.exp_then (exp_tree e.now) (source_listed parts.old.items)) }
{
    put(parts, SourcePart::Term(e))?;
    put_at(parts, at)
}

/// A branch of a `case`.
pub fn put_branch<'a>(parts: &mut Vec<SourcePart<'a>>, b: &'a Branch) -> Result<(), AllocError>
    ensures { OnOk result
        (source_listed parts.new.items ≡ items.branch_bytes b.now (source_listed parts.old.items)) }
{
    put(parts, SourcePart::Term(&b.body))?;
    put(parts, SourcePart::Pattern(&b.pat))?;
    put_at(parts, b.at)
}

/// Names that are declared together.
#[tactic(auto, using(crate::proofs::Bridges::source_names_are))]
fn put_names<'a>(parts: &mut Vec<SourcePart<'a>>, ns: &'a NamedList) -> Result<(), AllocError>
    ensures { OnOk result (source_listed parts.new.items
        ≡ goal.group_then (named_list_tree ns.now) (source_listed parts.old.items)) }
{
    put(parts, SourcePart::Names(ns.items.as_slice()))
}

/// A declaration of values.
pub fn put_local<'a>(parts: &mut Vec<SourcePart<'a>>, local: &'a Local) -> Result<(), AllocError>
    ensures { OnOk result
        (source_listed parts.new.items ≡ items.local_bytes local.now (source_listed parts.old.items)) }
{
    match local {
        Local::Val(_, n) => put_inside(parts, n.name.at, &n.exp),
        Local::ValRec(_, ns) => put_names(parts, ns),
    }
}

/// The same byte three times.
pub fn put_three(parts: &mut Vec<SourcePart<'_>>, at: u32) -> Result<(), AllocError>
    ensures { OnOk result
        (source_listed parts.new.items ≡ at ∷ at ∷ at ∷ source_listed parts.old.items) }
{
    put_at(parts, at)?;
    put_at(parts, at)?;
    put_at(parts, at)
}

/// `&& e` behind its left side.
fn put_conjunct<'a>(parts: &mut Vec<SourcePart<'a>>, o: u32, e: &'a Exp) -> Result<(), AllocError>
    ensures { OnOk result (source_listed parts.new.items
        ≡ o ∷ o ∷ goal.exp_then (exp_tree e.now) (o ∷ o ∷ o ∷ source_listed parts.old.items)) }
{
    put_three(parts, o)?;
    put_inside(parts, o, e)?;
    put_at(parts, o)
}

/// `|| e` behind its left side.
fn put_disjunct<'a>(parts: &mut Vec<SourcePart<'a>>, o: u32, e: &'a Exp) -> Result<(), AllocError>
    ensures { OnOk result (source_listed parts.new.items
        ≡ o ∷ o ∷ o ∷ o ∷ o ∷ goal.exp_then (exp_tree e.now) (source_listed parts.old.items)) }
{
    put_inside(parts, o, e)?;
    put_at(parts, o)?;
    put_three(parts, o)
}

/// An operator behind its left side, with its right side.
fn put_side<'a>(
    parts: &mut Vec<SourcePart<'a>>,
    o: u32,
    op: Infix,
    e: &'a Exp,
) -> Result<(), AllocError>
    ensures { OnOk result (source_listed parts.new.items
        ≡ goal.infix_behind o op (λ rest. goal.exp_then (exp_tree e.now) rest) (source_listed parts.old.items)) }
{
    match op {
        Infix::And => put_conjunct(parts, o, e),
        Infix::Or => put_disjunct(parts, o, e),
        Infix::Concat
        | Infix::Strcat
        | Infix::Plus
        | Infix::Minus
        | Infix::Times
        | Infix::Divide
        | Infix::Mod => put(parts, SourcePart::Term(e)),
    }
}

impl SourceItem for Field {
    ghost bytes = { items.field_bytes };

    fn put_parts<'a>(&'a self, parts: &mut Vec<SourcePart<'a>>) -> Result<(), AllocError> {
        put_inside(parts, self.at, &self.value)
    }
}

impl SourceItem for Attribute {
    ghost bytes = { items.attribute_bytes };

    fn put_parts<'a>(&'a self, parts: &mut Vec<SourcePart<'a>>) -> Result<(), AllocError> {
        put_inside(parts, self.name.at, &self.value)
    }
}

impl SourceItem for Named {
    ghost bytes = { items.named_bytes };

    fn put_parts<'a>(&'a self, parts: &mut Vec<SourcePart<'a>>) -> Result<(), AllocError> {
        put_inside(parts, self.name.at, &self.exp)
    }
}

impl SourceItem for Node {
    ghost bytes = { items.node_bytes };

    fn put_parts<'a>(&'a self, parts: &mut Vec<SourcePart<'a>>) -> Result<(), AllocError> {
        put(parts, SourcePart::Node(self))
    }
}

impl SourceItem for Exp {
    ghost bytes = { items.term_bytes };

    fn put_parts<'a>(&'a self, parts: &mut Vec<SourcePart<'a>>) -> Result<(), AllocError> {
        put(parts, SourcePart::Term(self))
    }
}

impl SourceItem for Local {
    ghost bytes = { items.local_bytes };

    fn put_parts<'a>(&'a self, parts: &mut Vec<SourcePart<'a>>) -> Result<(), AllocError> {
        put_local(parts, self)
    }
}

impl SourceItem for Branch {
    ghost bytes = { items.branch_bytes };

    fn put_parts<'a>(&'a self, parts: &mut Vec<SourcePart<'a>>) -> Result<(), AllocError> {
        put_branch(parts, self)
    }
}

impl SourceItem for Item {
    ghost bytes = { items.item_bytes };

    fn put_parts<'a>(&'a self, parts: &mut Vec<SourcePart<'a>>) -> Result<(), AllocError> {
        match self {
            Item::Term(e) => put(parts, SourcePart::Term(e)),
            Item::Con(at, _) => put_at(parts, *at),
            Item::Guard(at) => put_at(parts, *at),
        }
    }
}

impl SourceItem for Link {
    ghost bytes = { items.link_bytes };

    fn put_parts<'a>(&'a self, parts: &mut Vec<SourcePart<'a>>) -> Result<(), AllocError> {
        match self {
            Link::Infix(o, op, e) => put_side(parts, *o, *op, e),
            Link::Field(_) | Link::Without(_, _) | Link::WithoutRow(_, _) => Ok(()),
        }
    }
}

impl SourceItem for PatField {
    ghost bytes = { items.pattern_field_bytes };

    fn put_parts<'a>(&'a self, parts: &mut Vec<SourcePart<'a>>) -> Result<(), AllocError> {
        put(parts, SourcePart::Pattern(&self.pat))?;
        put_at(parts, self.at)
    }
}

impl SourceItem for DatatypeBuilder {
    ghost bytes = { items.builder_bytes };

    fn put_parts<'a>(&'a self, parts: &mut Vec<SourcePart<'a>>) -> Result<(), AllocError> {
        put_at(parts, self.name.at)
    }
}

impl SourceItem for Word {
    ghost bytes = { items.word_bytes };

    fn put_parts<'a>(&'a self, parts: &mut Vec<SourcePart<'a>>) -> Result<(), AllocError> {
        put_at(parts, self.at)
    }
}

//! The parts of explicit declarations that stand in lists. What was inserted is passed.
ghost use Rattle.std.specs.Prelude.{◌≡◌, ◌∷◌, OnOk};
ghost use Rattle.core_terms.specs.Strip.{strip, strip_named};
ghost use Rattle.core_terms.specs.View.{exp_tree, named_list_tree};
ghost use Rattle.placed_terms.specs.Made.{exp_then, named_then};
ghost use Rattle.placed_terms.specs.MadeItems as items;
ghost use Rattle.placed_terms.specs.Parts.{made_listed};

use crate::made_parts::{MadeItem, MadePart, put, put_at};
use con_terms::Place;
use core_terms::{
    Attribute, Branch, Column, ConOrigin, Constructor, Exp, Field, Item, Local, Named, NamedList,
    Node, PatField,
};
use std::alloc::AllocError;

/// A place, and a term behind it.
pub fn put_inside<'a>(
    parts: &mut Vec<MadePart<'a>>,
    place: Place,
    e: &'a Exp,
) -> Result<(), AllocError>
    ensures { OnOk result (made_listed parts.new.items
        ≡ place ∷ exp_then (strip (exp_tree e.now)) (made_listed parts.old.items)) }
{
    put(parts, MadePart::Term(e))?;
    put_at(parts, place)
}

/// A branch of a `case`.
pub fn put_branch<'a>(parts: &mut Vec<MadePart<'a>>, b: &'a Branch) -> Result<(), AllocError>
    ensures { OnOk result (made_listed parts.new.items ≡ items.branch_places b.now (made_listed parts.old.items)) }
{
    put(parts, MadePart::Term(&b.body))?;
    put(parts, MadePart::Pattern(&b.pat))?;
    put_at(parts, b.place)
}

/// Names that are declared together.
#[tactic(auto, using(crate::proofs::Bridges::names_are))]
fn put_names<'a>(parts: &mut Vec<MadePart<'a>>, ns: &'a NamedList) -> Result<(), AllocError>
    ensures { OnOk result (made_listed parts.new.items
        ≡ named_then (strip_named (named_list_tree ns.now)) (made_listed parts.old.items)) }
{
    put(parts, MadePart::Names(ns.items.as_slice()))
}

/// An item of a call, where it was written.
fn put_item<'a>(parts: &mut Vec<MadePart<'a>>, item: &'a Item) -> Result<(), AllocError>
    ensures { OnOk result (made_listed parts.new.items ≡ items.item_places item.now (made_listed parts.old.items)) }
{
    match item {
        Item::Term(e) => {
            if e.added {
                return Ok(());
            }
            put(parts, MadePart::Term(e))
        }
        Item::Con(place, origin, _) => match *origin {
            ConOrigin::Inserted => Ok(()),
            ConOrigin::Written | ConOrigin::Wild => put_at(parts, *place),
        },
        Item::Guard(place, added) => {
            if *added {
                return Ok(());
            }
            put_at(parts, *place)
        }
    }
}

impl MadeItem for Field {
    ghost places = { items.field_places };

    fn put_parts<'a>(&'a self, parts: &mut Vec<MadePart<'a>>) -> Result<(), AllocError> {
        put_inside(parts, self.place, &self.value)
    }
}

impl MadeItem for Attribute {
    ghost places = { items.attribute_places };

    fn put_parts<'a>(&'a self, parts: &mut Vec<MadePart<'a>>) -> Result<(), AllocError> {
        put_inside(parts, self.place, &self.value)
    }
}

impl MadeItem for Named {
    ghost places = { items.named_places };

    fn put_parts<'a>(&'a self, parts: &mut Vec<MadePart<'a>>) -> Result<(), AllocError> {
        put_inside(parts, self.place, &self.exp)
    }
}

impl MadeItem for Node {
    ghost places = { items.node_places };

    fn put_parts<'a>(&'a self, parts: &mut Vec<MadePart<'a>>) -> Result<(), AllocError> {
        put(parts, MadePart::Term(&self.term))
    }
}

impl MadeItem for Exp {
    ghost places = { items.term_places };

    fn put_parts<'a>(&'a self, parts: &mut Vec<MadePart<'a>>) -> Result<(), AllocError> {
        put(parts, MadePart::Term(self))
    }
}

impl MadeItem for Local {
    ghost places = { items.local_places };

    fn put_parts<'a>(&'a self, parts: &mut Vec<MadePart<'a>>) -> Result<(), AllocError> {
        match self {
            Local::Val(n) => put_inside(parts, n.place, &n.exp),
            Local::ValRec(ns) => put_names(parts, ns),
        }
    }
}

impl MadeItem for Branch {
    ghost places = { items.branch_places };

    fn put_parts<'a>(&'a self, parts: &mut Vec<MadePart<'a>>) -> Result<(), AllocError> {
        put_branch(parts, self)
    }
}

impl MadeItem for Item {
    ghost places = { items.item_places };

    fn put_parts<'a>(&'a self, parts: &mut Vec<MadePart<'a>>) -> Result<(), AllocError> {
        put_item(parts, self)
    }
}

impl MadeItem for PatField {
    ghost places = { items.pattern_field_places };

    fn put_parts<'a>(&'a self, parts: &mut Vec<MadePart<'a>>) -> Result<(), AllocError> {
        put(parts, MadePart::Pattern(&self.pat))?;
        put_at(parts, self.place)
    }
}

impl MadeItem for Constructor {
    ghost places = { items.constructor_places };

    fn put_parts<'a>(&'a self, parts: &mut Vec<MadePart<'a>>) -> Result<(), AllocError> {
        put_at(parts, self.place)
    }
}

impl MadeItem for Column {
    ghost places = { items.column_places };

    fn put_parts<'a>(&'a self, parts: &mut Vec<MadePart<'a>>) -> Result<(), AllocError> {
        put_at(parts, self.place)
    }
}

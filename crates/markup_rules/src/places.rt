//! Where terms stand, and what nodes and attributes are made of.
ghost use Rattle.std.specs.Prelude.{◌≡◌};
ghost use Rattle.con_terms.specs.View.{con_tree};
ghost use Rattle.core_terms.specs.Lists.{attribute_tree, node_tree};
ghost use Rattle.core_terms.specs.View.{exp_tree};
ghost use Rattle.core_typing.specs.Own.{place_of};

use con_terms::{Con, Place};
use core_terms::{AttrName, Attribute, Exp, Node};

/// Where a term stands.
pub fn term_place(e: &Exp) -> Place
    ensures { result ≡ place_of (exp_tree e.now) }
{
    e.place
}

/// Where a node's term stands.
pub fn node_place(x: &Node) -> Place
    ensures { result ≡ place_of (node_tree x.now).1 }
{
    term_place(&x.term)
}

/// The term of a node.
pub fn node_term(x: &Node) -> &Exp
    ensures { exp_tree result.now ≡ (node_tree x.now).1 }
{
    &x.term
}

/// The fields that a node fills.
pub fn node_fills(x: &Node) -> &Con
    ensures { con_tree result.now ≡ (node_tree x.now).0 }
{
    &x.fills
}

/// Where an attribute stands.
pub fn attribute_place(a: &Attribute) -> Place
    ensures { result ≡ (attribute_tree a.now).0 }
{
    a.place
}

/// The name of an attribute.
pub fn attribute_name(a: &Attribute) -> AttrName
    ensures { result ≡ (attribute_tree a.now).1 }
{
    a.name
}

/// The term of an attribute.
pub fn attribute_term(a: &Attribute) -> &Exp
    ensures { exp_tree result.now ≡ (attribute_tree a.now).2 }
{
    &a.value
}

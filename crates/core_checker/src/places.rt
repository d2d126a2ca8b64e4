//! What terms, names and elements are made of.
ghost use Rattle.std.specs.Prelude.{◌≡◌};
ghost use Rattle.con_terms.specs.View.{con_tree};
ghost use Rattle.core_terms.specs.Lists.{attribute_tree, branch_tree, field_tree, node_tree};
ghost use Rattle.core_terms.specs.View.{attributes_tree, exp_tree, named_tree, nodes_tree, pat_tree};
ghost use Rattle.core_typing.specs.Own.{place_of, type_place};
ghost use Rattle.markup_rules.specs.Elements as elements;
ghost use Rattle.markup_rules.specs.View.{element_tree, literal_tree};

use con_terms::{Con, Place};
use core_terms::{
    Attribute, Attributes, Branch, Element, Exp, Field, Literal, Named, Node, Nodes, Pat,
};

/// Where a term stands.
pub fn term_place(e: &Exp) -> Place
    ensures { result ≡ place_of (exp_tree e.now) }
{
    e.place
}

/// Where a declaration's type stands: with the name, or with the term where it wasn't written.
pub fn type_stands(n: &Named) -> Place
    ensures { let t = named_tree n.now in result ≡ type_place t.2 t.0 t.4 }
{
    if n.written { n.place } else { n.exp.place }
}

/// The type of a name.
pub fn named_con(n: &Named) -> &Con
    ensures { con_tree result.now ≡ (named_tree n.now).3 }
{
    &n.con
}

/// The term of a name.
pub fn named_term(n: &Named) -> &Exp
    ensures { exp_tree result.now ≡ (named_tree n.now).4 }
{
    &n.exp
}

/// Where a field stands.
pub fn field_place(f: &Field) -> Place
    ensures { result ≡ (field_tree f.now).0 }
{
    f.place
}

/// The name of a field.
pub fn field_name(f: &Field) -> &Con
    ensures { con_tree result.now ≡ (field_tree f.now).1 }
{
    &f.name
}

/// The term of a field.
pub fn field_term(f: &Field) -> &Exp
    ensures { exp_tree result.now ≡ (field_tree f.now).2 }
{
    &f.value
}

/// The term of an attribute.
pub fn attribute_term(a: &Attribute) -> &Exp
    ensures { exp_tree result.now ≡ (attribute_tree a.now).2 }
{
    &a.value
}

/// The term of a node.
pub fn node_term(x: &Node) -> &Exp
    ensures { exp_tree result.now ≡ (node_tree x.now).1 }
{
    &x.term
}

/// The pattern of a branch.
pub fn branch_pattern(b: &Branch) -> &Pat
    ensures { pat_tree result.now ≡ (branch_tree b.now).1 }
{
    &b.pat
}

/// The body of a branch.
pub fn branch_body(b: &Branch) -> &Exp
    ensures { exp_tree result.now ≡ (branch_tree b.now).2 }
{
    &b.body
}

/// The attributes of an element.
pub fn element_attributes(m: &Element) -> &Attributes
    ensures { attributes_tree result.now ≡ elements.attributes_of (element_tree m.now) }
{
    &m.attributes
}

/// The nodes in an element.
pub fn element_nodes(m: &Element) -> &Nodes
    ensures { nodes_tree result.now ≡ elements.nodes_of (element_tree m.now) }
{
    &m.content
}

/// The nodes of a literal.
pub fn literal_nodes(l: &Literal) -> &Nodes
    ensures { nodes_tree result.now ≡ (literal_tree l.now).2 }
{
    &l.nodes
}

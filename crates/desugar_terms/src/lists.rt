//! Lists in terms, made of their elements.
ghost use Rattle.std.specs.Prelude.{◌≡◌, map};
ghost use Rattle.plain_tree.specs.ExpView.{attribute_tree, attributes_from, attributes_tree, link_tree, links_from, links_tree, local_tree, locals_from, locals_tree, node_tree, nodes_from, nodes_tree};

use plain_tree::{Attribute, Attributes, Link, Links, Local, Locals, Node, Nodes};

/// The attributes of an element.
pub fn attributes_made(items: Vec<Attribute>) -> Attributes
    ensures { attributes_tree result ≡ attributes_from (map attribute_tree items.items) }
{
    Attributes { items }
}

/// What follows a term in a chain.
pub fn links_made(items: Vec<Link>) -> Links
    ensures { links_tree result ≡ links_from (map link_tree items.items) }
{
    Links { items }
}

/// The declarations of a `let`.
pub fn locals_made(items: Vec<Local>) -> Locals
    ensures { locals_tree result ≡ locals_from (map local_tree items.items) }
{
    Locals { items }
}

/// Nodes of markup.
pub fn nodes_made(items: Vec<Node>) -> Nodes
    ensures { nodes_tree result ≡ nodes_from (map node_tree items.items) }
{
    Nodes { items }
}

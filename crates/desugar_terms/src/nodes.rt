//! Nodes of markup, one after another.
ghost use Rattle.std.specs.Prelude.{◌≡◌, map, IfOk};
ghost use Rattle.plain_tree.specs.ExpView.{node_tree};
ghost use Rattle.desugar_values.specs.View.{meaning_tree, meanings_tree};
ghost use Rattle.desugar_terms.specs.Nodes.{node_of, nodes_of};

use desugar_values::{Meaning, Meanings};
use plain_tree::Node;
use std::alloc::{AllocError, Global};
use table_rows::Text;

/// The node that a tree stands for. A tree of another sort stands for a text that no tree of the grammar shows.
fn node_of(alloc: Global, meaning: Meaning) -> Node
    ensures { node_tree result ≡ node_of (meaning_tree meaning) }
{
    match meaning {
        Meaning::Node(node) => Box::into_inner(node),
        _ => Node::Run(0, Text::new(alloc)),
    }
}

/// `{Node}`
pub fn nodes_of(alloc: Global, several: Meanings) -> Result<Vec<Node>, AllocError>
    ensures { IfOk result (λ nodes. map node_tree nodes.items ≡ nodes_of (meanings_tree several)) }
{
    let mut nodes = Vec::new(alloc);
    for node in several.into_list() {
        nodes.push(node_of(alloc, node))?;
    }
    Ok(nodes)
}

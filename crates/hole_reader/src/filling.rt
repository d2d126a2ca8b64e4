//! Trees that are handed in.
ghost use Rattle.std.specs.Prelude.{◌≡◌, ◌++◌, OnOk};

use grammar_engine::{Want, copy_token};
use std::alloc::{AllocError, Global};
use surface_grammar::Tree;

/// A tree for what was wanted, and the place of the token behind it.
#[derive(Drop)]
pub struct Filling {
    pub want: Want,
    pub tree: Tree,
    pub behind: usize,
}

/// Adds the tokens of the other tree.
fn add_leaves(alloc: Global, tree: &mut Tree, more: &Tree) -> Result<(), AllocError>
    ensures leaves { OnOk result (tree.new.leaves ≡ tree.old.leaves ++ more.now.leaves) }
    ensures marks { OnOk result (tree.new.marks ≡ tree.old.marks) }
{
    for token in more.leaves() {
        tree.leaf(copy_token(alloc, token)?)?;
    }
    Ok(())
}

/// Adds the marks of the other tree.
fn add_marks(tree: &mut Tree, more: &Tree) -> Result<(), AllocError>
    ensures marks { OnOk result (tree.new.marks ≡ tree.old.marks ++ more.now.marks) }
    ensures leaves { OnOk result (tree.new.leaves ≡ tree.old.leaves) }
{
    for mark in more.marks() {
        tree.mark(*mark)?;
    }
    Ok(())
}

/// Adds the tokens and the marks of the other tree.
pub fn add_tree(alloc: Global, tree: &mut Tree, more: &Tree) -> Result<(), AllocError>
    ensures leaves { OnOk result (tree.new.leaves ≡ tree.old.leaves ++ more.now.leaves) }
    ensures marks { OnOk result (tree.new.marks ≡ tree.old.marks ++ more.now.marks) }
{
    add_leaves(alloc, tree, more)?;
    add_marks(tree, more)
}

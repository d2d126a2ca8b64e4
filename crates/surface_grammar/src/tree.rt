//! A concrete tree, listed from its root on and from left to right, so that neither a long chain
//! nor deep nesting costs stack.
ghost use Rattle.std.specs.Prelude.{◌≡◌, [], ◌∷◌, ◌++◌, OnOk, OnErr};

use crate::Rule;
use std::alloc::{AllocError, Global};
use std::marker::Model;
use surface_tree::Token;

/// A mark of the listing.
#[derive(Clone, Copy)]
pub enum Mark {
    /// The next token.
    Leaf,
    /// A tree of this rule; the trees of its parts follow in order.
    Rule(Rule),
    /// In a repetition, that another tree follows; of an option, that its tree follows.
    Item,
    /// In a repetition, that no other tree follows; of an option, that there is none.
    End,
}

/// A concrete tree. Contracts see its tokens and its marks.
#[derive(Drop)]
pub struct Tree {
    leaves: Vec<Token>,
    marks: Vec<Mark>,
}

impl Model for Tree {
    ghost use Rattle.surface_grammar.specs.Listings.{Listing};

    ghost Value = { Listing };

    ghost view = { λ tree. record { leaves = tree.leaves.items; marks = tree.marks.items } };
}

impl Tree {
    /// The empty listing, before its first mark. It allocates nothing.
    pub fn new(alloc: Global) -> Tree
        ensures leaves { result.leaves ≡ [] }
        ensures marks { result.marks ≡ [] }
    {
        Tree {
            leaves: Vec::new(alloc),
            marks: Vec::new(alloc),
        }
    }

    /// Adds a mark at the end. An `Err` changes nothing.
    pub fn mark(&mut self, mark: Mark) -> Result<(), AllocError>
        ensures ok { OnOk result (self.new.marks ≡ self.old.marks ++ mark ∷ []) }
        ensures err { OnErr result (self.new.marks ≡ self.old.marks) }
        ensures leaves { self.new.leaves ≡ self.old.leaves }
    {
        self.marks.push(mark)?;
        Ok(())
    }

    /// Adds a token at the end, whose mark is added by itself. An `Err` changes nothing.
    pub fn leaf(&mut self, token: Token) -> Result<(), AllocError>
        ensures ok { OnOk result (self.new.leaves ≡ self.old.leaves ++ token ∷ []) }
        ensures err { OnErr result (self.new.leaves ≡ self.old.leaves) }
        ensures marks { self.new.marks ≡ self.old.marks }
    {
        self.leaves.push(token)?;
        Ok(())
    }

    /// The tokens of the tree, in order.
    pub fn leaves(&self) -> &[Token]
        ensures { result.now ≡ self.now.leaves }
    {
        &self.leaves
    }

    /// The marks of the tree, in order.
    pub fn marks(&self) -> &[Mark]
        ensures { result.now ≡ self.now.marks }
    {
        &self.marks
    }
}

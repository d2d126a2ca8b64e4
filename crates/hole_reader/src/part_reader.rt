//! A reader of one part: what the readers of markup and of queries share.
ghost use Rattle.std.specs.Prelude.{◌≡◌, ◌++◌, ◌∷◌, [], List, IfOk, IfErr};
ghost use Rattle.surface_tree.specs.declared.token.Token.{Token};
ghost use Rattle.surface_grammar.specs.Listings.{Listing};
ghost use Rattle.hole_reader.specs.Readers.{Fresh, Hands, IsOpen, Reading, Steps};
ghost use Rattle.hole_reader.specs.Refuses.{Refuses};

use crate::Reader;
use std::alloc::Global;
use std::marker::PhantomData;
use surface_grammar::{ParseFault, Part, Step, Tree};
use surface_tree::Tokens;

/// What a reader reads.
pub trait Whole: Drop {
    ghost use Rattle.surface_grammar.specs.declared.part.Part.{Part};

    ghost whole: { Part };

    /// The part that is read.
    fn part() -> Part
        ensures { result ≡ whole };
}

/// Reads the trees of one part (The Ur/Web Manual, Expressions and SQL). It has a stack of its own, and stops at each
/// expression and each constructor in them, which another reader hands in.
#[derive(Drop)]
pub struct PartReader<W: Whole> {
    pub reader: Reader,
    whole: PhantomData<W>,
}

impl<W: Whole> PartReader<W> {
    /// A reader from the token at this place on, whose part lies at this depth. It allocates nothing.
    pub fn new(alloc: Global, at: u32, depth: u32) -> PartReader<W>
        ensures fresh { Fresh W.whole at depth result.reader }
    {
        PartReader {
            reader: Reader::new(alloc, W::part(), at, depth),
            whole: PhantomData,
        }
    }

    /// Reads on to the next expression or constructor, or to the end of the part.
    pub fn step(&mut self, tokens: &Tokens) -> Result<Step, ParseFault>
        requires reading { (handed : List Listing) × Reading tokens.now.items handed self.old.reader }
        requires closed { IsOpen self.old.reader → ⊥ }
        // It wants a tree, or gives the longest tree of its form, which spells the tokens from its first one to the
        // place told.
        ensures steps { (handed : List Listing) → Reading tokens.now.items handed self.old.reader
            → IfOk result (Steps tokens.now.items handed self.old.reader self.new.reader) }
        // It refuses the first token that no such form with the trees handed in has, however deep.
        ensures refused { (handed : List Listing) → Reading tokens.now.items handed self.old.reader
            → IfErr result (Refuses tokens.now self.old.reader.whole handed) }
    {
        self.reader.step(tokens)
    }

    /// Hands in the tree that the last step wanted, and the place of the token behind it. It takes no memory.
    pub fn fill(&mut self, tree: Tree, next: u32)
        requires { IsOpen self.old.reader }
        ensures handed { (items : List Token) (handed : List Listing) → Reading items handed self.old.reader
            → Hands items self.old.reader tree next → Reading items (handed ++ tree ∷ []) self.new.reader }
        ensures closed { IsOpen self.new.reader → ⊥ }
        ensures whole { self.new.reader.whole ≡ self.old.reader.whole }
    {
        self.reader.fill(tree, next)
    }
}

//! What was read, the leftmost on top.
ghost use Rattle.std.specs.Prelude.{◌≡◌, [], ◌∷◌, map, IfOk, MatchOption, OnErr, OnOk};
ghost use Rattle.desugar_values.specs.View.{meaning_tree, meanings_tree};
ghost use Rattle.desugar.specs.Stacks.{first_met, is_item, left, optional, part_met, parts_met, repeated};
ghost use Rattle.desugar.specs.View.{entry_tree, stack_view};

use desugar_values::{Meaning, Meanings};
use std::alloc::{AllocError, Global};
use surface_grammar::Part;

/// What was read.
#[derive(Drop)]
pub enum Entry {
    /// That another tree of a repetition, or the tree of an option, follows.
    Item,
    /// That none follows.
    End,
    /// What a tree stands for.
    Value(Meaning),
}

/// All that was read and that no rule has taken yet. Contracts see it as the list
/// `stack_view`, the leftmost first.
#[derive(Drop)]
pub struct Stack {
    entries: Vec<Entry>,
}

impl Stack {
    /// Nothing was read. It allocates nothing.
    pub fn new(alloc: Global) -> Stack
        ensures { stack_view result ≡ [] }
    {
        Stack {
            entries: Vec::new(alloc),
        }
    }

    /// This was read. An `Err` changes nothing.
    pub fn push(&mut self, entry: Entry) -> Result<(), AllocError>
        ensures ok { OnOk result (stack_view self.new ≡ entry_tree entry ∷ stack_view self.old) }
        ensures err { OnErr result (stack_view self.new ≡ stack_view self.old) }
    {
        self.entries.push(entry)?;
        Ok(())
    }

    /// What stands on top. It is taken.
    pub fn pop(&mut self) -> Option<Entry>
        ensures { MatchOption result ((stack_view self.old ≡ []) × (stack_view self.new ≡ []))
            (λ e. stack_view self.old ≡ entry_tree e ∷ stack_view self.new) }
    {
        self.entries.pop()
    }

    /// What the first tree stands for. It is taken.
    pub fn first(&mut self) -> Meaning
        ensures first { meaning_tree result ≡ first_met (stack_view self.old) }
        ensures left { stack_view self.new ≡ left (stack_view self.old) }
    {
        match self.pop() {
            Some(Entry::Value(meaning)) => meaning,
            _ => Meaning::Absent,
        }
    }

    /// Whether another tree of a repetition follows. The mark is taken.
    fn is_item(&mut self) -> bool
        ensures item { result ≡ is_item (stack_view self.old) }
        ensures left { stack_view self.new ≡ left (stack_view self.old) }
    {
        match self.pop() {
            Some(Entry::Item) => true,
            _ => false,
        }
    }

    /// The trees of a repetition. They are taken with their marks.
    pub fn repeated(&mut self, alloc: Global) -> Result<Meanings, AllocError>
        ensures trees { IfOk result (λ ms. meanings_tree ms ≡ (repeated (stack_view self.old)).0) }
        ensures left { IfOk result (λ _. stack_view self.new ≡ (repeated (stack_view self.old)).1) }
    {
        let mut trees = Meanings::new(alloc);
        while self.is_item() {
            trees.push(self.first())?;
        }
        Ok(trees)
    }

    /// The tree of an option. It is taken with its mark.
    fn optional(&mut self) -> Meaning
        ensures tree { meaning_tree result ≡ (optional (stack_view self.old)).0 }
        ensures left { stack_view self.new ≡ (optional (stack_view self.old)).1 }
    {
        match self.pop() {
            Some(Entry::Item) => self.first(),
            _ => Meaning::Absent,
        }
    }

    /// A part of a rule. It is taken.
    fn part(&mut self, alloc: Global, part: Part) -> Result<Meaning, AllocError>
        ensures part { IfOk result (λ m. meaning_tree m ≡ (part_met part (stack_view self.old)).0) }
        ensures left { IfOk result (λ _. stack_view self.new ≡ (part_met part (stack_view self.old)).1) }
    {
        match part {
            Part::Word(_) | Part::One(_) => Ok(self.first()),
            Part::Many(_) => Ok(Meaning::Several(self.repeated(alloc)?)),
            Part::Maybe(_) => Ok(self.optional()),
        }
    }

    /// The parts of a rule. They are taken.
    pub fn parts(&mut self, alloc: Global, body: &[Part]) -> Result<Meanings, AllocError>
        ensures parts { IfOk result (λ ms. meanings_tree ms ≡ (parts_met body.now (stack_view self.old)).0) }
        ensures left { IfOk result (λ _. stack_view self.new ≡ (parts_met body.now (stack_view self.old)).1) }
    {
        let mut parts = Meanings::new(alloc);
        for wanted in body {
            parts.push(self.part(alloc, *wanted)?)?;
        }
        Ok(parts)
    }
}

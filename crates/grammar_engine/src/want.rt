//! What is still to be read.
ghost use Rattle.std.specs.Prelude.{◌≡◌, [], ◌∷◌, reverse, MatchOption, OnOk, OnErr};
ghost use Rattle.grammar_engine.specs.Solid.{first_solid};

use std::alloc::{AllocError, Global};
use std::marker::Model;
use surface_grammar::Part;

/// A part that is still to be read, how many levels deep its tree may be, and the place of the
/// token whose name the innermost element around it has.
#[derive(Clone, Copy)]
pub struct Want {
    pub part: Part,
    pub room: u64,
    pub tag: usize,
}

/// All that is still to be read. Contracts see it as a list, what is read next first.
#[derive(Drop)]
pub struct Wants {
    stack: Vec<Want>,
}

impl Model for Wants {
    ghost use Rattle.std.specs.Prelude.{List, reverse};
    ghost use Rattle.grammar_engine.specs.declared.want.Want.{Want};

    ghost Value = { List Want };

    ghost view = { λ wants. reverse wants.stack.items };
}

impl Wants {
    /// Nothing is to be read. It allocates nothing.
    pub fn new(alloc: Global) -> Wants
        ensures { result ≡ [] }
    {
        Wants {
            stack: Vec::new(alloc),
        }
    }

    /// This is read next. An `Err` changes nothing.
    pub fn push(&mut self, want: Want) -> Result<(), AllocError>
        ensures ok { OnOk result (self.new ≡ want ∷ self.old) }
        ensures err { OnErr result (self.new ≡ self.old) }
    {
        self.stack.push(want)?;
        Ok(())
    }

    /// Takes what is read next.
    pub fn pop(&mut self) -> Option<Want>
        ensures { MatchOption result (self.old ≡ []) (λ want. self.old ≡ want ∷ self.new) }
    {
        self.stack.pop()
    }

    /// The first that can't be left out.
    pub fn first_solid(&self) -> Option<Want>
        ensures { result ≡ first_solid self.now }
    {
        last_solid(&self.stack)
    }
}

/// The last that can't be left out.
fn last_solid(wants: &[Want]) -> Option<Want>
    ensures { result ≡ first_solid (reverse wants.now) }
{
    let mut left = wants.len();
    while left > 0 {
        left -= 1;
        let want = wants[left];
        match want.part {
            Part::Many(_) | Part::Maybe(_) => {}
            Part::Word(_) | Part::One(_) => return Some(want),
        }
    }
    None
}

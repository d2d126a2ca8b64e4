//! What waits while a value is read amid others.
ghost use Rattle.std.specs.Prelude.{◌≡◌, ◌∷◌, [], OnOk, IfSome, IfNone};

use crate::scoped::Closed;
use std::alloc::{AllocError, Global};
use table_rows::{Part, Text, Wire, Wires};

/// What waits for a value.
#[derive(Drop)]
pub enum Frame<'r> {
    /// A record: the values of its first fields, and the fields behind the one that is read, at these arguments.
    Fields(Wires, &'r [Part], &'r [Closed<'r>]),
    /// A constructor, by its name.
    Held(Text),
}

/// What comes next in a reading.
#[derive(Drop)]
pub enum Step<'r> {
    /// A value of this shape is wanted.
    Wants(Closed<'r>),
    /// A value was read.
    Has(Wire),
}

/// What a step of a reading leads to.
#[derive(Drop)]
pub enum Moved<'r> {
    /// The next step.
    On(Step<'r>),
    /// The whole value.
    Whole(Wire),
}

/// Why a reading stops.
#[derive(Debug, Drop)]
pub enum Stopped {
    /// The first piece that is left isn't of its part's form.
    Bad,
    /// No piece is left for a part.
    Few,
    /// Want of memory.
    Memory,
}

impl From<AllocError> for Stopped {
    ghost use Rattle.std.specs.Prelude.{◌≡◌};
    ghost use Rattle.link_router.specs.declared.frames.Stopped.TheVariants.{Memory};

    ghost from_gives = { λ _ stopped. stopped ≡ Memory };

    fn from(_: AllocError) -> Stopped {
        Stopped::Memory
    }
}

/// All that waits. Contracts see it as the list `stack_view`, the innermost first.
#[derive(Drop)]
pub struct Stack<'r> {
    frames: Vec<Frame<'r>>,
}

impl<'r> Stack<'r> {
    ghost use Rattle.link_router.specs.Scoped.{frame_view, stack_view};

    /// Nothing waits.
    pub fn new(alloc: Global) -> Stack<'r>
        ensures { stack_view result ≡ [] }
    {
        Stack {
            frames: Vec::new(alloc),
        }
    }

    #[tactic(auto, using(crate::proofs::Stacks::put_first))]
    /// Puts what waits for the next value before all that waits.
    pub fn push(&mut self, frame: Frame<'r>) -> Result<(), AllocError>
        ensures { OnOk result (stack_view self.new ≡ frame_view frame.entry ∷ stack_view self.old) }
    {
        Ok(self.frames.push(frame)?)
    }

    #[tactic(auto, using(crate::proofs::Stacks::put_first, crate::proofs::Stacks::none_put))]
    /// Takes what waits for the value that was read.
    pub fn pop(&mut self) -> Option<Frame<'r>>
        ensures some { IfSome result (λ frame. stack_view self.old ≡ frame_view frame ∷ stack_view self.new) }
        ensures none { IfNone result (stack_view self.old ≡ []) }
    {
        self.frames.pop()
    }
}

//! What waits while a value is made amid others.
ghost use Rattle.std.specs.Prelude.{◌≡◌, ◌∷◌, [], OnOk, IfSome, IfNone};

use crate::scoped::Closed;
use con_terms::Sym;
use run_values::{Slot, Value};
use std::alloc::{AllocError, Global};
use table_rows::{Part, Wire};

/// A record as far as it is made: its first fields, and the parts and wires behind them.
#[derive(Drop)]
pub struct Filling<'r> {
    pub made: Vec<Slot<'r>>,
    pub parts: &'r [Part],
    pub wires: &'r [Wire],
    pub scope: &'r [Closed<'r>],
}

/// What waits for a value.
#[derive(Drop)]
pub enum Frame<'r> {
    /// A record, and the symbol of the name of the field that is awaited. Its parts and wires are those behind it.
    Field(Filling<'r>, Sym),
    /// A constructor: its datatype's symbol, and its place.
    Held(Sym, u32),
}

/// A step on the way to a value.
#[derive(Clone, Copy, Drop)]
pub enum Step<'r> {
    /// A value of this shape is wanted of a wire.
    Wants(Closed<'r>, &'r Wire),
    /// A value is there.
    Has(Value<'r>),
}

/// What a step leads to.
#[derive(Clone, Copy, Drop)]
pub enum Moved<'r> {
    /// The next step.
    On(Step<'r>),
    /// The whole value.
    Whole(Value<'r>),
}

/// All that waits. Contracts see it as the list `stack_view`, the innermost first.
#[derive(Drop)]
pub struct Stack<'r> {
    frames: Vec<Frame<'r>>,
}

impl<'r> Stack<'r> {
    ghost use Rattle.wire_values.specs.Scoped.{frame_view, stack_view};

    /// Nothing waits.
    pub fn new(alloc: Global) -> Stack<'r>
        ensures { stack_view result ≡ [] }
    {
        Stack {
            frames: Vec::new(alloc),
        }
    }

    #[tactic(auto, using(crate::proofs::Stacks::put_first))]
    /// Puts what waits for the next value before all that waits.
    pub fn push(&mut self, frame: Frame<'r>) -> Result<(), AllocError>
        ensures { OnOk result (stack_view self.new ≡ frame_view frame.entry ∷ stack_view self.old) }
    {
        Ok(self.frames.push(frame)?)
    }

    #[tactic(auto, using(crate::proofs::Stacks::put_first, crate::proofs::Stacks::none_put))]
    /// Takes what waits for the value that is there.
    pub fn pop(&mut self) -> Option<Frame<'r>>
        ensures some { IfSome result (λ frame. stack_view self.old ≡ frame_view frame ∷ stack_view self.new) }
        ensures none { IfNone result (stack_view self.old ≡ []) }
    {
        self.frames.pop()
    }
}

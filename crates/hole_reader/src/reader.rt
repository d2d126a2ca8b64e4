//! A reader of one part of the grammar.
ghost use Rattle.std.specs.Prelude.{◌≡◌, ◌++◌, ◌∷◌, [], List, IfOk, IfErr, OnOk};
ghost use Rattle.surface_tree.specs.declared.token.Token.{Token};
ghost use Rattle.surface_grammar.specs.Listings.{Listing};
ghost use Rattle.grammar_engine.specs.Faults.{byte_at};
ghost use Rattle.hole_reader.specs.Progress.{ComesTo};
ghost use Rattle.hole_reader.specs.Readers.{AsksFor, Fresh, Gives, Hands, IsOpen, Reading, Steps};
ghost use Rattle.hole_reader.specs.Refuses.{Refuses, StopsAt, Told, Unbegun};

use crate::filling::{Filling, add_tree};
use crate::holes::{Asked, form_of};
use crate::walk::read_on;
use grammar_engine::{Machine, Stop, Want, Wants, kind_at};
use std::alloc::{AllocError, Global};
use std::mem;
use surface_grammar::{ParseFault, Part, Step, Tree};
use surface_tree::Tokens;

/// How a reader goes on.
#[derive(Drop)]
pub enum Next {
    /// It begins.
    Begin,
    /// A tree for this is to be handed in.
    Open(Want),
    /// This tree was handed in.
    Filled(Filling),
    /// It isn't stepped again.
    Over,
}

/// Reads the longest tree for a part that begins at a place. It stops at each expression and each constructor in the
/// part, which another reader hands in.
#[derive(Drop)]
pub struct Reader {
    pub alloc: Global,
    /// The whole part, its room, and the place at which it begins.
    pub whole: Want,
    pub machine: Machine,
    pub next: Next,
}

/// The byte of the text at which the token at the place begins, or the text's length at the end.
fn byte_of(tokens: &Tokens, place: usize) -> u32
    ensures { result ≡ byte_at tokens.now place }
{
    if place < tokens.len() {
        tokens.at(place).at
    } else {
        tokens.end()
    }
}

/// The refusal for which reading stops.
fn fault_of(tokens: &Tokens, stop: Stop) -> ParseFault
    ensures { Told tokens.now stop result }
{
    match stop {
        Stop::Refused(place) => ParseFault::Syntax {
            at: byte_of(tokens, place),
        },
        Stop::Memory => ParseFault::Memory,
    }
}

/// The place as a number of 32 bits.
fn narrow(place: usize) -> Result<u32, Stop>
    ensures same { IfOk result (λ small. small ≡ place) }
    ensures memory { IfErr result (λ stop. stop ≡ Stop.Memory) }
{
    match u32::try_from(place) {
        Ok(small) => Ok(small),
        Err(_) => Err(Stop::Memory),
    }
}

/// So many levels as a number of 32 bits. More that can't be counted count as want of memory.
fn narrow_depth(levels: u64) -> Result<u32, Stop>
    ensures same { IfOk result (λ small. small ≡ levels) }
    ensures memory { IfErr result (λ stop. stop ≡ Stop.Memory) }
{
    match u32::try_from(levels) {
        Ok(small) => Ok(small),
        Err(_) => Err(Stop::Memory),
    }
}

impl Reader {
    /// A reader of the part from the token at this place on, which lies at this depth. It allocates nothing.
    pub fn new(alloc: Global, part: Part, at: u32, depth: u32) -> Reader
        ensures fresh { Fresh part at depth result }
    {
        let start = at as usize;
        Reader {
            alloc,
            whole: Want {
                part,
                room: u64::MAX - u64::from(depth),
                tag: start,
            },
            machine: Machine {
                at: start,
                wants: Wants::new(alloc),
                tree: Tree::new(alloc),
                far: start,
            },
            next: Next::Begin,
        }
    }

    /// Begins, or takes in what was handed in.
    fn resume(&mut self) -> Result<(), AllocError>
        ensures comes { (items : List Token) (handed : List Listing) → Reading items handed self.old
            → (IsOpen self.old → ⊥)
            → OnOk result (ComesTo items self.new.whole handed self.new.machine) }
        ensures whole { self.new.whole ≡ self.old.whole }
    {
        match mem::replace(&mut self.next, Next::Over) {
            Next::Begin => {
                self.machine.wants.push(self.whole)?;
                Ok(())
            }
            Next::Filled(filling) => {
                add_tree(self.alloc, &mut self.machine.tree, &filling.tree)?;
                self.machine.at = filling.behind;
                Ok(())
            }
            Next::Open(_) | Next::Over => Ok(()),
        }
    }

    /// Asks for a tree for the hole.
    fn ask(&mut self, tokens: &Tokens, asked: Asked) -> Result<Step, Stop>
        ensures waits { IfOk result (AsksFor asked self.old self.new) }
        ensures unbegun { IfErr result (Unbegun tokens.now.items asked.hole self.old.machine) }
    {
        if !form_of(asked.hole).begins(kind_at(tokens, self.machine.at)) {
            return Err(self.machine.refuse());
        }
        let place = narrow(self.machine.at)?;
        let depth = narrow_depth(u64::MAX - asked.want.room)?;
        self.next = Next::Open(asked.want);
        Ok(Step::Wants(asked.hole, place, depth))
    }

    /// Gives the tree that was read.
    fn end(&mut self) -> Result<Step, Stop>
        ensures gives { IfOk result (Gives self.old.machine) }
        ensures far { self.new.machine.far ≡ self.old.machine.far }
        ensures memory { IfErr result (λ stop. stop ≡ Stop.Memory) }
    {
        let behind = narrow(self.machine.at)?;
        let tree = mem::replace(&mut self.machine.tree, Tree::new(self.alloc));
        Ok(Step::Done(tree, behind))
    }

    /// Reads on to the next hole, or to the end.
    fn go_on(&mut self, tokens: &Tokens) -> Result<Step, Stop>
        ensures steps { (handed : List Listing) → ComesTo tokens.now.items self.old.whole handed self.old.machine
            → IfOk result (Steps tokens.now.items handed self.old self.new) }
        ensures stops { (handed : List Listing) → ComesTo tokens.now.items self.old.whole handed self.old.machine
            → IfErr result (StopsAt tokens.now.items self.old.whole handed) }
    {
        match read_on(&mut self.machine, self.alloc, tokens)? {
            Some(asked) => self.ask(tokens, asked),
            None => self.end(),
        }
    }

    /// Reads on to the next tree that another reader hands in, or to the end. It refuses the first token that no tree
    /// for its part with the trees handed in has, however deep.
    pub fn step(&mut self, tokens: &Tokens) -> Result<Step, ParseFault>
        requires reading { (handed : List Listing) × Reading tokens.now.items handed self.old }
        requires closed { IsOpen self.old → ⊥ }
        ensures steps { (handed : List Listing) → Reading tokens.now.items handed self.old
            → IfOk result (Steps tokens.now.items handed self.old self.new) }
        ensures refused { (handed : List Listing) → Reading tokens.now.items handed self.old
            → IfErr result (Refuses tokens.now self.old.whole handed) }
    {
        self.resume()?;
        match self.go_on(tokens) {
            Ok(step) => Ok(step),
            Err(stop) => Err(fault_of(tokens, stop)),
        }
    }

    /// Hands in the tree that the last step wanted, and the place of the token behind it. It takes no memory.
    pub fn fill(&mut self, tree: Tree, behind: u32)
        requires { IsOpen self.old }
        ensures handed { (items : List Token) (handed : List Listing) → Reading items handed self.old
            → Hands items self.old tree behind → Reading items (handed ++ tree ∷ []) self.new }
        ensures closed { IsOpen self.new → ⊥ }
        ensures whole { self.new.whole ≡ self.old.whole }
    {
        if let Next::Open(want) = self.next {
            self.next = Next::Filled(Filling {
                want,
                tree,
                behind: behind as usize,
            });
        }
    }
}

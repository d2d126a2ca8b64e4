//! Where the lexer is: the mode, and what is open around it.
ghost use Rattle.std.specs.Prelude.{◌≡◌, [], ◌∷◌, OnOk};
ghost use Rattle.ur_lexer.specs.Modes.{start, turned, left, in_literal};

use std::alloc::{AllocError, Global};
use std::marker::Model;

/// How the bytes are read.
#[derive(Clone, Copy, PartialEq, Eq)]
pub enum Mode {
    /// Declarations and expressions.
    Code,
    /// Between `<name` and the end of the tag.
    Tag,
    /// Between tags.
    Text,
}

/// What is open around a place.
#[derive(Clone, Copy, PartialEq, Eq)]
pub enum Open {
    /// A brace, with the mode that it was met in.
    Brace(Mode),
    /// An XML literal.
    Literal,
    /// An element in an XML literal.
    Element,
}

/// What a token does to the mode and to what is open.
#[derive(Clone, Copy, PartialEq, Eq)]
pub enum Turn {
    /// Nothing.
    Stay,
    /// It opens a brace: code follows.
    EnterBrace,
    /// It closes a brace: the mode follows that the brace was met in.
    LeaveBrace,
    /// It opens an XML literal: text follows.
    EnterLiteral,
    /// It begins a tag.
    EnterTag,
    /// It ends a tag whose element has content: text follows, one element deeper.
    EnterElement,
    /// It ends a tag whose element has no content: text follows.
    LeaveTag,
    /// It closes an element or an XML literal.
    LeaveElement,
}

/// The mode, and what is open around, the innermost last.
#[derive(Drop)]
pub struct State {
    mode: Mode,
    around: Vec<Open>,
}

impl Model for State {
    ghost use Rattle.std.specs.Prelude.{reverse};
    ghost use Rattle.ur_lexer.specs.Where.{Where};

    ghost Value = { Where };

    ghost view = { λ state. record { mode = state.mode; around = reverse state.around.items } };
}

impl State {
    /// Code, with nothing open.
    pub fn new(alloc: Global) -> State
        ensures { result ≡ start }
    {
        State {
            mode: Mode::Code,
            around: Vec::new(alloc),
        }
    }

    /// How the bytes are read here.
    pub fn mode(&self) -> Mode
        ensures { result ≡ self.now.mode }
    {
        self.mode
    }

    /// Whether the innermost thing that is open is an XML literal.
    pub fn in_literal(&self) -> bool
        ensures { result ≡ in_literal self.now }
    {
        match self.around.last() {
            Some(Open::Literal) => true,
            _ => false,
        }
    }

    /// Goes on behind a token.
    pub fn turn(&mut self, turn: Turn) -> Result<(), AllocError>
        ensures { OnOk result (self.new ≡ turned turn self.old) }
    {
        match turn {
            Turn::Stay => {}
            Turn::EnterBrace => {
                self.around.push(Open::Brace(self.mode))?;
                self.mode = Mode::Code;
            }
            Turn::EnterLiteral => {
                self.around.push(Open::Literal)?;
                self.mode = Mode::Text;
            }
            Turn::EnterTag => self.mode = Mode::Tag,
            Turn::EnterElement => {
                self.around.push(Open::Element)?;
                self.mode = Mode::Text;
            }
            Turn::LeaveTag => self.mode = Mode::Text,
            Turn::LeaveBrace | Turn::LeaveElement => self.leave(),
        }
        Ok(())
    }

    /// Leaves what is open innermost, if anything is.
    fn leave(&mut self)
        ensures { self.new ≡ left self.old }
    {
        match self.around.pop() {
            Some(Open::Brace(mode)) => self.mode = mode,
            Some(Open::Literal) => self.mode = Mode::Code,
            Some(Open::Element) => self.mode = Mode::Text,
            None => {}
        }
    }
}

//! A page as it is built, piece by piece.
ghost use Rattle.std.specs.Prelude.{◌≡◌, [], ◌∷◌, ◌++◌, ◌↔◌, IsTrue, IfOk, OnOk, OnErr};

use crate::{Attrs, Name, Tag};
use std::alloc::{AllocError, Global};
use std::marker::Model;
use table_rows::Text;

/// A piece of a page. An `End` ends the innermost unfinished element, and has the name that its tag
/// is written with.
#[derive(Debug, Drop)]
pub enum Piece {
    Begin(Tag, Attrs),
    Words(Text),
    End(Name),
}

impl Piece {
    /// Another piece like this one.
    pub fn copy(&self, alloc: Global) -> Result<Piece, AllocError>
        ensures { IfOk result (λ made. made ≡ self.now) }
    {
        Ok(match self {
            Piece::Begin(tag, attrs) => Piece::Begin(tag.copy(alloc)?, attrs.copy(alloc)?),
            Piece::Words(text) => Piece::Words(text.copy(alloc)?),
            Piece::End(name) => Piece::End(*name),
        })
    }
}

/// A page as far as it is built. Contracts see the list of its pieces, and `built` says which trees
/// they make.
#[derive(Debug, Drop)]
pub struct Page {
    pieces: Vec<Piece>,
    unfinished: Vec<Name>,
}

impl Model for Page {
    ghost use Rattle.std.specs.Prelude.{◌≡◌, List};
    ghost use Rattle.xml_trees.specs.declared.page.Piece.{Piece};
    ghost use Rattle.xml_trees.specs.Trees.{Whole, Nothing, built, unfinished_names, AreNested};

    ghost Value = { List Piece };

    ghost view = { λ page. page.pieces.items };

    ghost invariant = { λ page. AreNested (Whole Nothing) page.pieces.items
        × (page.unfinished.items ≡ unfinished_names (built page.pieces.items)) };
}

/// Adds a piece at the end. An `Err` changes nothing.
fn push(pieces: &mut Vec<Piece>, piece: Piece) -> Result<(), AllocError>
    ensures ok { OnOk result (pieces.new.items ≡ pieces.old.items ++ piece ∷ []) }
    ensures err { OnErr result (pieces.new.items ≡ pieces.old.items) }
{
    pieces.push(piece)?;
    Ok(())
}

/// Adds copies of pieces at the end. An `Err` changes nothing.
fn append(alloc: Global, pieces: &mut Vec<Piece>, more: &[Piece]) -> Result<(), AllocError>
    ensures ok { OnOk result (pieces.new.items ≡ pieces.old.items ++ more.now) }
    ensures err { OnErr result (pieces.new.items ≡ pieces.old.items) }
{
    let before = pieces.len();
    for piece in more {
        if push_copy(alloc, pieces, piece).is_err() {
            pieces.truncate(before);
            return Err(AllocError);
        }
    }
    Ok(())
}

/// Adds a copy of a piece at the end. An `Err` changes nothing.
fn push_copy(alloc: Global, pieces: &mut Vec<Piece>, piece: &Piece) -> Result<(), AllocError>
    ensures ok { OnOk result (pieces.new.items ≡ pieces.old.items ++ piece.now ∷ []) }
    ensures err { OnErr result (pieces.new.items ≡ pieces.old.items) }
{
    let copied = piece.copy(alloc)?;
    push(pieces, copied)
}

impl Page {
    ghost use Rattle.xml_trees.specs.Trees.{Whole, Within, Nothing, Words, built, built_and, ended, IsWhole, IsUnfinished, trees_of, AreNested};

    /// The empty page. It allocates nothing.
    pub fn new(alloc: Global) -> Page
        ensures { built result ≡ Whole Nothing }
    {
        Page {
            pieces: Vec::new(alloc),
            unfinished: Vec::new(alloc),
        }
    }

    /// Begins an element. An `Err` changes nothing.
    pub fn begin(&mut self, tag: Tag, attrs: Attrs) -> Result<(), AllocError>
        ensures ok { OnOk result (built self.new ≡ Within (built self.old) tag attrs Nothing) }
        ensures err { OnErr result (self.new ≡ self.old) }
    {
        self.unfinished.push(tag.name())?;
        match push(&mut self.pieces, Piece::Begin(tag, attrs)) {
            Ok(()) => Ok(()),
            Err(AllocError) => {
                self.unfinished.pop();
                Err(AllocError)
            }
        }
    }

    /// Adds a text at the end. An `Err` changes nothing.
    pub fn words(&mut self, alloc: Global, text: &Text) -> Result<(), AllocError>
        ensures ok { OnOk result (built self.new ≡ built_and (built self.old) (Words text.now Nothing)) }
        ensures err { OnErr result (self.new ≡ self.old) }
    {
        let words = text.copy(alloc)?;
        push(&mut self.pieces, Piece::Words(words))?;
        Ok(())
    }

    /// Ends the innermost unfinished element. An `Err` changes nothing.
    pub fn end(&mut self) -> Result<(), AllocError>
        requires { IsUnfinished (built self.old) }
        ensures ok { OnOk result (built self.new ≡ ended (built self.old)) }
        ensures err { OnErr result (self.new ≡ self.old) }
    {
        let name = self.unfinished[self.unfinished.len() - 1];
        push(&mut self.pieces, Piece::End(name))?;
        self.unfinished.pop();
        Ok(())
    }

    /// Adds the trees of another page at the end. An `Err` changes nothing.
    pub fn join(&mut self, alloc: Global, other: &Page) -> Result<(), AllocError>
        requires { IsWhole (built other.now) }
        ensures ok { OnOk result (built self.new ≡ built_and (built self.old) (trees_of (built other.now))) }
        ensures err { OnErr result (self.new ≡ self.old) }
    {
        append(alloc, &mut self.pieces, other.pieces())?;
        Ok(())
    }

    /// Whether every element is ended.
    pub fn is_whole(&self) -> bool
        ensures { IsTrue result ↔ IsWhole (built self.now) }
    {
        self.unfinished.is_empty()
    }

    /// The pieces in order.
    pub fn pieces(&self) -> &[Piece]
        ensures pieces { result.now ≡ self.now }
        ensures nested { AreNested (Whole Nothing) result.now }
    {
        self.pieces.as_slice()
    }
}

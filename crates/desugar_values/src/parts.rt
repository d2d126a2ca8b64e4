//! What the parts of a rule hold. A part that is of another sort holds a value that no tree of the grammar shows.
ghost use Rattle.std.specs.Prelude.{◌≡◌, map};
ghost use Rattle.con_terms.specs.View.{kind_tree};
ghost use Rattle.plain_tree.specs.ConView.{con_tree, maybe_con, pat_tree};
ghost use Rattle.plain_tree.specs.ExpView.{exp_tree};
ghost use Rattle.plain_tree.specs.View.{maybe_kind};
ghost use Rattle.desugar_values.specs.Meanings.{absent};
ghost use Rattle.desugar_values.specs.Parts.{behind, characters, con_of, exp_of, first, group_of, kind_of, maybe_con_of, maybe_kind_of, named, number, pat_of, several_of, start_of, word_of};
ghost use Rattle.desugar_values.specs.View.{meaning_tree, meanings_from, meanings_tree};

use crate::meaning::{Meaning, Meanings};
use con_terms::Kind;
use plain_tree::{Basis, Con, ConForm, Exp, Form, Pat, PatForm, Word};
use std::alloc::{AllocError, Global};
use std::collections::VecDeque;
use surface_tree::{Content, Kind as TokenKind, Token};
use table_rows::Text;

/// The byte at which the tree begins, as far as what it stands for tells it.
pub fn start_of(meaning: &Meaning) -> u32
    ensures { result ≡ start_of (meaning_tree meaning.now) }
{
    match meaning {
        Meaning::Word(token) => token.at,
        Meaning::Con(start, _) | Meaning::Pat(start, _) | Meaning::Exp(start, _) => *start,
        _ => 0,
    }
}

/// A token that stands in no text.
fn no_word() -> Token
    ensures { result ≡ word_of absent }
{
    Token {
        kind: TokenKind::Underscore,
        at: 0,
        content: Content::Nothing,
    }
}

/// The token that the tree is.
pub fn word_of(meaning: Meaning) -> Token
    ensures { result ≡ word_of (meaning_tree meaning) }
{
    match meaning {
        Meaning::Word(token) => token,
        _ => no_word(),
    }
}

/// The characters that a token holds.
pub fn characters(alloc: Global, content: Content) -> Text
    ensures { result ≡ characters content }
{
    match content {
        Content::Characters(text) => text,
        _ => Text::new(alloc),
    }
}

/// The number that a token holds.
pub fn number(content: &Content) -> u64
    ensures { result ≡ number content.now }
{
    match content {
        Content::Number(number) => *number,
        _ => 0,
    }
}

/// A token as a name.
pub fn named(alloc: Global, token: Token) -> Word
    ensures { result ≡ named token }
{
    Word {
        at: token.at,
        text: characters(alloc, token.content),
    }
}

/// The trees of a repetition.
pub fn several_of(alloc: Global, meaning: Meaning) -> Meanings
    ensures { meanings_tree result ≡ several_of (meaning_tree meaning) }
{
    match meaning {
        Meaning::Several(meanings) => meanings,
        _ => Meanings::new(alloc),
    }
}

/// What the parts of a tree stand for that is only a part of another one.
pub fn group_of(alloc: Global, meaning: Meaning) -> Meanings
    ensures { meanings_tree result ≡ group_of (meaning_tree meaning) }
{
    match meaning {
        Meaning::Group(meanings) => meanings,
        _ => Meanings::new(alloc),
    }
}

/// A kind, where it is there.
pub fn maybe_kind_of(meaning: Meaning) -> Option<Kind>
    ensures { maybe_kind result ≡ maybe_kind_of (meaning_tree meaning) }
{
    match meaning {
        Meaning::Kind(kind) => Some(Box::into_inner(kind)),
        _ => None,
    }
}

/// A kind; one that isn't there is Type.
pub fn kind_of(meaning: Meaning) -> Kind
    ensures { kind_tree result ≡ kind_of (meaning_tree meaning) }
{
    match maybe_kind_of(meaning) {
        Some(kind) => kind,
        None => Kind::Types,
    }
}

/// A constructor, where it is there.
pub fn maybe_con_of(meaning: Meaning) -> Option<Con>
    ensures { maybe_con result ≡ maybe_con_of (meaning_tree meaning) }
{
    match meaning {
        Meaning::Con(_, con) => Some(Box::into_inner(con)),
        _ => None,
    }
}

/// The constructor that the tree stands for.
pub fn con_of(meaning: Meaning) -> Con
    ensures { con_tree result ≡ con_of (meaning_tree meaning) }
{
    match maybe_con_of(meaning) {
        Some(con) => con,
        None => Con {
            at: 0,
            form: ConForm::Wild,
        },
    }
}

/// The pattern that the tree stands for.
pub fn pat_of(meaning: Meaning) -> Pat
    ensures { pat_tree result ≡ pat_of (meaning_tree meaning) }
{
    match meaning {
        Meaning::Pat(_, pat) => Box::into_inner(pat),
        _ => Pat {
            at: 0,
            form: PatForm::Any,
        },
    }
}

/// The term that the tree stands for.
pub fn exp_of(meaning: Meaning) -> Exp
    ensures { exp_tree result ≡ exp_of (meaning_tree meaning) }
{
    match meaning {
        Meaning::Exp(_, exp) => Box::into_inner(exp),
        _ => Exp {
            at: 0,
            form: Form::Basis(Basis::Bind),
        },
    }
}

impl Meanings {
    /// The parts in order, for a loop.
    pub fn into_list(self) -> VecDeque<Meaning>
        ensures { meanings_tree self ≡ meanings_from (map meaning_tree result.items) }
    {
        let Meanings { items } = self;
        items
    }

    /// Lets go of the first part.
    pub fn skip(&mut self)
        ensures { meanings_tree self.new ≡ behind (meanings_tree self.old) }
    {
        drop(self.take());
    }

    /// The second part, as of a rule that is a word and a tree. Both are taken off.
    pub fn second(&mut self) -> Meaning
        ensures second { meaning_tree result ≡ first (behind (meanings_tree self.old)) }
        ensures behind { meanings_tree self.new ≡ behind (behind (meanings_tree self.old)) }
    {
        self.skip();
        self.take()
    }

    /// The byte at which the first part begins. The part is taken off, as by all below.
    pub fn at(&mut self) -> u32
        ensures first { result ≡ start_of (first (meanings_tree self.old)) }
        ensures behind { meanings_tree self.new ≡ behind (meanings_tree self.old) }
    {
        let first = self.take();
        start_of(&first)
    }

    /// The first part as a token.
    pub fn token(&mut self) -> Token
        ensures first { result ≡ word_of (first (meanings_tree self.old)) }
        ensures behind { meanings_tree self.new ≡ behind (meanings_tree self.old) }
    {
        word_of(self.take())
    }

    /// The first part as a name.
    pub fn name(&mut self, alloc: Global) -> Word
        ensures first { result ≡ named (word_of (first (meanings_tree self.old))) }
        ensures behind { meanings_tree self.new ≡ behind (meanings_tree self.old) }
    {
        named(alloc, self.token())
    }

    /// The first part as the trees of a repetition.
    pub fn several(&mut self, alloc: Global) -> Meanings
        ensures first { meanings_tree result ≡ several_of (first (meanings_tree self.old)) }
        ensures behind { meanings_tree self.new ≡ behind (meanings_tree self.old) }
    {
        several_of(alloc, self.take())
    }

    /// What the parts of the first part stand for.
    pub fn group(&mut self, alloc: Global) -> Meanings
        ensures first { meanings_tree result ≡ group_of (first (meanings_tree self.old)) }
        ensures behind { meanings_tree self.new ≡ behind (meanings_tree self.old) }
    {
        group_of(alloc, self.take())
    }

    /// The first part as a kind; one that isn't there is Type.
    pub fn kind(&mut self) -> Kind
        ensures first { kind_tree result ≡ kind_of (first (meanings_tree self.old)) }
        ensures behind { meanings_tree self.new ≡ behind (meanings_tree self.old) }
    {
        kind_of(self.take())
    }

    /// The first part as a constructor that may be missing.
    pub fn maybe_con(&mut self) -> Option<Con>
        ensures first { maybe_con result ≡ maybe_con_of (first (meanings_tree self.old)) }
        ensures behind { meanings_tree self.new ≡ behind (meanings_tree self.old) }
    {
        maybe_con_of(self.take())
    }

    /// The first part as a constructor.
    pub fn con(&mut self) -> Con
        ensures first { con_tree result ≡ con_of (first (meanings_tree self.old)) }
        ensures behind { meanings_tree self.new ≡ behind (meanings_tree self.old) }
    {
        con_of(self.take())
    }

    /// The first part as a pattern.
    pub fn pat(&mut self) -> Pat
        ensures first { pat_tree result ≡ pat_of (first (meanings_tree self.old)) }
        ensures behind { meanings_tree self.new ≡ behind (meanings_tree self.old) }
    {
        pat_of(self.take())
    }

    /// The first part as a term.
    pub fn exp(&mut self) -> Exp
        ensures first { exp_tree result ≡ exp_of (first (meanings_tree self.old)) }
        ensures behind { meanings_tree self.new ≡ behind (meanings_tree self.old) }
    {
        exp_of(self.take())
    }
}

//! The tokens of a text.
ghost use Rattle.std.specs.Prelude.{◌≡◌, ◌<◌, [], ◌∷◌, ◌++◌, length, OnOk, OnErr};
ghost use Rattle.std.specs.List.{slice_index_or};

use crate::Token;
use std::alloc::{AllocError, Global};
use std::marker::Model;

/// The tokens of a text in order, and the text's length in bytes, where a refusal at the end
/// stands. Contracts see the list of the tokens and this length.
#[derive(Debug, Drop)]
pub struct Tokens {
    all: Vec<Token>,
    text_end: u32,
}

impl Model for Tokens {
    ghost use Rattle.surface_tree.specs.TokenList.{TokenList};

    ghost Value = { TokenList };

    ghost view = { λ tokens. record { items = tokens.all.items; end = tokens.text_end } };
}

impl Tokens {
    /// No tokens yet, of a text of so many bytes. It allocates nothing.
    pub fn new(alloc: Global, end: u32) -> Tokens
        ensures items { result.items ≡ [] }
        ensures end { result.end ≡ end }
    {
        Tokens {
            all: Vec::new(alloc),
            text_end: end,
        }
    }

    /// Adds a token at the end. An `Err` changes nothing.
    pub fn push(&mut self, token: Token) -> Result<(), AllocError>
        ensures ok { OnOk result (self.new.items ≡ self.old.items ++ token ∷ []) }
        ensures err { OnErr result (self.new.items ≡ self.old.items) }
        ensures end { self.new.end ≡ self.old.end }
    {
        self.all.push(token)?;
        Ok(())
    }

    /// The number of tokens.
    pub fn len(&self) -> usize
        ensures { result ≡ length self.now.items }
    {
        self.all.len()
    }

    /// The token at this place, counted from 0.
    pub fn at(&self, place: usize) -> &Token
        requires { place < length self.now.items }
        ensures { result.now ≡ slice_index_or self.now.items place result.now }
    {
        &self.all[place]
    }

    /// The tokens as a slice.
    pub fn as_slice(&self) -> &[Token]
        ensures { result.now ≡ self.now.items }
    {
        self.all.as_slice()
    }

    /// The length of the text in bytes.
    pub fn end(&self) -> u32
        ensures { result ≡ self.now.end }
    {
        self.text_end
    }
}

//! Lists of symbols.
ghost use Rattle.std.specs.Prelude.{◌≡◌, ◌<◌, ◌++◌, ◌∷◌, [], Some, length, slice_get, OnOk, OnErr};

use con_terms::Sym;
use std::alloc::{AllocError, Global};

/// Symbols in order. Contracts see them as the list of their numbers.
#[derive(Drop)]
pub struct Symbols {
    pub items: Vec<Sym>,
}

impl Symbols {
    ghost use Rattle.core_terms.specs.View.{symbols_view};

    /// The empty list. It allocates nothing.
    pub fn new(alloc: Global) -> Symbols
        ensures { symbols_view result ≡ [] }
    {
        Symbols {
            items: Vec::new(alloc),
        }
    }

    /// Adds a symbol at the end. An `Err` changes nothing.
    pub fn push(&mut self, symbol: Sym) -> Result<(), AllocError>
        ensures grown { OnOk result (symbols_view self.new ≡ symbols_view self.old ++ symbol.number ∷ []) }
        ensures kept { OnErr result (symbols_view self.new ≡ symbols_view self.old) }
    {
        Ok(self.items.push(symbol)?)
    }

    /// The number of symbols.
    pub fn len(&self) -> usize
        ensures { result ≡ length (symbols_view self.now) }
    {
        self.items.len()
    }

    /// The symbol at this place, counted from 0.
    pub fn at(&self, i: usize) -> Sym
        requires { i < length (symbols_view self.now) }
        ensures { slice_get (symbols_view self.now) i ≡ Some result.number }
    {
        self.items[i]
    }
}

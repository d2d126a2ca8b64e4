//! Symbols: texts by number.

ghost use Rattle.std.specs.Prelude.{◌≡◌, ◌<◌, ◌≤◌, ◌^◌, ◌↔◌, [], None, Some, length, map, option_map, slice_get, IfOk, IfSome, IsSome, OnOk, OnErr};
ghost use Rattle.std.specs.List.{Contains, IsDistinct};
ghost use Rattle.std.specs.Str.{bytes_eq};
ghost use Rattle.std.specs.String.{string_bytes};
ghost use Rattle.con_terms.specs.Symbols.{Table, put_text, symbol_of};

use indexmap::IndexSet;
use std::alloc::{AllocError, Global};
use std::marker::Model;

/// A symbol, which stands for a text of a table.
#[derive(Clone, Copy, PartialEq, Eq, PartialOrd, Ord, Debug)]
pub struct Sym {
    pub number: u32,
}

/// Texts, each with the number at which it was first seen. Contracts see it as the list of its texts.
#[derive(Drop)]
pub struct SymTable {
    alloc: Global,
    texts: IndexSet<String>,
}

impl Model for SymTable {
    ghost Value = { Table };

    ghost view = { λ t. map string_bytes t.texts.keys };

    ghost invariant = { λ t. length t.texts.keys < 2 ^ 32 };
}

impl SymTable {
    /// The table with no text.
    pub fn new(alloc: Global) -> SymTable
        ensures { result ≡ [] }
    {
        SymTable {
            alloc,
            texts: IndexSet::new(alloc),
        }
    }

    /// The symbol of a text, where the table has it.
    pub fn find(&self, text: &str) -> Option<Sym>
        ensures exact { option_map (λ s. s.number) result ≡ symbol_of self.now text.now }
        ensures named { IfSome result (λ s. slice_get self.now s.number ≡ Some text.now) }
        ensures there { IsSome result ↔ Contains self.now text.now }
    {
        match self.texts.get_index_of(text) {
            Some(index) => Some(Sym {
                number: index as u32,
            }),
            None => None,
        }
    }

    /// The symbol of a text, which is put into the table where it isn't there yet.
    ///
    /// A table of 2^32 - 1 texts has no room for a further one, and this counts as want of memory. A text that is there
    /// takes no memory, and is never refused.
    pub fn intern(&mut self, text: &str) -> Result<Sym, AllocError>
        ensures named { IfOk result (λ s. slice_get self.new s.number ≡ Some text.now) }
        ensures grown { OnOk result (self.new ≡ put_text self.old text.now) }
        ensures kept { OnErr result (self.new ≡ self.old) }
        ensures only_new { OnErr result (symbol_of self.old text.now ≡ None) }
    {
        match self.find(text) {
            Some(known) => return Ok(known),
            None => {}
        }
        if self.texts.len() >= u32::MAX as usize {
            return Err(AllocError);
        }
        let number = self.texts.len() as u32;
        let owned = String::from_str(self.alloc, text)?;
        let Ok(_) = self.texts.insert_full(owned) else {
            return Err(AllocError);
        };
        Ok(Sym { number })
    }

    /// The text of a symbol of this table.
    pub fn text(&self, s: Sym) -> &str
        requires { s.number < length self.now }
        ensures { slice_get self.now s.number ≡ Some result.now }
    {
        self.texts.get_index(s.number as usize).unwrap().as_str()
    }

    /// How many symbols there are.
    ///
    /// No two of them have one text, so symbols are equal exactly where their texts are.
    pub fn count(&self) -> u32
        ensures len { result ≡ length self.now }
        ensures distinct { IsDistinct bytes_eq self.now }
    {
        self.texts.len() as u32
    }
}

//! The texts of a program's symbols, and the names of its modules.
ghost use Rattle.std.specs.Prelude.{◌≡◌, IfOk, IsTrue, length, take};
ghost use Rattle.std.specs.List.{AllByRecursion};
ghost use Rattle.core_terms.specs.Names.{basis_texts};
ghost use Rattle.core_typing.specs.Accepts.{TextsDiffer};
ghost use Rattle.link_router.specs.RouteLaws.{IsPlain};

use con_terms::{SymTable, symbols_are_texts};
use std::alloc::{AllocError, Global};
use table_rows::{Text, Texts};
use type_makers::basis_names;

/// Whether two texts are one.
fn is_same(a: &Text, b: &Text) -> bool
    ensures { IsTrue result → a.now ≡ b.now }
{
    a.as_str() == b.as_str()
}

/// Whether texts begin with others.
fn begins_with(texts: &Texts, first: &Texts) -> bool
    ensures { IsTrue result → take (length first.now) texts.now ≡ first.now }
{
    if texts.len() < first.len() {
        return false;
    }
    for i in 0..first.len() {
        if !is_same(texts.at(i), first.at(i)) {
            return false;
        }
    }
    true
}

/// Whether texts begin with those of the symbols that every program has.
pub fn begins_with_basis(alloc: Global, texts: &Texts) -> Result<bool, AllocError>
    ensures { IfOk result (λ yes. IsTrue yes → take (length basis_texts) texts.now ≡ basis_texts) }
{
    let first = basis_names(alloc)?;
    Ok(begins_with(texts, &first))
}

/// Whether no two texts are one.
#[tactic(auto, using(crate::proofs::Tables::differ))]
pub fn texts_differ(alloc: Global, texts: &Texts) -> Result<bool, AllocError>
    ensures { IfOk result (λ yes. IsTrue yes → TextsDiffer texts.now) }
{
    let mut table = SymTable::new(alloc);
    for i in 0..texts.len() {
        let text = texts.at(i).as_str();
        match table.find(text) {
            Some(_) => return Ok(false),
            None => {}
        }
        table.intern(text)?;
    }
    // Each text went into the table as a new one, so these are the table's texts, which are distinct.
    let _count = table.count();
    symbols_are_texts();
    Ok(true)
}

/// Whether neither `/` nor `%` stands in a text.
fn is_plain(text: &Text) -> bool
    ensures { IsTrue result → IsPlain text.now }
{
    let bytes = text.as_bytes();
    for i in 0..bytes.len() {
        if bytes[i] == b'/' || bytes[i] == b'%' {
            return false;
        }
    }
    true
}

/// Whether neither stands in any of the texts.
pub fn are_plain(texts: &Texts) -> bool
    ensures { IsTrue result → AllByRecursion IsPlain texts.now }
{
    for i in 0..texts.len() {
        if !is_plain(texts.at(i)) {
            return false;
        }
    }
    true
}

//! The symbols of a program's types, and the kinds of its folders.
ghost use Rattle.std.specs.Prelude.{◌≡◌, ◌≢◌, ◌++◌, IfOk, IsTrue, OnOk, drop, map};
ghost use Rattle.std.specs.List.{AllByRecursion};
ghost use Rattle.con_terms.specs.View.{kind_tree};
ghost use Rattle.core_terms.specs.Lists.{folders_view};
ghost use Rattle.core_terms.specs.View.{decls_view, folder_view, program_view};
ghost use Rattle.core_typing.specs.Accepts.{type_symbols};
ghost use Rattle.core_typing.specs.Declarations.{datatypes};
ghost use Rattle.core_typing.specs.Scopes.{datatype_kinds, folder_kinds};
ghost use Rattle.program_forms.specs.Symbols.{KindsDiffer, SymbolsDiffer, unmarked};

use con_terms::{Kind, same_kind};
use core_terms::{Decl, Decls, Folders, Program};
use std::alloc::{AllocError, Global};

/// The symbols of the types that every program has: those that are no datatypes, and then the datatypes.
const BASIS: [u32; 19] = [
    0, 1, 2, 6, 7, 8, 9, 10, 11, 12, 13, 14, 15, 16, 17, 18, 3, 4, 5,
];

/// Adds the symbols of the datatypes.
fn add_datatypes(symbols: &mut Vec<u32>, ds: &Decls) -> Result<(), AllocError>
    ensures { OnOk result (symbols.new.items
        ≡ symbols.old.items ++ map (λ k. k.0) (datatype_kinds (datatypes (decls_view ds.now)))) }
{
    for i in 0..ds.items.len() {
        if let Decl::Datatype(d) = &ds.items[i] {
            symbols.push(d.symbol.number)?;
        }
    }
    Ok(())
}

/// Adds the symbols of the folders.
fn add_folders(symbols: &mut Vec<u32>, fs: &Folders) -> Result<(), AllocError>
    ensures { OnOk result (symbols.new.items
        ≡ symbols.old.items ++ map (λ k. k.0) (folder_kinds (folders_view fs.now))) }
{
    for i in 0..fs.items.len() {
        symbols.push(fs.items[i].symbol.number)?;
    }
    Ok(())
}

/// Whether each symbol has a place among the marks, and none there yet when it is met; each is marked as it is met.
fn find_no_mark(symbols: &[u32], marks: &mut [bool]) -> bool
    ensures { IsTrue result → IsTrue (unmarked marks.old symbols.now) }
{
    for i in 0..symbols.len() {
        let place = symbols[i] as usize;
        if place >= marks.len() {
            return false;
        }
        if marks[place] {
            return false;
        }
        marks[place] = true;
    }
    true
}

/// Whether no two symbols are one, where each is below a number of symbols. It takes a time that grows with both
/// numbers, and a byte a symbol.
#[tactic(auto, using(crate::proofs::Marks::differing))]
fn symbols_differ(alloc: Global, count: usize, symbols: &[u32]) -> Result<bool, AllocError>
    ensures { IfOk result (λ yes. IsTrue yes → SymbolsDiffer symbols.now) }
{
    let mut marks = vec![in alloc; false; count]?;
    Ok(find_no_mark(symbols, &mut marks))
}

/// Whether no two types have one symbol.
pub fn type_symbols_differ(alloc: Global, p: &Program) -> Result<bool, AllocError>
    ensures { IfOk result (λ yes. IsTrue yes → SymbolsDiffer (type_symbols (program_view p.now))) }
{
    let mut symbols = BASIS.to_vec(alloc)?;
    add_datatypes(&mut symbols, &p.decls)?;
    add_folders(&mut symbols, &p.folders)?;
    symbols_differ(alloc, p.names.len(), &symbols)
}

/// Whether a kind is none of those of the folders from this place on.
fn is_other_kind(kind: &Kind, fs: &Folders, from: usize) -> bool
    ensures { IsTrue result
        → AllByRecursion (λ g. kind_tree kind.now ≢ g.0) (map folder_view (drop from fs.now.items.items)) }
{
    let mut i = from;
    while i < fs.items.len() {
        if same_kind(kind, &fs.items[i].kind) {
            return false;
        }
        i += 1;
    }
    true
}

/// Whether no two folders are for one kind.
pub fn kinds_differ(fs: &Folders) -> bool
    ensures { IsTrue result → KindsDiffer (folders_view fs.now) }
{
    for i in 0..fs.items.len() {
        if !is_other_kind(&fs.items[i].kind, fs, i + 1) {
            return false;
        }
    }
    true
}

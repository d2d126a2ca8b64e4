//! What is in scope in all of a declaration.
ghost use Rattle.std.specs.Prelude.{◌≡◌, IfOk, map, slice_get, option_map};
ghost use Rattle.con_terms.specs.Same.{kd_eq};
ghost use Rattle.con_terms.specs.View.{kind_tree};
ghost use Rattle.core_terms.specs.Datatypes.{datatype_of};
ghost use Rattle.core_terms.specs.View.{constructor_view, datatype_view, folder_view};
ghost use Rattle.core_typing.specs.Scopes.{folder_of};
ghost use Rattle.judgements.specs.View.{maybe_symbol};

use con_terms::{Con, Kind, Sym, same_kind};
use core_terms::{Constructor, Datatype, FolderName};

/// The types of the top-level values by their numbers, the datatypes, the folders, and how many foreign effects there
/// are.
#[derive(Drop)]
pub struct Globals {
    pub tops: Vec<Con>,
    pub datatypes: Vec<Datatype>,
    pub folders: Vec<FolderName>,
    pub effects: usize,
}

/// The datatype with a symbol.
pub fn datatype_named(g: &Globals, s: Sym) -> Option<&Datatype>
    ensures { option_map (λ d. datatype_view d.now) result
        ≡ datatype_of (map datatype_view g.now.datatypes.items) s.number }
{
    for i in 0..g.datatypes.len() {
        if g.datatypes[i].symbol.number == s.number {
            return Some(&g.datatypes[i]);
        }
    }
    None
}

/// A datatype's constructor at a place.
pub fn constructor_named(d: &Datatype, j: u32) -> Option<&Constructor>
    ensures { option_map (λ c. constructor_view c.now) result
        ≡ slice_get (map constructor_view d.now.constructors.items.items) j }
{
    let index = j as usize;
    if index < d.constructors.items.len() {
        Some(&d.constructors.items[index])
    } else {
        None
    }
}

/// Whether a folder is for rows of a kind.
fn is_for(f: &FolderName, k: &Kind) -> bool
    ensures { result ≡ kd_eq (folder_view f.now).0 (kind_tree k.now) }
{
    same_kind(&f.kind, k)
}

/// The symbol of the type of folders for rows of a kind.
pub fn folder_named(g: &Globals, k: &Kind) -> Option<Sym>
    ensures { maybe_symbol result ≡ folder_of (map folder_view g.now.folders.items) (kind_tree k.now) }
{
    for i in 0..g.folders.len() {
        if is_for(&g.folders[i], k) {
            return Some(g.folders[i].symbol);
        }
    }
    None
}

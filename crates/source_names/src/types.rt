//! What names of the type level stand for.
ghost use Rattle.std.specs.Prelude.{◌≡◌, IfOk, map};
ghost use Rattle.con_terms.specs.Trees as tree;
ghost use Rattle.con_terms.specs.View.{con_tree};
ghost use Rattle.row_normal.specs.SameTree.{cn_eq};
ghost use Rattle.source_names.specs.Standing as standing;
ghost use Rattle.source_names.specs.View.{folder_symbol, scope_view};

use crate::here::{Here, binder_at};
use con_terms::Con;
use core_terms::{Folders, TypeName};
use plain_tree::Path;
use row_normal::same_con;
use std::alloc::{AllocError, Global};
use type_makers::{named_type, type_named};

/// Whether a constructor is the variable of a binder.
fn is_variable(con: &Con, number: u32) -> bool
    ensures { result ≡ cn_eq (tree.var number) (con_tree con.now) }
{
    match con {
        Con::Var(i) => number == *i,
        _ => false,
    }
}

/// Whether a symbol is one of the symbols of `folder`.
fn is_folder(folders: &Folders, symbol: u32) -> bool
    ensures { result ≡ standing.is_one_of (map folder_symbol folders.now.items.items) symbol }
{
    for i in 0..folders.items.len() {
        if folders.items[i].symbol.number == symbol {
            return true;
        }
    }
    false
}

/// Whether a constructor is `folder` or `map`, where that is the name.
fn is_folder_or_map(s: &Here<'_>, name: &str, con: &Con) -> bool
    ensures { result ≡ standing.is_meant_type (scope_view s.now).tables (standing.folder_or_map name.now)
        (con_tree con.now) }
{
    if "folder" == name {
        match con {
            Con::Basic(symbol) => is_folder(&s.program.folders, symbol.number),
            _ => false,
        }
    } else if "map" == name {
        matches!(con, Con::Map(_, _))
    } else {
        false
    }
}

/// The type of a name that every program has.
fn basis_type(name: &str) -> Option<TypeName>
    ensures { result ≡ standing.type_called name.now standing.type_names }
{
    type_named(name)
}

/// Whether a constructor is what a name stands for that nothing declares.
fn is_undeclared(alloc: Global, s: &Here<'_>, path: &Path, con: &Con) -> Result<bool, AllocError>
    ensures { IfOk result (λ b. b ≡ standing.is_meant_type (scope_view s.now).tables
        (standing.undeclared_type path.now.modules path.now.name) (con_tree con.now)) }
{
    match path.modules.items.as_slice() {
        [] => match basis_type(path.name.as_str()) {
            Some(name) => {
                let meant = named_type(alloc, name)?;
                Ok(same_con(&meant, con))
            }
            None => Ok(is_folder_or_map(s, path.name.as_str(), con)),
        },
        _ => Ok(false),
    }
}

/// Whether a name of the type level stands for a constructor.
pub fn names_type(alloc: Global, s: &Here<'_>, path: &Path, con: &Con) -> Result<bool, AllocError>
    ensures { IfOk result (λ b. b ≡ standing.names_type (scope_view s.now) path.now (con_tree con.now)) }
{
    match binder_at(path, &s.variables)? {
        Some(number) => Ok(is_variable(con, number)),
        None => match s.known.type_at(path) {
            Some(known) => Ok(same_con(&known.means, con)),
            None => is_undeclared(alloc, s, path, con),
        },
    }
}

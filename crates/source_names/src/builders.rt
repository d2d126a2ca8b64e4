//! What names of constructors of datatypes stand for.
ghost use Rattle.std.specs.Prelude.{◌≡◌, IfOk, option_map};
ghost use Rattle.core_terms.specs.Datatypes.{basis_datatypes};
ghost use Rattle.source_names.specs.Standing as standing;
ghost use Rattle.source_names.specs.View.{basis_found, scope_view};

use crate::here::Here;
use con_terms::Sym;
use plain_tree::{BasisBuilder, Path};
use std::alloc::AllocError;
use type_makers::symbols::{BOOL, LIST, OPTION};

/// A constructor: its datatype's symbol, and its place in it.
#[derive(Clone, Copy, Drop)]
pub struct BasisPlace {
    pub datatype: Sym,
    pub index: u32,
}

/// The constructor of a name that every program has.
fn basis_builder(name: &str) -> Option<BasisPlace>
    ensures { option_map basis_found result ≡ standing.basis_builder_in name.now basis_datatypes }
{
    match name {
        "False" => Some(BasisPlace {
            datatype: BOOL,
            index: 0,
        }),
        "True" => Some(BasisPlace {
            datatype: BOOL,
            index: 1,
        }),
        "None" => Some(BasisPlace {
            datatype: OPTION,
            index: 0,
        }),
        "Some" => Some(BasisPlace {
            datatype: OPTION,
            index: 1,
        }),
        "Nil" => Some(BasisPlace {
            datatype: LIST,
            index: 0,
        }),
        "Cons" => Some(BasisPlace {
            datatype: LIST,
            index: 1,
        }),
        _ => None,
    }
}

/// Whether a name that nothing declares stands for a constructor.
fn is_undeclared(path: &Path, datatype: Sym, index: u32) -> bool
    ensures { result ≡ standing.is_meant_builder
        (standing.undeclared_builder path.now.modules path.now.name) datatype.number index }
{
    match path.modules.items.as_slice() {
        [] => match basis_builder(path.name.as_str()) {
            None => false,
            Some(known) => known.datatype.number == datatype.number && known.index == index,
        },
        _ => false,
    }
}

/// Whether a name stands for the constructor at a place of the datatype with a symbol.
pub fn names_builder(
    s: &Here<'_>,
    path: &Path,
    datatype: Sym,
    index: u32,
) -> Result<bool, AllocError>
    ensures { IfOk result
        (λ b. b ≡ standing.names_builder (scope_view s.now) path.now datatype.number index) }
{
    match s.known.builder(path) {
        Some(known) => Ok(known.datatype.number == datatype.number && known.index == index),
        None => Ok(is_undeclared(path, datatype, index)),
    }
}

/// The same for a constructor that sugar stands for.
pub fn names_basis_builder(
    s: &Here<'_>,
    builder: BasisBuilder,
    datatype: Sym,
    index: u32,
) -> Result<bool, AllocError>
    ensures { IfOk result
        (λ b. b ≡ standing.names_basis_builder (scope_view s.now) builder datatype.number index) }
{
    Ok(match builder {
        BasisBuilder::False => datatype.number == BOOL.number && index == 0,
        BasisBuilder::True => datatype.number == BOOL.number && index == 1,
        BasisBuilder::Nil => datatype.number == LIST.number && index == 0,
        BasisBuilder::Cons => datatype.number == LIST.number && index == 1,
    })
}

//! Copies of what faults keep.
ghost use Rattle.std.specs.Prelude.{◌≡◌, IfOk};
ghost use Rattle.core_terms.specs.View.{symbols_view};

use core_terms::Symbols;
use std::alloc::{AllocError, Global};

/// A copy of what constructor variables are called.
pub fn copy_symbols(alloc: Global, names: &Symbols) -> Result<Symbols, AllocError>
    ensures { IfOk result (λ new. symbols_view new ≡ symbols_view names.now) }
{
    Ok(Symbols {
        items: names.items.clone()?,
    })
}

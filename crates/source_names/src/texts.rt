//! The texts of symbols.
ghost use Rattle.std.specs.Prelude.{◌≡◌, IfOk};
ghost use Rattle.std.specs.Str.{bytes_eq};
ghost use Rattle.source_names.specs.Standing as standing;
ghost use Rattle.source_names.specs.View.{scope_view};

use crate::here::Here;
use con_terms::Sym;
use std::alloc::AllocError;
use table_rows::Text;

/// Whether two texts are one.
pub(crate) fn same_text(a: &Text, b: &Text) -> bool
    ensures { result ≡ bytes_eq a.now b.now }
{
    a.as_str() == b.as_str()
}

/// Whether a symbol of the program has a text.
pub(crate) fn has_text(s: &Here<'_>, name: Sym, text: &str) -> bool
    ensures { result ≡ standing.is_text (scope_view s.now).tables name.number text.now }
{
    let place = name.number as usize;
    if place < s.program.names.len() {
        s.program.names.at(place).as_str() == text
    } else {
        false
    }
}

/// Whether a symbol of the program has a text.
pub fn is_text(s: &Here<'_>, name: Sym, text: &Text) -> Result<bool, AllocError>
    ensures { IfOk result (λ b. b ≡ standing.is_text (scope_view s.now).tables name.number text.now) }
{
    Ok(has_text(s, name, text.as_str()))
}

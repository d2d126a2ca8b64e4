//! Whether a program is formed.
ghost use Rattle.std.specs.Prelude.{IsTrue, IfOk};
ghost use Rattle.core_terms.specs.View.{program_view};
ghost use Rattle.core_typing.specs.Accepts.{Formed};

use crate::declarations::decls_fit;
use crate::symbols::{kinds_differ, type_symbols_differ};
use crate::texts::{are_plain, begins_with_basis, texts_differ};
use crate::values::{all_below, count_values, values_stand};
use core_terms::Program;
use std::alloc::{AllocError, Global};

/// Whether a program is formed, as whoever builds one sees to it. A program with structures isn't found to be formed
/// yet.
///
/// It takes a time that grows with the program, and with the square of the number of its folders.
pub fn is_formed(alloc: Global, p: &Program) -> Result<bool, AllocError>
    ensures formed { IfOk result (λ yes. IsTrue yes → Formed (program_view p.now)) }
{
    let count = p.names.len();
    if !begins_with_basis(alloc, &p.names)? {
        return Ok(false);
    }
    if !texts_differ(alloc, &p.names)? {
        return Ok(false);
    }
    if !type_symbols_differ(alloc, p)? {
        return Ok(false);
    }
    if !kinds_differ(&p.folders) {
        return Ok(false);
    }
    if !are_plain(&p.names) {
        return Ok(false);
    }
    if !are_plain(&p.modules) {
        return Ok(false);
    }
    if !values_stand(p.modules.len(), count, &p.decls) {
        return Ok(false);
    }
    if !decls_fit(count, &p.decls) {
        return Ok(false);
    }
    Ok(all_below(p.exports.items.as_slice(), count_values(&p.decls)))
}

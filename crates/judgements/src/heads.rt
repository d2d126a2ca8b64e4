//! Types that aren't of a wanted form.
ghost use Rattle.std.specs.Prelude.{◌≡◌, IfOk};
ghost use Rattle.con_terms.specs.View.{con_tree};
ghost use Rattle.core_terms.specs.View.{maybe_con};
ghost use Rattle.core_typing.specs.Faults.{mismatch as mismatch_at};
ghost use Rattle.core_typing.specs.Own.{any_record};
ghost use Rattle.judgements.specs.Comparisons as computed;
ghost use Rattle.judgements.specs.View.{sc_view};
ghost use Rattle.told_faults.specs.Computed.{record_row};
ghost use Rattle.type_faults.specs.View.{fault_tree, maybe_fault};

use crate::called::names_called;
use crate::globals::Globals;
use crate::scope::Here;
use con_terms::{Con, Kind, Pairs, Place};
use std::alloc::{AllocError, Global};
use type_faults::{Fault, mismatch};

/// A normal form that isn't of a wanted form.
pub fn other_form(
    alloc: Global,
    g: &Globals,
    s: &Here,
    p: Place,
    wanted: Con,
    n: Con,
) -> Result<Fault, AllocError>
    ensures { IfOk result
        (λ f. fault_tree f ≡ mismatch_at p (sc_view g.now s.now).called (con_tree wanted) (con_tree n)) }
{
    mismatch(alloc, p, names_called(alloc, &s.called)?, wanted, n)
}

/// The row of a record's type.
pub fn head_of_record(n: Con) -> Option<Con>
    ensures { maybe_con result ≡ record_row (con_tree n) }
{
    match n {
        Con::Record(r) => Some(Box::into_inner(r)),
        _ => None,
    }
}

/// The record without fields.
fn empty_record(alloc: Global) -> Result<Con, AllocError>
    ensures { IfOk result (λ c. con_tree c ≡ any_record) }
{
    let kind = Box::new(alloc, Kind::Types)?;
    let fields = Pairs {
        items: Vec::new(alloc),
    };
    let row = Con::Row(kind, fields);
    Ok(Con::Record(Box::new(alloc, row)?))
}

/// What is told where a type's normal form is no record.
pub fn no_record(
    alloc: Global,
    g: &Globals,
    s: &Here,
    p: Place,
    n: Option<Con>,
) -> Result<Option<Fault>, AllocError>
    ensures { IfOk result (λ o. maybe_fault o ≡ computed.no_record (sc_view g.now s.now) p (maybe_con n)) }
{
    match n {
        None => Ok(Some(Fault::TooLarge(p))),
        Some(Con::Record(_)) => Ok(None),
        Some(n) => {
            let wanted = empty_record(alloc)?;
            Ok(Some(other_form(alloc, g, s, p, wanted, n)?))
        }
    }
}

//! Fields of record patterns, among the pieces of a row.
ghost use Rattle.std.specs.Prelude.{◌≡◌, IfOk};
ghost use Rattle.con_terms.specs.View.{con_tree};
ghost use Rattle.core_typing.specs.PatternFaults.{left_over as left_over_of};
ghost use Rattle.judgements.specs.View.{bound_tree, cons_view, sc_view};
ghost use Rattle.pattern_rules.specs.Binds as computed;
ghost use Rattle.pattern_rules.specs.View.{fields_tree};
ghost use Rattle.told_faults.specs.Computed.{sooner as sooner_in};
ghost use Rattle.type_faults.specs.View.{fault_tree};

use crate::binds::FieldsBound;
use con_terms::{Con, Cons, Place};
use judgements::{Bound, Globals, Here, other_form, row_of_rest};
use std::alloc::{AllocError, Global};
use type_faults::{Fault, place_of};
use type_makers::{one_field, record, unit_type};

/// The record of the pieces that are left of a row.
fn left_over(alloc: Global, rest: Cons) -> Result<Con, AllocError>
    ensures { IfOk result (λ c. con_tree c ≡ left_over_of (cons_view rest)) }
{
    let row = row_of_rest(alloc, rest)?;
    record(alloc, row)
}

/// What is told where a row has no field of a name.
pub fn no_field_there(
    alloc: Global,
    g: &Globals,
    s: &Here,
    p: Place,
    m: Con,
    pieces: Cons,
) -> Result<Fault, AllocError>
    ensures { IfOk result (λ f. fault_tree f ≡
        computed.no_field_there (sc_view g.now s.now) p (con_tree m) (cons_view pieces)) }
{
    let wanted = left_over(alloc, pieces)?;
    let row = one_field(alloc, m, Con::UnitCon)?;
    let found = record(alloc, row)?;
    other_form(alloc, g, s, p, wanted, found)
}

/// Whether a place stands before another: by file, and then by byte.
fn sooner(p: Place, q: Place) -> bool
    ensures { result ≡ sooner_in p q }
{
    if p.file < q.file {
        true
    } else if q.file < p.file {
        false
    } else {
        p.at < q.at
    }
}

/// The earlier of two faults; of two at one place the first.
pub fn earlier(f: Fault, h: Fault) -> Fault
    ensures { fault_tree result ≡ computed.earlier (fault_tree f) (fault_tree h) }
{
    if sooner(place_of(&h), place_of(&f)) {
        h
    } else {
        f
    }
}

/// What a record pattern binds, from what its fields bind: fields that are left are told where none may be.
#[inline(never)]
pub fn whole_binding(
    alloc: Global,
    g: &Globals,
    s: &Here,
    p: Place,
    more: bool,
    fields: FieldsBound,
) -> Result<Bound, AllocError>
    ensures { IfOk result
        (λ b. bound_tree b ≡ computed.whole_binding (sc_view g.now s.now) p more (fields_tree fields)) }
{
    match fields {
        FieldsBound::Bad(f) => Ok(Bound::Bad(f)),
        FieldsBound::Bound(rest, locals) => {
            if more || rest.len() == 0 {
                return Ok(Bound::Under(locals));
            }
            let wanted = left_over(alloc, rest)?;
            let found = unit_type(alloc)?;
            Ok(Bound::Bad(other_form(alloc, g, s, p, wanted, found)?))
        }
    }
}

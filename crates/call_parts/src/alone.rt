//! A call without arguments: its leading implicits are taken from the wanted type.
use crate::walk::{bind, guard, has_form, implied};
use con_terms::Con;
use core_terms::{ConOrigin, Sigil};
use name_scopes::ElabFault;
use open_terms::{Call, Want, head_of, is_implied};
use std::alloc::{AllocError, Global};
use std::mem::replace;

/// How many leading implicits there are at most.
const MOST: usize = 1_000_000;

/// Whether a wanted type has a parameter at which something is inserted.
fn wants_implied(alloc: Global, call: &Call<'_>, wanted: &Con) -> Result<bool, AllocError> {
    match wanted {
        Con::Arrow(from, _) => is_implied(alloc, &call.env, from),
        _ => Ok(false),
    }
}

/// Whether a type begins with an implicit constructor.
fn begins_implicit(c: &Con) -> bool {
    match c {
        Con::Poly(implicit, _, _) => *implicit,
        _ => false,
    }
}

/// Whether a type begins with a guard.
fn begins_guarded(c: &Con) -> bool {
    match c {
        Con::Guarded(_, _, _) => true,
        _ => false,
    }
}

/// Whether what comes first is inserted: an implicit constructor, a guard's proof, a folder or an instance, unless the
/// wanted type begins so.
fn is_inserted(alloc: Global, call: &Call<'_>, wanted: &Con) -> Result<bool, AllocError> {
    match &*call.rest {
        Con::Poly(implicit, _, _) => Ok(*implicit && !begins_implicit(wanted)),
        Con::Guarded(_, _, _) => Ok(call.inserts == Sigil::Plain && !begins_guarded(wanted)),
        Con::Arrow(from, _) => {
            if call.inserts != Sigil::Plain || !is_implied(alloc, &call.env, from)? {
                return Ok(false);
            }
            Ok(!wants_implied(alloc, call, wanted)?)
        }
        _ => Ok(false),
    }
}

/// Inserts what comes first.
fn insert_first(alloc: Global, call: &mut Call<'_>) -> Result<(), AllocError> {
    let place = call.place;
    match replace(&mut *call.rest, Con::UnitCon) {
        Con::Poly(_, kind, body) => bind(alloc, call, place, ConOrigin::Inserted, kind, body),
        Con::Guarded(_, _, body) => guard(call, place, true, body),
        Con::Arrow(from, to) => implied(call, from, to),
        rest => {
            *call.rest = rest;
            Ok(())
        }
    }
}

/// The type that is left, with its head reduced where it has no form yet.
fn reduce_rest(alloc: Global, call: &mut Call<'_>) -> Result<(), AllocError> {
    if has_form(&call.rest) {
        return Ok(());
    }
    match head_of(alloc, &call.rest)? {
        None => {}
        Some(head) => *call.rest = head,
    }
    Ok(())
}

/// Inserts the leading implicits of a call without arguments, as far as the wanted type doesn't have them.
fn insert(alloc: Global, call: &mut Call<'_>, wanted: &Con) -> Result<(), ElabFault> {
    match head_of(alloc, wanted)? {
        None => insert_all(alloc, call, wanted),
        Some(head) => insert_all(alloc, call, &head),
    }
}

/// Inserts the leading implicits of a call without arguments, as far as the wanted type, whose head is reduced, doesn't
/// have them.
fn insert_all(alloc: Global, call: &mut Call<'_>, wanted: &Con) -> Result<(), ElabFault> {
    for _ in 0..MOST {
        reduce_rest(alloc, call)?;
        if !is_inserted(alloc, call, wanted)? {
            return Ok(());
        }
        insert_first(alloc, call)?;
    }
    Err(ElabFault::Memory)
}

/// Begins a call without arguments, if this is one, where this is wanted.
#[inline(never)]
pub fn begin(alloc: Global, call: &mut Call<'_>, want: &Want) -> Result<(), ElabFault> {
    if !call.alone {
        return Ok(());
    }
    if call.inserts == Sigil::AtAt {
        call.alone = false;
        return Ok(());
    }
    match want {
        Want::Whole(wanted) => {
            call.alone = false;
            insert(alloc, call, wanted)
        }
        // (a page's type takes nothing, so all that comes first is inserted)
        Want::Page(_, _) => {
            call.alone = false;
            insert_all(alloc, call, &Con::UnitCon)
        }
        _ => {
            reduce_rest(alloc, call)?;
            if !begins_implicit(&call.rest) {
                call.alone = false;
            }
            Ok(())
        }
    }
}

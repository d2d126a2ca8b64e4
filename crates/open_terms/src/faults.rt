//! What is told of terms that have no type.
use crate::env::Env;
use crate::memory::on_heap;
use crate::types::boxed_normal;
use con_terms::{Con, Kind, Pairs, Place};
use name_scopes::ElabFault;
use plain_tree::Path;
use std::alloc::{AllocError, Global};
use table_rows::Text;
use type_faults::{Fault, Types};
use type_makers::{arrow, empty_row, no_types, poly, record};

/// The fault that a constructor is too large.
pub fn too_large(at: Place) -> ElabFault {
    ElabFault::Told(Fault::TooLarge(at))
}

/// The fault that these two types differ.
fn told(alloc: Global, env: &Env, at: Place, types: Box<Types>) -> Result<ElabFault, AllocError> {
    let called = env.scope.called(alloc)?;
    Ok(ElabFault::Told(Fault::Mismatch(at, called, types)))
}

/// Two types on the heap that differ.
pub fn boxed_mismatch(
    alloc: Global,
    env: &Env,
    at: Place,
    wanted: Box<Con>,
    found: Box<Con>,
) -> Result<ElabFault, AllocError> {
    mismatch(
        alloc,
        env,
        at,
        Box::into_inner(wanted),
        Box::into_inner(found),
    )
}

/// Two types that differ.
#[inline(never)]
pub fn mismatch(
    alloc: Global,
    env: &Env,
    at: Place,
    wanted: Con,
    found: Con,
) -> Result<ElabFault, AllocError> {
    let types = on_heap(alloc, Types { wanted, found })?;
    told(alloc, env, at, types)
}

/// A type that isn't of a form on the heap, which stands as what is wanted.
pub fn boxed_not_of(
    alloc: Global,
    env: &Env,
    at: Place,
    wanted: Box<Con>,
    found: &Con,
) -> Result<ElabFault, AllocError> {
    match boxed_normal(alloc, found)? {
        None => Ok(too_large(at)),
        Some(found) => boxed_mismatch(alloc, env, at, wanted, found),
    }
}

/// A wanted type that isn't of a form on the heap, which stands as what is found.
fn boxed_not_wanted(
    alloc: Global,
    env: &Env,
    at: Place,
    wanted: &Con,
    found: Box<Con>,
) -> Result<ElabFault, AllocError> {
    match boxed_normal(alloc, wanted)? {
        None => Ok(too_large(at)),
        Some(wanted) => boxed_mismatch(alloc, env, at, wanted, found),
    }
}

/// A type that isn't of a form, which stands as what is wanted.
#[inline(never)]
pub fn not_of(
    alloc: Global,
    env: &Env,
    at: Place,
    wanted: Con,
    found: &Con,
) -> Result<ElabFault, AllocError> {
    let wanted = on_heap(alloc, wanted)?;
    boxed_not_of(alloc, env, at, wanted, found)
}

/// A wanted type that isn't of a form, which stands as what is found.
#[inline(never)]
pub fn not_wanted(
    alloc: Global,
    env: &Env,
    at: Place,
    wanted: &Con,
    found: Con,
) -> Result<ElabFault, AllocError> {
    let found = on_heap(alloc, found)?;
    boxed_not_wanted(alloc, env, at, wanted, found)
}

/// What stands for the parts of a function's type that nothing tells.
pub fn any_function(alloc: Global) -> Result<Con, AllocError> {
    arrow(alloc, Con::UnitCon, Con::UnitCon)
}

/// What stands for a type of a function of a constructor.
pub fn any_poly(alloc: Global) -> Result<Con, AllocError> {
    poly(alloc, false, Kind::Types, Con::UnitCon)
}

/// A row without fields, on the heap.
fn boxed_empty(alloc: Global) -> Result<Box<Con>, AllocError> {
    on_heap(alloc, empty_row(alloc, Kind::Units)?)
}

/// What stands for a type of a function of a guard's proof.
pub fn any_guarded(alloc: Global) -> Result<Con, AllocError> {
    let left = boxed_empty(alloc)?;
    let right = boxed_empty(alloc)?;
    let body = on_heap(alloc, Con::UnitCon)?;
    Ok(Con::Guarded(left, right, body))
}

/// What stands for the type of a record.
pub fn any_record(alloc: Global) -> Result<Con, AllocError> {
    let row = no_types(alloc)?;
    record(alloc, row)
}

/// A record type of these fields.
pub fn record_of_pairs(alloc: Global, pairs: Pairs) -> Result<Con, AllocError> {
    record(alloc, Con::Row(on_heap(alloc, Kind::Types)?, pairs))
}

/// A name with its modules, as it is written.
fn path_text(alloc: Global, path: &Path) -> Result<Text, AllocError> {
    let mut text = Text::new(alloc);
    for i in 0..path.modules.items.len() {
        text.push_str(path.modules.items[i].as_str())?;
        text.push('.')?;
    }
    text.push_str(path.name.as_str())?;
    Ok(text)
}

/// A name that isn't in scope.
pub fn unbound(alloc: Global, at: Place, path: &Path) -> Result<ElabFault, AllocError> {
    Ok(ElabFault::Unbound(at, path_text(alloc, path)?))
}

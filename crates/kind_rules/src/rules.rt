//! The rules of kinding, from what is found for the parts of a constructor.

ghost use Rattle.std.specs.Prelude.{◌≡◌, ◌++◌, ◌∷◌, [], map, IfOk};
ghost use Rattle.con_terms.specs.Trees.{kind_list, row_of, to, tuple_of, types};
ghost use Rattle.con_terms.specs.View.{con_tree, kind_tree, kinds_from, kinds_tree, pairs_tree};
ghost use Rattle.kind_rules.specs.Rules.{app_kind, applied_kind, arrow_kind, cat_kind, component_kind, expects_row as row_expected, field_flaw as flaw_of_field, fields_flaw as flaw_of_fields, guard_rows, guard_sides, lambda_kind, map_kind, outside_of as found_outside_of, proj_kind, record_kind, row_flaw as flaw_of_row, row_kind, same_rows, tuple_kind, type_kind, unless as found_unless, unlike};
ghost use Rattle.kind_rules.specs.View.{found, kind_trees, maybe_flaw, pair_trees, scope_view, sides_tree, two_trees};

use crate::compare::{Sides, flaw_among, flaw_between, normal_sides};
use crate::flaw::{Flaw, Two, both, closed_by, compared, expects, mismatch, unless};
use crate::scope::Scope;
use con_terms::{Con, Kind, Kinds, Pairs, copy_kind};
use std::alloc::{AllocError, Global};

/// `{k}`
fn rows_of(alloc: Global, k: Kind) -> Result<Kind, AllocError>
    ensures { IfOk result (λ new. kind_tree new ≡ row_of (kind_tree k)) }
{
    Ok(Kind::Row(Box::new(alloc, k)?))
}

/// `k -> l`
fn function(alloc: Global, k: Kind, l: Kind) -> Result<Kind, AllocError>
    ensures { IfOk result (λ new. kind_tree new ≡ to (kind_tree k) (kind_tree l)) }
{
    let from = Box::new(alloc, k)?;
    let to = Box::new(alloc, l)?;
    Ok(Kind::Arrow(from, to))
}

/// The kind of a row, whichever it is.
fn expects_row(alloc: Global, kind: Kind) -> Result<Result<Kind, Flaw>, AllocError>
    ensures { IfOk result (λ r. found kind_tree r ≡ row_expected (kind_tree kind)) }
{
    match kind {
        Kind::Row(k) => Ok(Ok(Kind::Row(k))),
        other => {
            let wanted = rows_of(alloc, Kind::Types)?;
            Ok(Err(mismatch(alloc, wanted, other)?))
        }
    }
}

/// What is found under a binder of this kind, whose flaw is told outside of it.
pub fn outside_of(
    alloc: Global,
    k: &Kind,
    body: Result<Kind, Flaw>,
) -> Result<Result<Kind, Flaw>, AllocError>
    ensures { IfOk result (λ r. found kind_tree r ≡ found_outside_of (kind_tree k.now) (found kind_tree body)) }
{
    match body {
        Ok(kind) => Ok(Ok(kind)),
        Err(flaw) => Ok(Err(closed_by(alloc, k, flaw)?)),
    }
}

/// A body that is a type.
pub fn of_body(alloc: Global, body: Result<Kind, Flaw>) -> Result<Result<Kind, Flaw>, AllocError>
    ensures { IfOk result (λ r. found kind_tree r ≡ type_kind (found kind_tree body)) }
{
    match body {
        Err(flaw) => Ok(Err(flaw)),
        Ok(kind) => expects(alloc, &Kind::Types, kind),
    }
}

/// `a -> b`
pub fn of_arrow(alloc: Global, sides: Result<Two, Flaw>) -> Result<Result<Kind, Flaw>, AllocError>
    ensures { IfOk result (λ r. found kind_tree r ≡ arrow_kind (found two_trees sides)) }
{
    match sides {
        Err(flaw) => Ok(Err(flaw)),
        Ok(two) => {
            let Two { first, second } = two;
            match compared(alloc, &Kind::Types, &first)? {
                Some(flaw) => Ok(Err(flaw)),
                None => expects(alloc, &Kind::Types, second),
            }
        }
    }
}

/// The kinds of the two sides of a guard.
fn two_rows(alloc: Global, sides: Result<Two, Flaw>) -> Result<Result<Two, Flaw>, AllocError>
    ensures { IfOk result (λ r. found two_trees r ≡ guard_rows (found two_trees sides)) }
{
    match sides {
        Err(flaw) => Ok(Err(flaw)),
        Ok(two) => {
            let Two { first, second } = two;
            let left = expects_row(alloc, first)?;
            let right = expects_row(alloc, second)?;
            Ok(both(left, right))
        }
    }
}

/// The two sides of a guard, in normal form.
pub fn of_guard(
    alloc: Global,
    a: &Con,
    b: &Con,
    sides: Result<Two, Flaw>,
) -> Result<Result<Sides, Flaw>, AllocError>
    ensures { IfOk result
        (λ r. found sides_tree r ≡ guard_sides (con_tree a.now) (con_tree b.now) (found two_trees sides)) }
{
    match two_rows(alloc, sides)? {
        Err(flaw) => Ok(Err(flaw)),
        Ok(kinds) => normal_sides(alloc, a, &kinds.first, b, &kinds.second),
    }
}

/// `$a`
pub fn of_record(alloc: Global, row: Result<Kind, Flaw>) -> Result<Result<Kind, Flaw>, AllocError>
    ensures { IfOk result (λ r. found kind_tree r ≡ record_kind (found kind_tree row)) }
{
    match row {
        Err(flaw) => Ok(Err(flaw)),
        Ok(kind) => {
            let flaw = compared(alloc, &rows_of(alloc, Kind::Types)?, &kind)?;
            Ok(unless(flaw, Kind::Types))
        }
    }
}

/// The kind of a function's result, where the argument has this kind.
fn of_applied(alloc: Global, f: Kind, argument: Kind) -> Result<Result<Kind, Flaw>, AllocError>
    ensures { IfOk result (λ r. found kind_tree r ≡ applied_kind (kind_tree f) (kind_tree argument)) }
{
    match f {
        Kind::Arrow(from, to) => {
            let flaw = compared(alloc, &from, &argument)?;
            Ok(unless(flaw, Box::into_inner(to)))
        }
        other => {
            let wanted = function(alloc, argument, Kind::Types)?;
            Ok(Err(mismatch(alloc, wanted, other)?))
        }
    }
}

/// `f a`
pub fn of_app(alloc: Global, parts: Result<Two, Flaw>) -> Result<Result<Kind, Flaw>, AllocError>
    ensures { IfOk result (λ r. found kind_tree r ≡ app_kind (found two_trees parts)) }
{
    match parts {
        Err(flaw) => Ok(Err(flaw)),
        Ok(two) => {
            let Two { first, second } = two;
            of_applied(alloc, first, second)
        }
    }
}

/// `fn x :: k => b`
pub fn of_lambda(
    alloc: Global,
    k: &Kind,
    body: Result<Kind, Flaw>,
) -> Result<Result<Kind, Flaw>, AllocError>
    ensures { IfOk result (λ r. found kind_tree r ≡ lambda_kind (kind_tree k.now) (found kind_tree body)) }
{
    match body {
        Err(flaw) => Ok(Err(flaw)),
        Ok(kind) => Ok(Ok(function(alloc, copy_kind(alloc, k)?, kind)?)),
    }
}

/// The kind of both sides of `++`.
fn one_row(alloc: Global, sides: Result<Two, Flaw>) -> Result<Result<Kind, Flaw>, AllocError>
    ensures { IfOk result (λ r. found kind_tree r ≡ same_rows (found two_trees sides)) }
{
    match sides {
        Err(flaw) => Ok(Err(flaw)),
        Ok(two) => {
            let Two { first, second } = two;
            match expects_row(alloc, first)? {
                Err(flaw) => Ok(Err(flaw)),
                Ok(row) => expects(alloc, &row, second),
            }
        }
    }
}

/// `a ++ b`
pub fn of_cat(
    alloc: Global,
    s: &Scope,
    a: &Con,
    b: &Con,
    sides: Result<Two, Flaw>,
) -> Result<Result<Kind, Flaw>, AllocError>
    ensures { IfOk result
        (λ r. found kind_tree r
        ≡ cat_kind (scope_view s.now).guards (con_tree a.now) (con_tree b.now) (found two_trees sides)) }
{
    match one_row(alloc, sides)? {
        Err(flaw) => Ok(Err(flaw)),
        Ok(kind) => {
            let guards = s.guards()?;
            let flaw = flaw_between(alloc, &guards, a, b, &kind)?;
            Ok(unless(flaw, kind))
        }
    }
}

/// What is wrong with one field of a literal of this kind.
fn flaw_in_field(alloc: Global, k: &Kind, field: &Two) -> Result<Option<Flaw>, AllocError>
    ensures { IfOk result (λ o. maybe_flaw o ≡ flaw_of_field (kind_tree k.now) (two_trees field.now)) }
{
    match compared(alloc, &Kind::Names, &field.first)? {
        Some(flaw) => Ok(Some(flaw)),
        None => compared(alloc, k, &field.second),
    }
}

/// What is wrong with the first such field.
fn flaw_in_fields(alloc: Global, k: &Kind, fields: &Vec<Two>) -> Result<Option<Flaw>, AllocError>
    ensures { IfOk result (λ o. maybe_flaw o ≡ flaw_of_fields (kind_tree k.now) (pair_trees fields.now)) }
{
    for i in 0..fields.len() {
        match flaw_in_field(alloc, k, &fields[i])? {
            Some(flaw) => return Ok(Some(flaw)),
            None => {}
        }
    }
    Ok(None)
}

/// What is wrong with a literal, of which this is found for the fields.
fn flaw_in_row(
    alloc: Global,
    s: &Scope,
    k: &Kind,
    ps: &Pairs,
    fields: &Vec<Two>,
) -> Result<Option<Flaw>, AllocError>
    ensures { IfOk result
        (λ o. maybe_flaw o
        ≡ flaw_of_row (scope_view s.now).guards (kind_tree k.now) (pairs_tree ps.now) (pair_trees fields.now)) }
{
    match flaw_in_fields(alloc, k, fields)? {
        Some(flaw) => Ok(Some(flaw)),
        None => flaw_among(alloc, s, ps),
    }
}

/// `[n = v, ..]`
pub fn of_row(
    alloc: Global,
    s: &Scope,
    k: &Kind,
    ps: &Pairs,
    fields: Result<Vec<Two>, Flaw>,
) -> Result<Result<Kind, Flaw>, AllocError>
    ensures { IfOk result
        (λ r. found kind_tree r
        ≡ row_kind (scope_view s.now).guards (kind_tree k.now) (pairs_tree ps.now) (found pair_trees fields)) }
{
    match fields {
        Err(flaw) => Ok(Err(flaw)),
        Ok(fields) => {
            let flaw = flaw_in_row(alloc, s, k, ps, &fields)?;
            let kind = copy_kind(alloc, k)?;
            Ok(unless(flaw, rows_of(alloc, kind)?))
        }
    }
}

/// `map` from `k` to `l`
pub fn of_map(alloc: Global, k: &Kind, l: &Kind) -> Result<Result<Kind, Flaw>, AllocError>
    ensures { IfOk result (λ r. found kind_tree r ≡ map_kind (kind_tree k.now) (kind_tree l.now)) }
{
    let of_each = function(alloc, copy_kind(alloc, k)?, copy_kind(alloc, l)?)?;
    let from = rows_of(alloc, copy_kind(alloc, k)?)?;
    let to = rows_of(alloc, copy_kind(alloc, l)?)?;
    let of_rows = function(alloc, from, to)?;
    Ok(Ok(function(alloc, of_each, of_rows)?))
}

/// `(c, ..)`
pub fn of_tuple(kinds: Result<Vec<Kind>, Flaw>) -> Result<Kind, Flaw>
    ensures { found kind_tree result ≡ tuple_kind (found kind_trees kinds) }
{
    Ok(Kind::Tuple(Kinds { items: kinds? }))
}

/// The tuple with one more component, of kind `Type`.
fn longer(alloc: Global, ks: &Kinds) -> Result<Kind, AllocError>
    ensures { IfOk result (λ new. kind_tree new ≡ tuple_of (kinds_from (kind_list (kinds_tree ks.now) ++ types ∷ []))) }
{
    let mut items = Vec::new(alloc);
    for i in 0..ks.items.len() {
        items.push(copy_kind(alloc, &ks.items[i])?)?;
    }
    items.push(Kind::Types)?;
    Ok(Kind::Tuple(Kinds { items }))
}

/// The kind of a component of a tuple.
fn component_of(alloc: Global, ks: Kinds, number: u32) -> Result<Result<Kind, Flaw>, AllocError>
    ensures { IfOk result (λ r. found kind_tree r ≡ component_kind number (tuple_of (kinds_tree ks))) }
{
    let index = number as usize;
    if index < ks.len() {
        Ok(Ok(copy_kind(alloc, ks.at(index))?))
    } else {
        let wanted = longer(alloc, &ks)?;
        Ok(Err(mismatch(alloc, wanted, Kind::Tuple(ks))?))
    }
}

/// The component with this number, the first having 0.
pub fn of_proj(
    alloc: Global,
    tuple: Result<Kind, Flaw>,
    number: u32,
) -> Result<Result<Kind, Flaw>, AllocError>
    ensures { IfOk result (λ r. found kind_tree r ≡ proj_kind number (found kind_tree tuple)) }
{
    match tuple {
        Err(flaw) => Ok(Err(flaw)),
        Ok(Kind::Tuple(ks)) => component_of(alloc, ks, number),
        Ok(other) => {
            let wanted = longer(alloc, &Kinds::new(alloc))?;
            Ok(Err(mismatch(alloc, wanted, other)?))
        }
    }
}

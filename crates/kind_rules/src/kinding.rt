//! Kinds of constructors.

ghost use Rattle.std.specs.Prelude.{◌≡◌, IfErr, IfOk};
ghost use Rattle.con_terms.specs.Kinded.{Kinded, assume as assumed, bind as bound};
ghost use Rattle.con_terms.specs.Trees.{Kd, app, arrow, cat, guarded, lambda, row};
ghost use Rattle.con_terms.specs.View.{con_tree, cons_tree, kind_tree, pairs_tree};
ghost use Rattle.kind_rules.specs.Causes.{HasCause};
ghost use Rattle.kind_rules.specs.Faults.{Gives, KeepsTwoKinds, TellsComparison};
ghost use Rattle.kind_rules.specs.Kinding.{judged, judged_at, kinding, kinding_all, kinding_fields};
ghost use Rattle.kind_rules.specs.Rules.{both as found_both, outside_of as found_outside_of, proj_kind, record_kind, tuple_kind, type_kind};
ghost use Rattle.kind_rules.specs.View.{found, kind_trees, pair_trees, scope_view, sides_tree, two_trees};

use crate::compare::Sides;
use crate::fault::{KindFault, fault_at};
use crate::flaw::{Flaw, Two, both, expects};
use crate::rules::{
    of_app, of_arrow, of_body, of_cat, of_guard, of_lambda, of_map, of_proj, of_record, of_row,
    of_tuple, outside_of,
};
use crate::scope::{Scope, kind_of_basic, kind_of_variable};
use con_terms::{Con, Cons, Kind, Pairs, Place, fits};
use row_normal::DEPTH;
use std::alloc::{AllocError, Global};

/// The kind of a constructor that stands at a place, or why it has none.
///
/// All that is told stands at this place. A flaw of a part comes before one of the whole, and that of an earlier part
/// before that of a later one. Two pieces that touch under binders of the constructor are told closed by these. A
/// constructor that is deeper than 2,000 is TooLarge before all else; so is one of which a comparison takes 100,000
/// units or more, both sides together.
pub fn kind_of(alloc: Global, s: &Scope, c: &Con, at: Place) -> Result<Kind, KindFault>
    ensures kinded { IfOk result (λ k. Kinded (scope_view s.now) (con_tree c.now) (kind_tree k)) }
    ensures exact { Gives at result (judged (scope_view s.now) (con_tree c.now)) }
    ensures two_kinds { IfErr result KeepsTwoKinds }
    ensures pieces_or_size_only_with_a_cause { IfErr result (HasCause (scope_view s.now) (con_tree c.now)) }
    ensures unbound_or_mismatch_only_where_unkinded { (k : Kd) → Kinded (scope_view s.now) (con_tree c.now) k
        → IfErr result TellsComparison }
{
    match judge(alloc, s, c)? {
        Ok(kind) => Ok(kind),
        Err(flaw) => Err(fault_at(flaw, at)),
    }
}

/// The kind of a constructor, which is to be this one, or what is wrong with it, wherever it stands. That another kind
/// is found comes after each flaw of the constructor.
pub fn judge_at(
    alloc: Global,
    s: &Scope,
    c: &Con,
    wanted: &Kind,
) -> Result<Result<Kind, Flaw>, AllocError>
    ensures { IfOk result
        (λ r. found kind_tree r ≡ judged_at (scope_view s.now) (con_tree c.now) (kind_tree wanted.now)) }
{
    match judge(alloc, s, c)? {
        Err(flaw) => Ok(Err(flaw)),
        Ok(kind) => expects(alloc, wanted, kind),
    }
}

/// The kind of a constructor, or what is wrong with it, wherever it stands.
pub fn judge(alloc: Global, s: &Scope, c: &Con) -> Result<Result<Kind, Flaw>, AllocError>
    ensures { IfOk result (λ r. found kind_tree r ≡ judged (scope_view s.now) (con_tree c.now)) }
{
    if fits(c, DEPTH) {
        find(alloc, s, c)
    } else {
        Ok(Err(Flaw::TooLarge))
    }
}

/// Finds the kind of a constructor of any form. Each form has a function of its own, so that little of the stack is
/// taken for each level.
#[cycle(find)]
fn find(alloc: Global, s: &Scope, c: &Con) -> Result<Result<Kind, Flaw>, AllocError>
    ensures { IfOk result (λ r. found kind_tree r ≡ kinding (scope_view s.now) (con_tree c.now)) }
{
    match c {
        Con::Var(number) => kind_of_variable(alloc, s, *number),
        Con::Basic(name) => kind_of_basic(alloc, s, *name),
        Con::Arrow(a, b) => find_arrow(alloc, s, a, b),
        Con::Poly(_, k, b) => find_poly(alloc, s, k, b),
        Con::Guarded(a, b, body) => find_guarded(alloc, s, a, b, body),
        Con::Record(a) => find_record(alloc, s, a),
        Con::App(f, a) => find_app(alloc, s, f, a),
        Con::Lambda(k, b) => find_lambda(alloc, s, k, b),
        Con::UnitCon => Ok(Ok(Kind::Units)),
        Con::Name(_) => Ok(Ok(Kind::Names)),
        Con::Row(k, ps) => find_row(alloc, s, k, ps),
        Con::Cat(a, b) => find_cat(alloc, s, a, b),
        Con::Map(k, l) => of_map(alloc, k, l),
        Con::Tuple(cs) => find_tuple(alloc, s, cs),
        Con::Proj(a, number) => find_proj(alloc, s, a, *number),
    }
}

/// Finds the kinds of two constructors; a flaw of the first comes before one of the second.
#[cycle(find)]
fn find_both(alloc: Global, s: &Scope, a: &Con, b: &Con) -> Result<Result<Two, Flaw>, AllocError>
    ensures { IfOk result
        (λ r. found two_trees r
        ≡ found_both (kinding (scope_view s.now) (con_tree a.now)) (kinding (scope_view s.now) (con_tree b.now))) }
{
    let first = find(alloc, s, a)?;
    let second = find(alloc, s, b)?;
    Ok(both(first, second))
}

/// Finds the kind of a constructor under one more binder, of this kind. A flaw of it is told outside of the binder.
#[cycle(find)]
fn find_under(alloc: Global, s: &Scope, k: &Kind, b: &Con) -> Result<Result<Kind, Flaw>, AllocError>
    ensures { IfOk result
        (λ r. found kind_tree r
        ≡ found_outside_of (kind_tree k.now) (kinding (bound (kind_tree k.now) (scope_view s.now)) (con_tree b.now))) }
{
    let inner = s.bind(k)?;
    let body = find(alloc, &inner, b)?;
    outside_of(alloc, k, body)
}

/// Finds the kind of a type of functions, `a -> b`.
#[cycle(find)]
fn find_arrow(alloc: Global, s: &Scope, a: &Con, b: &Con) -> Result<Result<Kind, Flaw>, AllocError>
    ensures { IfOk result
        (λ r. found kind_tree r ≡ kinding (scope_view s.now) (arrow (con_tree a.now) (con_tree b.now))) }
{
    let sides = find_both(alloc, s, a, b)?;
    of_arrow(alloc, sides)
}

/// Finds the kind of a type of functions of a constructor, `x :: k -> b`.
#[cycle(find)]
fn find_poly(alloc: Global, s: &Scope, k: &Kind, b: &Con) -> Result<Result<Kind, Flaw>, AllocError>
    ensures { IfOk result
        (λ r. found kind_tree r
        ≡ type_kind (found_outside_of (kind_tree k.now)
        (kinding (bound (kind_tree k.now) (scope_view s.now)) (con_tree b.now)))) }
{
    let body = find_under(alloc, s, k, b)?;
    of_body(alloc, body)
}

/// Finds the kind of a guarded type, `[a ~ b] => body`.
#[cycle(find)]
fn find_guarded(
    alloc: Global,
    s: &Scope,
    a: &Con,
    b: &Con,
    body: &Con,
) -> Result<Result<Kind, Flaw>, AllocError>
    ensures { IfOk result
        (λ r. found kind_tree r
        ≡ kinding (scope_view s.now) (guarded (con_tree a.now) (con_tree b.now) (con_tree body.now))) }
{
    let sides = find_both(alloc, s, a, b)?;
    match of_guard(alloc, a, b, sides)? {
        Err(flaw) => Ok(Err(flaw)),
        Ok(guard) => find_assuming(alloc, s, &guard, body),
    }
}

/// Finds the kind of a guarded type whose sides are rows with these normal forms.
#[cycle(find)]
fn find_assuming(
    alloc: Global,
    s: &Scope,
    guard: &Sides,
    body: &Con,
) -> Result<Result<Kind, Flaw>, AllocError>
    ensures { let sides = sides_tree guard.now in
        IfOk result
        (λ r. found kind_tree r
        ≡ type_kind (kinding (assumed sides.0 sides.1 (scope_view s.now)) (con_tree body.now))) }
{
    let inner = s.assume(&guard.left, &guard.right)?;
    let body = find(alloc, &inner, body)?;
    of_body(alloc, body)
}

/// Finds the kind of a type of records, `$a`.
#[cycle(find)]
fn find_record(alloc: Global, s: &Scope, a: &Con) -> Result<Result<Kind, Flaw>, AllocError>
    ensures { IfOk result (λ r. found kind_tree r ≡ record_kind (kinding (scope_view s.now) (con_tree a.now))) }
{
    let row = find(alloc, s, a)?;
    of_record(alloc, row)
}

/// Finds the kind of an application, `f a`.
#[cycle(find)]
fn find_app(alloc: Global, s: &Scope, f: &Con, a: &Con) -> Result<Result<Kind, Flaw>, AllocError>
    ensures { IfOk result
        (λ r. found kind_tree r ≡ kinding (scope_view s.now) (app (con_tree f.now) (con_tree a.now))) }
{
    let parts = find_both(alloc, s, f, a)?;
    of_app(alloc, parts)
}

/// Finds the kind of a function, `fn x :: k => b`.
#[cycle(find)]
fn find_lambda(
    alloc: Global,
    s: &Scope,
    k: &Kind,
    b: &Con,
) -> Result<Result<Kind, Flaw>, AllocError>
    ensures { IfOk result
        (λ r. found kind_tree r ≡ kinding (scope_view s.now) (lambda (kind_tree k.now) (con_tree b.now))) }
{
    let body = find_under(alloc, s, k, b)?;
    of_lambda(alloc, k, body)
}

/// Finds the kind of a row literal, `[n = c, ..]`.
#[cycle(find)]
fn find_row(
    alloc: Global,
    s: &Scope,
    k: &Kind,
    ps: &Pairs,
) -> Result<Result<Kind, Flaw>, AllocError>
    ensures { IfOk result
        (λ r. found kind_tree r ≡ kinding (scope_view s.now) (row (kind_tree k.now) (pairs_tree ps.now))) }
{
    let fields = find_fields(alloc, s, ps)?;
    of_row(alloc, s, k, ps, fields)
}

/// Finds the kind of two rows put together, `a ++ b`.
#[cycle(find)]
fn find_cat(alloc: Global, s: &Scope, a: &Con, b: &Con) -> Result<Result<Kind, Flaw>, AllocError>
    ensures { IfOk result
        (λ r. found kind_tree r ≡ kinding (scope_view s.now) (cat (con_tree a.now) (con_tree b.now))) }
{
    let sides = find_both(alloc, s, a, b)?;
    of_cat(alloc, s, a, b, sides)
}

/// Finds the kind of a tuple, `(c, ..)`.
#[cycle(find)]
fn find_tuple(alloc: Global, s: &Scope, cs: &Cons) -> Result<Result<Kind, Flaw>, AllocError>
    ensures { IfOk result (λ r. found kind_tree r ≡ tuple_kind (kinding_all (scope_view s.now) (cons_tree cs.now))) }
{
    Ok(of_tuple(find_all(alloc, s, cs)?))
}

/// Finds the kind of a component of a tuple, `a.1`.
#[cycle(find)]
fn find_proj(
    alloc: Global,
    s: &Scope,
    a: &Con,
    number: u32,
) -> Result<Result<Kind, Flaw>, AllocError>
    ensures { IfOk result (λ r. found kind_tree r ≡ proj_kind number (kinding (scope_view s.now) (con_tree a.now))) }
{
    let tuple = find(alloc, s, a)?;
    of_proj(alloc, tuple, number)
}

/// Finds the kinds of constructors in order, or the first flaw of them.
#[cycle(find)]
fn find_all(alloc: Global, s: &Scope, cs: &Cons) -> Result<Result<Vec<Kind>, Flaw>, AllocError>
    ensures { IfOk result (λ r. found kind_trees r ≡ kinding_all (scope_view s.now) (cons_tree cs.now)) }
{
    let mut kinds = Vec::new(alloc);
    for i in 0..cs.items.len() {
        match find(alloc, s, &cs.items[i])? {
            Ok(kind) => kinds.push(kind)?,
            Err(flaw) => return Ok(Err(flaw)),
        }
    }
    Ok(Ok(kinds))
}

/// Finds the kinds of the name and the value of each field in order, or the first flaw of them.
#[cycle(find)]
fn find_fields(alloc: Global, s: &Scope, ps: &Pairs) -> Result<Result<Vec<Two>, Flaw>, AllocError>
    ensures { IfOk result (λ r. found pair_trees r ≡ kinding_fields (scope_view s.now) (pairs_tree ps.now)) }
{
    let mut fields = Vec::new(alloc);
    for i in 0..ps.items.len() {
        match find_both(alloc, s, &ps.items[i].name, &ps.items[i].value)? {
            Ok(field) => fields.push(field)?,
            Err(flaw) => return Ok(Err(flaw)),
        }
    }
    Ok(Ok(fields))
}

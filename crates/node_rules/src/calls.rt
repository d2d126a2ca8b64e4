//! Calls, item by item.
ghost use Rattle.std.specs.Prelude.{◌≡◌, IfOk, Some};
ghost use Rattle.con_terms.specs.View.{con_tree, kind_tree};
ghost use Rattle.core_terms.specs.View.{maybe_con};
ghost use Rattle.core_typing.specs.Faults.{mismatch as mismatch_at};
ghost use Rattle.core_typing.specs.Own.{any_function, any_guarded, any_poly, is_implicit as implied};
ghost use Rattle.judgements.specs.View.{judged_tree, sc_view};
ghost use Rattle.kind_rules.specs.View.{found};
ghost use Rattle.node_rules.specs.Calls as computed;
ghost use Rattle.node_rules.specs.View.{fit_tree, past_tree};
ghost use Rattle.told_faults.specs.Computed.{function_parts, guarded_parts, poly_parts};
ghost use Rattle.type_faults.specs.View.{maybe_fault};

use con_terms::{Con, Kind, Place};
use core_terms::ConOrigin;
use judgements::{
    Globals, Here, Judged, flaw_at, has_kind, into_normal, meets, other_form, put, wants,
};
use kind_rules::Flaw;
use std::alloc::{AllocError, Global};
use type_faults::{Fault, first};
use type_makers::{arrow, empty_row, guarded, poly};

/// The type behind some items; or none, and what is told of the items. Contracts see it as `fit_tree`.
#[derive(Drop)]
pub enum Fit {
    On(Con),
    Off(Option<Fault>),
}

/// What is behind some items, and what is told of the terms up to there. Contracts see it as `past_tree`.
#[derive(Drop)]
pub struct Past {
    pub fit: Fit,
    pub kids: Option<Fault>,
}

/// Where the items begin.
fn fit_of(t: Option<Con>) -> Fit
    ensures { fit_tree result ≡ computed.fit_of (maybe_con t) }
{
    match t {
        None => Fit::Off(None),
        Some(t) => Fit::On(t),
    }
}

/// Before the items, from what is found for the function.
pub fn starts(j: Judged) -> Past
    ensures { past_tree result ≡ computed.starts (judged_tree j) }
{
    let Judged { ty, told } = j;
    Past {
        fit: fit_of(ty),
        kids: told,
    }
}

/// The type behind an item, unless a fault is told of it.
fn fits_unless(t: Con, own: Option<Fault>) -> Fit
    ensures { fit_tree result ≡ computed.fits_unless (con_tree t) (maybe_fault own) }
{
    match own {
        None => Fit::On(t),
        Some(f) => Fit::Off(Some(f)),
    }
}

/// What is told where a function is wanted.
fn no_function(alloc: Global, g: &Globals, s: &Here, p: Place, n: Con) -> Result<Fit, AllocError>
    ensures { IfOk result
        (λ r. fit_tree r
        ≡ computed.stuck (Some (mismatch_at p (sc_view g.now s.now).called any_function (con_tree n)))) }
{
    let wanted = arrow(alloc, Con::UnitCon, Con::UnitCon)?;
    Ok(Fit::Off(Some(other_form(alloc, g, s, p, wanted, n)?)))
}

/// Behind a term for a parameter of type `u`, where what is behind has type `d`.
fn past_argument(
    alloc: Global,
    g: &Globals,
    s: &Here,
    q: Place,
    u: &Con,
    d: Con,
    c: Option<Con>,
) -> Result<Fit, AllocError>
    ensures { IfOk result
        (λ r. fit_tree r
        ≡ computed.past_argument (sc_view g.now s.now) q (con_tree u.now) (con_tree d) (maybe_con c)) }
{
    match c {
        None => Ok(Fit::Off(None)),
        Some(c) => Ok(fits_unless(d, wants(alloc, g, s, q, u, &c)?)),
    }
}

/// Behind a term, where the function's type has this normal form.
fn past_function(
    alloc: Global,
    g: &Globals,
    s: &Here,
    p: Place,
    q: Place,
    n: Con,
    c: Option<Con>,
) -> Result<Fit, AllocError>
    ensures { IfOk result
        (λ r. fit_tree r ≡ computed.past_function
        (sc_view g.now s.now)
        p
        q
        (con_tree n)
        (function_parts (con_tree n))
        (maybe_con c)) }
{
    match n {
        Con::Arrow(u, d) => past_argument(alloc, g, s, q, &u, Box::into_inner(d), c),
        n => no_function(alloc, g, s, p, n),
    }
}

/// Behind a term of this type, which stands at `q`; the function stands at `p`.
fn past_term(
    alloc: Global,
    g: &Globals,
    s: &Here,
    p: Place,
    q: Place,
    c: Option<Con>,
    fit: Fit,
) -> Result<Fit, AllocError>
    ensures { IfOk result
        (λ r. fit_tree r ≡ computed.past_term (sc_view g.now s.now) p q (maybe_con c) (fit_tree fit)) }
{
    match fit {
        Fit::Off(f) => Ok(Fit::Off(f)),
        Fit::On(t) => match into_normal(alloc, t)? {
            None => Ok(Fit::Off(Some(Fault::TooLarge(p)))),
            Some(n) => past_function(alloc, g, s, p, q, n, c),
        },
    }
}

/// What is told where a function of a constructor is wanted.
fn no_poly(
    alloc: Global,
    g: &Globals,
    s: &Here,
    p: Place,
    implicit: bool,
    n: Con,
) -> Result<Fit, AllocError>
    ensures { IfOk result
        (λ r. fit_tree r
        ≡ computed.stuck (Some (mismatch_at p (sc_view g.now s.now).called (any_poly implicit) (con_tree n)))) }
{
    let wanted = poly(alloc, implicit, Kind::Types, Con::UnitCon)?;
    Ok(Fit::Off(Some(other_form(alloc, g, s, p, wanted, n)?)))
}

/// Behind a constructor, from its kind.
fn past_kind(
    alloc: Global,
    g: &Globals,
    s: &Here,
    q: Place,
    d: &Con,
    c: &Con,
    k: Result<Kind, Flaw>,
) -> Result<Fit, AllocError>
    ensures { IfOk result
        (λ r. fit_tree r
        ≡ computed.past_kind (sc_view g.now s.now) q (con_tree d.now) (con_tree c.now) (found kind_tree k)) }
{
    match k {
        Err(flaw) => Ok(Fit::Off(Some(flaw_at(alloc, g, s, q, flaw)?))),
        Ok(_) => Ok(Fit::On(put(alloc, d, c)?)),
    }
}

/// Whether a constructor stands for an implicit parameter: an inserted one does.
fn is_implicit(o: ConOrigin) -> bool
    ensures { result ≡ implied o }
{
    match o {
        ConOrigin::Written => false,
        ConOrigin::Wild => false,
        ConOrigin::Inserted => true,
    }
}

/// Behind a constructor, where the function's type has this normal form.
fn past_body(
    alloc: Global,
    g: &Globals,
    s: &Here,
    p: Place,
    q: Place,
    o: ConOrigin,
    c: &Con,
    n: Con,
) -> Result<Fit, AllocError>
    ensures { IfOk result
        (λ r. fit_tree r ≡ computed.past_body
        (sc_view g.now s.now)
        p
        q
        o
        (con_tree c.now)
        (con_tree n)
        (poly_parts (con_tree n))) }
{
    match n {
        Con::Poly(_, k, d) => {
            let kind = has_kind(alloc, s, c, &k)?;
            past_kind(alloc, g, s, q, &d, c, kind)
        }
        n => no_poly(alloc, g, s, p, is_implicit(o), n),
    }
}

/// Behind a constructor, which stands at `q`.
fn past_con(
    alloc: Global,
    g: &Globals,
    s: &Here,
    p: Place,
    q: Place,
    o: ConOrigin,
    c: &Con,
    fit: Fit,
) -> Result<Fit, AllocError>
    ensures { IfOk result
        (λ r. fit_tree r ≡ computed.past_con (sc_view g.now s.now) p q o (con_tree c.now) (fit_tree fit)) }
{
    match fit {
        Fit::Off(f) => Ok(Fit::Off(f)),
        Fit::On(t) => match into_normal(alloc, t)? {
            None => Ok(Fit::Off(Some(Fault::TooLarge(p)))),
            Some(n) => past_body(alloc, g, s, p, q, o, c, n),
        },
    }
}

/// What is told where a function of a guard's proof is wanted.
fn no_guard(alloc: Global, g: &Globals, s: &Here, p: Place, n: Con) -> Result<Fit, AllocError>
    ensures { IfOk result
        (λ r. fit_tree r
        ≡ computed.stuck (Some (mismatch_at p (sc_view g.now s.now).called any_guarded (con_tree n)))) }
{
    let left = empty_row(alloc, Kind::Units)?;
    let right = empty_row(alloc, Kind::Units)?;
    let wanted = guarded(alloc, left, right, Con::UnitCon)?;
    Ok(Fit::Off(Some(other_form(alloc, g, s, p, wanted, n)?)))
}

/// Behind a guard's proof, where the function's type has this normal form.
fn past_sides(
    alloc: Global,
    g: &Globals,
    s: &Here,
    p: Place,
    q: Place,
    n: Con,
) -> Result<Fit, AllocError>
    ensures { IfOk result
        (λ r. fit_tree r
        ≡ computed.past_sides (sc_view g.now s.now) p q (con_tree n) (guarded_parts (con_tree n))) }
{
    match n {
        Con::Guarded(c, d, b) => {
            let own = meets(alloc, g, s, q, &c, &d)?;
            Ok(fits_unless(Box::into_inner(b), own))
        }
        n => no_guard(alloc, g, s, p, n),
    }
}

/// Behind a guard's proof, which stands at `q`.
fn past_guard(
    alloc: Global,
    g: &Globals,
    s: &Here,
    p: Place,
    q: Place,
    fit: Fit,
) -> Result<Fit, AllocError>
    ensures { IfOk result
        (λ r. fit_tree r ≡ computed.past_guard (sc_view g.now s.now) p q (fit_tree fit)) }
{
    match fit {
        Fit::Off(f) => Ok(Fit::Off(f)),
        Fit::On(t) => match into_normal(alloc, t)? {
            None => Ok(Fit::Off(Some(Fault::TooLarge(p)))),
            Some(n) => past_sides(alloc, g, s, p, q, n),
        },
    }
}

/// Behind one more term, which stands at `q`; the function stands at `p`.
pub fn with_term_item(
    alloc: Global,
    g: &Globals,
    s: &Here,
    p: Place,
    q: Place,
    j: Judged,
    past: Past,
) -> Result<Past, AllocError>
    ensures { IfOk result
        (λ r. past_tree r
        ≡ computed.with_term_item (sc_view g.now s.now) p q (judged_tree j) (past_tree past)) }
{
    let Judged { ty, told } = j;
    let Past { fit, kids } = past;
    Ok(Past {
        fit: past_term(alloc, g, s, p, q, ty, fit)?,
        kids: first(kids, told),
    })
}

/// Behind one more constructor, which stands at `q`.
pub fn with_con_item(
    alloc: Global,
    g: &Globals,
    s: &Here,
    p: Place,
    q: Place,
    o: ConOrigin,
    c: &Con,
    past: Past,
) -> Result<Past, AllocError>
    ensures { IfOk result
        (λ r. past_tree r
        ≡ computed.with_con_item (sc_view g.now s.now) p q o (con_tree c.now) (past_tree past)) }
{
    let Past { fit, kids } = past;
    Ok(Past {
        fit: past_con(alloc, g, s, p, q, o, c, fit)?,
        kids,
    })
}

/// Behind one more guard's proof, which stands at `q`.
pub fn with_guard_item(
    alloc: Global,
    g: &Globals,
    s: &Here,
    p: Place,
    q: Place,
    past: Past,
) -> Result<Past, AllocError>
    ensures { IfOk result
        (λ r. past_tree r ≡ computed.with_guard_item (sc_view g.now s.now) p q (past_tree past)) }
{
    let Past { fit, kids } = past;
    Ok(Past {
        fit: past_guard(alloc, g, s, p, q, fit)?,
        kids,
    })
}

/// A call, from what is behind its items.
pub fn of_call(past: Past) -> Judged
    ensures { judged_tree result ≡ computed.of_call (past_tree past) }
{
    let Past { fit, kids } = past;
    match fit {
        Fit::On(t) => Judged {
            ty: Some(t),
            told: kids,
        },
        Fit::Off(own) => Judged {
            ty: None,
            told: first(kids, own),
        },
    }
}

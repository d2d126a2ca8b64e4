//! Functions, and terms with their types.
ghost use Rattle.std.specs.Prelude.{◌≡◌, IfOk, option_map};
ghost use Rattle.con_terms.specs.Trees.{arrow as arrow_in, poly as poly_in};
ghost use Rattle.con_terms.specs.View.{con_tree, kind_tree};
ghost use Rattle.core_terms.specs.View.{maybe_con};
ghost use Rattle.judgements.specs.View.{judged_tree, sc_view};
ghost use Rattle.kind_rules.specs.View.{found};
ghost use Rattle.node_rules.specs.Functions as computed;
ghost use Rattle.type_faults.specs.View.{maybe_fault};

use con_terms::{Con, Kind, Place};
use judgements::{Globals, Here, Judged, copied, copied_kind, flaw_at, wants};
use kind_rules::Flaw;
use std::alloc::{AllocError, Global};
use type_faults::{Fault, first};
use type_makers::{arrow, poly};

/// A function's type, where its body has one.
fn arrow_to(alloc: Global, t: &Con, u: Option<Con>) -> Result<Option<Con>, AllocError>
    ensures { IfOk result (λ o. maybe_con o ≡ option_map (arrow_in (con_tree t.now)) (maybe_con u)) }
{
    match u {
        None => Ok(None),
        Some(u) => Ok(Some(arrow(alloc, copied(alloc, t)?, u)?)),
    }
}

/// `fn p => e`, from what is found for its body and what cover tells.
pub fn of_body(
    alloc: Global,
    t: &Con,
    own: Option<Fault>,
    body: Judged,
) -> Result<Judged, AllocError>
    ensures { IfOk result
        (λ r. judged_tree r ≡ computed.of_body (con_tree t.now) (maybe_fault own) (judged_tree body)) }
{
    let Judged { ty, told } = body;
    Ok(Judged {
        ty: arrow_to(alloc, t, ty)?,
        told: first(told, own),
    })
}

/// The type of a function of a constructor, where its body has one.
fn poly_of(
    alloc: Global,
    implicit: bool,
    k: &Kind,
    u: Option<Con>,
) -> Result<Option<Con>, AllocError>
    ensures { IfOk result (λ o. maybe_con o ≡ option_map (poly_in implicit (kind_tree k.now)) (maybe_con u)) }
{
    match u {
        None => Ok(None),
        Some(u) => Ok(Some(poly(alloc, implicit, copied_kind(alloc, k)?, u)?)),
    }
}

/// `fn [x :: k] => e`, from what is found for its body.
pub fn of_fn_con(
    alloc: Global,
    implicit: bool,
    k: &Kind,
    body: Judged,
) -> Result<Judged, AllocError>
    ensures { IfOk result
        (λ r. judged_tree r ≡ computed.of_fn_con implicit (kind_tree k.now) (judged_tree body)) }
{
    let Judged { ty, told } = body;
    Ok(Judged {
        ty: poly_of(alloc, implicit, k, ty)?,
        told,
    })
}

/// The written type, unless a fault is told.
fn unless_told(alloc: Global, t: &Con, own: &Option<Fault>) -> Result<Option<Con>, AllocError>
    ensures { IfOk result (λ o. maybe_con o ≡ computed.unless_told (con_tree t.now) (maybe_fault own.now)) }
{
    match own {
        None => Ok(Some(copied(alloc, t)?)),
        Some(_) => Ok(None),
    }
}

/// `(e : t)`, where `q` is the place of the term.
pub fn of_ascribed(
    alloc: Global,
    g: &Globals,
    s: &Here,
    p: Place,
    q: Place,
    t: &Con,
    k: Result<Kind, Flaw>,
    j: Judged,
) -> Result<Judged, AllocError>
    ensures { IfOk result
        (λ r. judged_tree r ≡ computed.of_ascribed
        (sc_view g.now s.now)
        p
        q
        (con_tree t.now)
        (found kind_tree k)
        (judged_tree j)) }
{
    let Judged { ty, told } = j;
    match k {
        Err(flaw) => Ok(Judged {
            ty: None,
            told: first(told, Some(flaw_at(alloc, g, s, p, flaw)?)),
        }),
        Ok(_) => match ty {
            None => Ok(Judged {
                ty: None,
                told: first(told, None),
            }),
            Some(u) => {
                let own = wants(alloc, g, s, q, t, &u)?;
                let ty = unless_told(alloc, t, &own)?;
                Ok(Judged {
                    ty,
                    told: first(told, own),
                })
            }
        },
    }
}

//! The declarations of a `let`, one after another.
ghost use Rattle.std.specs.Prelude.{◌≡◌, IfOk};
ghost use Rattle.con_terms.specs.View.{con_tree, kind_tree};
ghost use Rattle.core_terms.specs.View.{maybe_con};
ghost use Rattle.judgements.specs.View.{judged_tree, sc_view};
ghost use Rattle.kind_rules.specs.View.{found};
ghost use Rattle.node_rules.specs.Locals as computed;
ghost use Rattle.node_rules.specs.View.{found_tree};
ghost use Rattle.type_faults.specs.View.{maybe_fault};

use con_terms::{Con, Kind, Place};
use judgements::{Globals, Here, Judged, flaw_at, has_kind, wants};
use kind_rules::Flaw;
use std::alloc::{AllocError, Global};
use type_faults::{Fault, first};

/// Whether all declarations so far are found, what is told of their terms, and what is told of themselves. Contracts
/// see it as `found_tree`.
#[derive(Drop)]
pub struct Found {
    pub found: bool,
    pub kids: Option<Fault>,
    pub own: Option<Fault>,
}

/// Before the first declaration.
pub fn none_yet() -> Found
    ensures { found_tree result ≡ computed.none_yet }
{
    Found {
        found: true,
        kids: None,
        own: None,
    }
}

/// Whether nothing is told.
fn is_silent(own: &Option<Fault>) -> bool
    ensures { result ≡ computed.is_silent (maybe_fault own.now) }
{
    match own {
        None => true,
        Some(_) => false,
    }
}

/// A declaration of a type, from its kind: where its type and its term stand, and what is found for the term.
fn of_declared(
    alloc: Global,
    g: &Globals,
    s: &Here,
    p: Place,
    q: Place,
    t: &Con,
    k: Result<Kind, Flaw>,
    j: Judged,
) -> Result<Found, AllocError>
    ensures { IfOk result
        (λ r. found_tree r
        ≡ computed.of_declared (sc_view g.now s.now) p q (con_tree t.now) (found kind_tree k) (judged_tree j)) }
{
    let Judged { ty, told } = j;
    match k {
        Err(flaw) => Ok(Found {
            found: false,
            kids: told,
            own: Some(flaw_at(alloc, g, s, p, flaw)?),
        }),
        Ok(_) => match ty {
            None => Ok(Found {
                found: false,
                kids: told,
                own: None,
            }),
            Some(u) => {
                let own = wants(alloc, g, s, q, t, &u)?;
                Ok(Found {
                    found: is_silent(&own),
                    kids: told,
                    own,
                })
            }
        },
    }
}

/// What is found behind what was found before.
pub fn and_then_found(before: Found, next: Found) -> Found
    ensures { found_tree result ≡ computed.and_then_found (found_tree before) (found_tree next) }
{
    Found {
        found: before.found && next.found,
        kids: first(before.kids, next.kids),
        own: first(before.own, next.own),
    }
}

/// One more declaration: where its type and its term stand, its type, and what is found for the term.
pub fn with_declared(
    alloc: Global,
    g: &Globals,
    s: &Here,
    p: Place,
    q: Place,
    t: &Con,
    j: Judged,
    past: Found,
) -> Result<Found, AllocError>
    ensures { IfOk result
        (λ r. found_tree r
        ≡ computed.with_declared (sc_view g.now s.now) p q (con_tree t.now) (judged_tree j) (found_tree past)) }
{
    let k = has_kind(alloc, s, t, &Kind::Types)?;
    let next = of_declared(alloc, g, s, p, q, t, k, j)?;
    Ok(and_then_found(past, next))
}

/// A type, where all declarations are found.
fn if_found(is_found: bool, o: Option<Con>) -> Option<Con>
    ensures { maybe_con result ≡ computed.if_found is_found (maybe_con o) }
{
    if is_found { o } else { None }
}

/// `let d in e end`, from what is found for the declarations and for the body.
pub fn of_let(declared: Found, body: Judged) -> Judged
    ensures { judged_tree result ≡ computed.of_let (found_tree declared) (judged_tree body) }
{
    let Judged { ty, told } = body;
    let Found {
        found: is_found,
        kids,
        own,
    } = declared;
    Judged {
        ty: if_found(is_found, ty),
        told: first(first(kids, told), own),
    }
}

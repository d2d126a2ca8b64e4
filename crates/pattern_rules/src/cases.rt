//! What is found for a case, from what is found for its branches.
ghost use Rattle.std.specs.Prelude.{◌≡◌, ◌∷◌, IfOk, List};
ghost use Rattle.con_terms.specs.View.{con_tree};
ghost use Rattle.core_terms.specs.Trees.{Pt};
ghost use Rattle.core_terms.specs.View.{branches_tree, maybe_con, pat_tree};
ghost use Rattle.core_typing.specs.Faults.{inexhaustive};
ghost use Rattle.core_typing.specs.Typed.{branch_patterns};
ghost use Rattle.judgements.specs.View.{judged_tree, sc_view};
ghost use Rattle.match_cover.specs.Laws.{Asks};
ghost use Rattle.match_cover.specs.View.{rows_view};
ghost use Rattle.pattern_rules.specs.Matching as computed;
ghost use Rattle.pattern_rules.specs.View.{branch_tree, cases_tree};
ghost use Rattle.type_faults.specs.View.{fault_tree, maybe_fault, shape_tree};

use con_terms::{Con, Place};
use core_terms::{Branches, Pat};
use judgements::{Globals, Here, Judged, names_called, wants};
use match_cover::{Asked, CoverFault, covers_asked};
use std::alloc::{AllocError, Global};
use type_faults::{Fault, Shape, first};

/// A branch: its pattern is at fault, or this is found for its body.
#[derive(Drop)]
pub enum Branch {
    Bad(Fault),
    Found(Judged),
}

/// The branches so far: the type of the first, whether the later ones are found to have it, whether all patterns are
/// found, what is told of the bodies, and what is told of the case itself. Contracts see them as `cases_tree`.
#[derive(Drop)]
pub struct Cases {
    pub ty: Option<Con>,
    pub alike: bool,
    pub bound: bool,
    pub kids: Option<Fault>,
    pub own: Option<Fault>,
}

/// The first branch.
pub fn first_case(b: Branch) -> Cases
    ensures { cases_tree result ≡ computed.first_case (branch_tree b) }
{
    match b {
        Branch::Bad(f) => Cases {
            ty: None,
            alike: true,
            bound: false,
            kids: None,
            own: Some(f),
        },
        Branch::Found(j) => {
            let Judged { ty, told } = j;
            Cases {
                ty,
                alike: true,
                bound: true,
                kids: told,
                own: None,
            }
        }
    }
}

/// What a later branch's type tells, beside that of the first.
fn differs(
    alloc: Global,
    g: &Globals,
    s: &Here,
    q: Place,
    wanted: &Option<Con>,
    found: &Option<Con>,
) -> Result<Option<Fault>, AllocError>
    ensures { IfOk result (λ o. maybe_fault o ≡
        computed.differs (sc_view g.now s.now) q (maybe_con wanted.now) (maybe_con found.now)) }
{
    match wanted {
        None => Ok(None),
        Some(u) => match found {
            None => Ok(None),
            Some(v) => wants(alloc, g, s, q, u, v),
        },
    }
}

/// Whether all have the type of the first, where a later branch is behind others: both have a type, and nothing is
/// told.
fn stays_alike(alike: bool, wanted: &Option<Con>, found: &Option<Con>, told: &Option<Fault>) -> bool
    ensures { result ≡
        computed.stays_alike alike (maybe_con wanted.now) (maybe_con found.now) (maybe_fault told.now) }
{
    match wanted {
        None => false,
        Some(_) => match found {
            None => false,
            Some(_) => match told {
                None => alike,
                Some(_) => false,
            },
        },
    }
}

/// One more branch, whose body stands at `q`.
pub fn with_case(
    alloc: Global,
    g: &Globals,
    s: &Here,
    q: Place,
    b: Branch,
    past: Cases,
) -> Result<Cases, AllocError>
    ensures { IfOk result (λ c. cases_tree c ≡
        computed.with_case (sc_view g.now s.now) q (branch_tree b) (cases_tree past)) }
{
    let Cases {
        ty,
        alike,
        bound,
        kids,
        own,
    } = past;
    match b {
        Branch::Bad(f) => Ok(Cases {
            ty,
            alike: false,
            bound: false,
            kids,
            own: first(own, Some(f)),
        }),
        Branch::Found(j) => {
            let other = differs(alloc, g, s, q, &ty, &j.ty)?;
            let alike = stays_alike(alike, &ty, &j.ty, &other);
            let Judged { ty: _, told } = j;
            Ok(Cases {
                ty,
                alike,
                bound,
                kids: first(kids, told),
                own: first(own, other),
            })
        }
    }
}

/// A type, where all branches have it.
fn if_true(holds: bool, o: Option<Con>) -> Option<Con>
    ensures { maybe_con result ≡ computed.if_true holds (maybe_con o) }
{
    if holds { o } else { None }
}

/// `case e of ..`: what is told of `e`, what is found for the branches, and what cover tells, where all patterns are
/// found.
pub fn of_case(matched: Option<Fault>, cases: Cases, told: Option<Fault>) -> Judged
    ensures { judged_tree result ≡ computed.of_case (maybe_fault matched) (cases_tree cases) (maybe_fault told) }
{
    let Cases {
        ty,
        alike,
        bound: _,
        kids,
        own,
    } = cases;
    Judged {
        ty: if_true(alike, ty),
        told: first(first(matched, kids), first(own, told)),
    }
}

/// The pattern of a first branch, or of a parameter, and those of further branches.
pub fn asked_of(alloc: Global, p: &Pat, more: &Branches) -> Result<Asked, AllocError>
    ensures { IfOk result
        (λ a. Asks (pat_tree p.now ∷ branch_patterns (branches_tree more.now)) (rows_view a.rows) a.depth) }
{
    let mut asked = Asked::new(alloc);
    asked.add(alloc, p)?;
    for i in 0..more.items.len() {
        asked.add(alloc, &more.items[i].pat)?;
    }
    Ok(asked)
}

/// A shape that no pattern takes, as the fault of a place.
fn missed_at(
    alloc: Global,
    g: &Globals,
    s: &Here,
    p: Place,
    shape: Shape,
) -> Result<Fault, AllocError>
    ensures { IfOk result
        (λ f. fault_tree f ≡ inexhaustive p (sc_view g.now s.now).called (shape_tree shape)) }
{
    let called = names_called(alloc, &s.called)?;
    Ok(Fault::Inexhaustive(p, called, Box::new(alloc, shape)?))
}

/// What keeps patterns from covering a type, at a place.
pub fn uncovered(
    alloc: Global,
    g: &Globals,
    s: &Here,
    p: Place,
    asked: &Asked,
    t: &Con,
) -> Result<Option<Fault>, AllocError>
    ensures exact { (ps : List Pt) → Asks ps (rows_view asked.now.rows) asked.now.depth → IfOk result
        (λ o. maybe_fault o ≡ computed.uncovered (sc_view g.now s.now) p ps (con_tree t.now)) }
    ensures cause { (ps : List Pt) → Asks ps (rows_view asked.now.rows) asked.now.depth → IfOk result
        (λ o. computed.Uncovered (sc_view g.now s.now) p ps (con_tree t.now) (maybe_fault o)) }
{
    match covers_asked(alloc, &g.datatypes, asked, t) {
        Ok(()) => Ok(None),
        Err(CoverFault::TooLarge) => Ok(Some(Fault::TooLarge(p))),
        Err(CoverFault::Missed(shape)) => Ok(Some(missed_at(alloc, g, s, p, shape)?)),
        Err(CoverFault::Memory) => Err(AllocError),
    }
}

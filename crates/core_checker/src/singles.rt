//! What is found for functions, for ascriptions and for cases, from what is found for the terms in them.
ghost use Rattle.std.specs.Prelude.{◌≡◌, ◌∷◌, IfOk};
ghost use Rattle.con_terms.specs.Trees.{types};
ghost use Rattle.con_terms.specs.View.{con_tree};
ghost use Rattle.core_terms.specs.Lists.{branch_tree as branch_parts};
ghost use Rattle.core_terms.specs.View.{branches_tree, pat_tree};
ghost use Rattle.core_typing.specs.Typed.{branch_patterns};
ghost use Rattle.judged_terms.specs.Judge.{Missed, OfFunction, OfParameter};
ghost use Rattle.judgements.specs.View.{judged_tree, sc_view};
ghost use Rattle.kind_rules.specs.Kinding.{judged_at};
ghost use Rattle.kind_rules.specs.View.{scope_view};
ghost use Rattle.node_rules.specs.Functions.{of_ascribed as ascribed_in};
ghost use Rattle.pattern_rules.specs.View.{branch_tree};
ghost use Rattle.type_faults.specs.View.{maybe_fault};

use crate::places::branch_pattern;
use con_terms::{Con, Kind, Place};
use core_terms::{Branch, Branches, Pat};
use judgements::{Globals, Here, Judged, faulty, has_kind};
use match_cover::Asked;
use node_rules::{of_ascribed, of_body};
use pattern_rules::{Branch as Judgement, asked_of, uncovered};
use std::alloc::{AllocError, Global};
use type_faults::Fault;

/// `fn p => e`, from what is found for the body.
fn of_function(
    alloc: Global,
    g: &Globals,
    s: &Here,
    p: Place,
    q: &Pat,
    t: &Con,
    body: Judged,
) -> Result<Judged, AllocError>
    ensures { IfOk result
        (λ r. OfFunction
        (sc_view g.now s.now)
        p
        (pat_tree q.now)
        (con_tree t.now)
        (judged_tree body)
        (judged_tree r)) }
{
    let mut asked = Asked::new(alloc);
    asked.add(alloc, q)?;
    let own = uncovered(alloc, g, s, p, &asked, t)?;
    of_body(alloc, t, own, body)
}

/// `fn p => e`, from what is found for the body under the pattern.
pub fn of_parameter(
    alloc: Global,
    g: &Globals,
    s: &Here,
    p: Place,
    q: &Pat,
    t: &Con,
    body: Judgement,
) -> Result<Judged, AllocError>
    ensures { IfOk result
        (λ r. OfParameter
        (sc_view g.now s.now)
        p
        (pat_tree q.now)
        (con_tree t.now)
        (branch_tree body)
        (judged_tree r)) }
{
    match body {
        Judgement::Bad(f) => Ok(faulty(f)),
        Judgement::Found(found) => of_function(alloc, g, s, p, q, t, found),
    }
}

/// `(e : t)`, from where `e` stands and what is found for it.
pub fn of_typed(
    alloc: Global,
    g: &Globals,
    s: &Here,
    p: Place,
    q: Place,
    t: &Con,
    found: Judged,
) -> Result<Judged, AllocError>
    ensures { IfOk result
        (λ r. judged_tree r ≡ ascribed_in
        (sc_view g.now s.now)
        p
        q
        (con_tree t.now)
        (judged_at (scope_view s.now.kinds.value) (con_tree t.now) types)
        (judged_tree found)) }
{
    let k = has_kind(alloc, s, t, &Kind::Types)?;
    of_ascribed(alloc, g, s, p, q, t, k, found)
}

/// What keeps the branches of a `case` from taking each value of a type. Nothing is told of it where a pattern isn't
/// one of that type.
pub fn shape_missed(
    alloc: Global,
    g: &Globals,
    s: &Here,
    p: Place,
    is_bound: bool,
    b: &Branch,
    bs: &Branches,
    t: &Con,
) -> Result<Option<Fault>, AllocError>
    ensures { IfOk result
        (λ o. Missed
        (sc_view g.now s.now)
        p
        is_bound
        ((branch_parts b.now).1 ∷ branch_patterns (branches_tree bs.now))
        (con_tree t.now)
        (maybe_fault o)) }
{
    if !is_bound {
        return Ok(None);
    }
    let asked = asked_of(alloc, branch_pattern(b), bs)?;
    uncovered(alloc, g, s, p, &asked, t)
}

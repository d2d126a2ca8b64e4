//! The scopes that terms open: under patterns, under guards, and behind the declarations of a `let`.
ghost use Rattle.std.specs.Prelude.{◌≡◌, ◌∷◌, [], IfOk};
ghost use Rattle.con_terms.specs.View.{con_tree};
ghost use Rattle.core_checker.specs.Parts.{inner_tree};
ghost use Rattle.core_terms.specs.View.{named_list_tree, named_tree, pat_tree};
ghost use Rattle.core_typing.specs.Scopes.{under};
ghost use Rattle.core_typing.specs.Typed.{named_types};
ghost use Rattle.judged_terms.specs.Listed.{name_found, named_found};
ghost use Rattle.judged_terms.specs.Openings.{guard_scope, pattern_scope};
ghost use Rattle.judgements.specs.View.{judged_tree, sc_view};
ghost use Rattle.markup_rules.specs.View.{judgements_view};
ghost use Rattle.node_rules.specs.Locals.{none_yet as none_found};
ghost use Rattle.node_rules.specs.View.{found_tree};

use crate::lists::{with_named, with_names};
use crate::places::named_con;
use con_terms::{Con, Place};
use core_terms::{MOST_NESTED, Named, NamedList, Pat};
use judgements::{
    Bound, Globals, Here, Judged, copied, flaw_at, under_guard, with_local, with_locals,
};
use markup_rules::Judgements;
use node_rules::{Found, guard_sides, none_yet};
use pattern_rules::binding;
use std::alloc::{AllocError, Global};
use type_faults::Fault;

/// A scope that a term opens, or what is told of that which opens it. Contracts see it as `inner_tree`.
#[derive(Drop)]
pub enum Inner {
    Under(Here),
    Bad(Fault),
}

/// The scope under a pattern of a type.
pub fn under_pattern(
    alloc: Global,
    g: &Globals,
    s: &Here,
    q: &Pat,
    t: &Con,
) -> Result<Inner, AllocError>
    ensures { IfOk result
        (λ r. inner_tree g.now r ≡ pattern_scope (sc_view g.now s.now) (pat_tree q.now) (con_tree t.now)) }
{
    match binding(alloc, g, s, q, t, &s.locals, MOST_NESTED)? {
        Bound::Bad(f) => Ok(Inner::Bad(f)),
        Bound::Under(locals) => Ok(Inner::Under(with_locals(s, locals)?)),
    }
}

/// The scope in which two rows are apart.
pub fn under_sides(
    alloc: Global,
    g: &Globals,
    s: &Here,
    p: Place,
    c: &Con,
    d: &Con,
) -> Result<Inner, AllocError>
    ensures { IfOk result
        (λ r. inner_tree g.now r ≡ guard_scope (sc_view g.now s.now) p (con_tree c.now) (con_tree d.now)) }
{
    match guard_sides(alloc, s, c, d)? {
        Err(flaw) => Ok(Inner::Bad(flaw_at(alloc, g, s, p, flaw)?)),
        Ok(sides) => Ok(Inner::Under(under_guard(alloc, s, &sides.left, &sides.right)?)),
    }
}

/// The scope under the names that are declared together.
#[tactic(auto, using(crate::proofs::Listed::types_step, crate::proofs::Listed::types_start, crate::proofs::Listed::types_end))]
pub fn under_names(alloc: Global, s: &Here, ns: &NamedList) -> Result<Here, AllocError>
    ensures { IfOk result
        (λ r. (g : _) → sc_view g r ≡ under (named_types (named_list_tree ns.now)) (sc_view g s.now)) }
{
    let mut locals = s.locals.clone()?;
    for i in 0..ns.len() {
        locals = with_local(alloc, copied(alloc, named_con(ns.at(i)))?, &locals)?;
    }
    with_locals(s, locals)
}

/// What is behind some declarations of a `let`: the scope, and what is found for them.
#[derive(Drop)]
pub struct Behind {
    pub here: Here,
    pub past: Found,
}

/// Before the first declaration of a `let`.
pub fn before_all(s: &Here) -> Result<Behind, AllocError>
    ensures here { IfOk result (λ r. (g : _) → sc_view g r.here ≡ sc_view g s.now) }
    ensures past { IfOk result (λ r. found_tree r.past ≡ none_found) }
{
    Ok(Behind {
        here: with_locals(s, s.locals.clone()?)?,
        past: none_yet(),
    })
}

/// Behind one more name, from what is found for its term.
pub fn behind_value(
    alloc: Global,
    g: &Globals,
    before: Behind,
    n: &Named,
    found: Judged,
) -> Result<Behind, AllocError>
    ensures here { IfOk result
        (λ r. sc_view g.now r.here ≡ under ((named_tree n.now).3 ∷ []) (sc_view g.now before.here)) }
    ensures past { IfOk result
        (λ r. found_tree r.past ≡ name_found
        (sc_view g.now before.here)
        (named_tree n.now)
        (judged_tree found)
        (found_tree before.past)) }
{
    let Behind { here, past } = before;
    let past = with_named(alloc, g, &here, n, found, past)?;
    let locals = with_local(alloc, copied(alloc, named_con(n))?, &here.locals)?;
    Ok(Behind {
        here: with_locals(&here, locals)?,
        past,
    })
}

/// Behind names that are declared together, from their scope and from what is found for their terms.
pub fn behind_values(
    alloc: Global,
    g: &Globals,
    before: Behind,
    inner: Here,
    ns: &NamedList,
    found: Judgements,
) -> Result<Behind, AllocError>
    ensures here { IfOk result (λ r. sc_view g.now r.here ≡ sc_view g.now inner) }
    ensures past { IfOk result
        (λ r. found_tree r.past ≡ named_found
        (sc_view g.now before.here)
        (named_list_tree ns.now)
        (judgements_view found)
        (found_tree before.past)) }
{
    let Behind { here, past } = before;
    let past = with_names(alloc, g, &here, ns, found, past)?;
    Ok(Behind { here: inner, past })
}

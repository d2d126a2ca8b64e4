//! Kinds of what terms have written, and how their flaws are told.
ghost use Rattle.std.specs.Prelude.{◌≡◌, IfOk};
ghost use Rattle.con_terms.specs.View.{con_tree, kind_tree};
ghost use Rattle.core_typing.specs.Judged.{flaw_at as flaw_told};
ghost use Rattle.judgements.specs.View.{sc_view};
ghost use Rattle.kind_rules.specs.Kinding.{judged_at};
ghost use Rattle.kind_rules.specs.View.{flaw_tree, found, scope_view};
ghost use Rattle.told_faults.specs.Computed.{flawed as flawed_in};
ghost use Rattle.type_faults.specs.View.{fault_tree, maybe_fault};

use crate::called::names_called;
use crate::globals::Globals;
use crate::scope::Here;
use con_terms::{Con, Kind, Place};
use kind_rules::{Flaw, judge_at};
use std::alloc::{AllocError, Global};
use type_faults::{Fault, flaw_fault};

/// The kind of a constructor, which is to be this one, or its flaw.
pub fn has_kind(
    alloc: Global,
    s: &Here,
    c: &Con,
    k: &Kind,
) -> Result<Result<Kind, Flaw>, AllocError>
    ensures { IfOk result
        (λ r. found kind_tree r ≡ judged_at (scope_view s.now.kinds.value) (con_tree c.now) (kind_tree k.now)) }
{
    judge_at(alloc, &s.kinds, c, k)
}

/// A flaw as the fault of a place in a scope.
pub fn flaw_at(
    alloc: Global,
    g: &Globals,
    s: &Here,
    p: Place,
    flaw: Flaw,
) -> Result<Fault, AllocError>
    ensures { IfOk result (λ f. fault_tree f ≡ flaw_told p (sc_view g.now s.now).called (flaw_tree flaw)) }
{
    Ok(flaw_fault(p, names_called(alloc, &s.called)?, flaw))
}

/// What keeps a constructor from having a kind.
pub fn kind_flaw(
    alloc: Global,
    g: &Globals,
    s: &Here,
    p: Place,
    c: &Con,
    k: &Kind,
) -> Result<Option<Fault>, AllocError>
    ensures { IfOk result
        (λ o. maybe_fault o ≡ flawed_in
        (sc_view g.now s.now)
        p
        (judged_at (scope_view s.now.kinds.value) (con_tree c.now) (kind_tree k.now))) }
{
    match has_kind(alloc, s, c, k)? {
        Ok(_) => Ok(None),
        Err(flaw) => Ok(Some(flaw_at(alloc, g, s, p, flaw)?)),
    }
}

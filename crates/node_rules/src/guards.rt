//! Functions of guards' proofs.
ghost use Rattle.std.specs.Prelude.{◌≡◌, IfOk, option_map};
ghost use Rattle.con_terms.specs.Trees.{guarded as guarded_in};
ghost use Rattle.con_terms.specs.View.{con_tree, kind_tree};
ghost use Rattle.core_terms.specs.View.{maybe_con};
ghost use Rattle.core_typing.specs.Judged.{guard_forms};
ghost use Rattle.judgements.specs.View.{judged_tree};
ghost use Rattle.kind_rules.specs.Rules.{expects_row, guard_rows};
ghost use Rattle.kind_rules.specs.View.{found, scope_view, sides_tree, two_trees};
ghost use Rattle.node_rules.specs.Functions as computed;

use con_terms::{Con, Kind};
use judgements::{Here, Judged, copied};
use kind_rules::{Differing, Flaw, Sides, Two, both, judge, normal_sides};
use std::alloc::{AllocError, Global};
use type_makers::guarded;

/// A kind, where it is one of rows.
fn row_kind(alloc: Global, k: Kind) -> Result<Result<Kind, Flaw>, AllocError>
    ensures { IfOk result (λ r. found kind_tree r ≡ expects_row (kind_tree k)) }
{
    match k {
        Kind::Row(inner) => Ok(Ok(Kind::Row(inner))),
        k => {
            let wanted = Kind::Row(Box::new(alloc, Kind::Types)?);
            let differing = Differing { wanted, found: k };
            Ok(Err(Flaw::Differ(Box::new(alloc, differing)?)))
        }
    }
}

/// Two kinds, where both are of rows.
fn row_kinds(alloc: Global, sides: Result<Two, Flaw>) -> Result<Result<Two, Flaw>, AllocError>
    ensures { IfOk result (λ r. found two_trees r ≡ guard_rows (found two_trees sides)) }
{
    match sides {
        Err(flaw) => Ok(Err(flaw)),
        Ok(Two { first, second }) => {
            let first = row_kind(alloc, first)?;
            let second = row_kind(alloc, second)?;
            Ok(both(first, second))
        }
    }
}

/// The normal forms of a guard's two sides, which should be rows, or the first flaw.
pub fn guard_sides(
    alloc: Global,
    s: &Here,
    c: &Con,
    d: &Con,
) -> Result<Result<Sides, Flaw>, AllocError>
    ensures { IfOk result
        (λ r. found sides_tree r ≡ guard_forms (scope_view s.now.kinds.value) (con_tree c.now) (con_tree d.now)) }
{
    let left = judge(alloc, &s.kinds, c)?;
    let right = judge(alloc, &s.kinds, d)?;
    match row_kinds(alloc, both(left, right))? {
        Err(flaw) => Ok(Err(flaw)),
        Ok(kinds) => normal_sides(alloc, c, &kinds.first, d, &kinds.second),
    }
}

/// The type of a function of a guard's proof, where its body has one.
fn guarded_of(alloc: Global, c: &Con, d: &Con, u: Option<Con>) -> Result<Option<Con>, AllocError>
    ensures { IfOk result
        (λ o. maybe_con o ≡ option_map (guarded_in (con_tree c.now) (con_tree d.now)) (maybe_con u)) }
{
    match u {
        None => Ok(None),
        Some(u) => {
            let left = copied(alloc, c)?;
            let right = copied(alloc, d)?;
            Ok(Some(guarded(alloc, left, right, u)?))
        }
    }
}

/// `fn [c ~ d] => e`, from what is found for its body.
pub fn of_assuming(alloc: Global, c: &Con, d: &Con, body: Judged) -> Result<Judged, AllocError>
    ensures { IfOk result
        (λ r. judged_tree r ≡ computed.of_assuming (con_tree c.now) (con_tree d.now) (judged_tree body)) }
{
    let Judged { ty, told } = body;
    Ok(Judged {
        ty: guarded_of(alloc, c, d, ty)?,
        told,
    })
}

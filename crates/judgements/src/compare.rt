//! Normal forms of types, and how two types or two rows compare.
ghost use Rattle.std.specs.Prelude.{◌≡◌, ◌<◌, IfOk, IfSome, OnOk};
ghost use Rattle.con_terms.specs.Substitution.{subst as substituted};
ghost use Rattle.con_terms.specs.View.{con_tree, kind_tree};
ghost use Rattle.core_terms.specs.View.{maybe_con};
ghost use Rattle.core_typing.specs.Scopes.{normal_of as normal_in};
ghost use Rattle.judgements.specs.Comparisons.{are_alike, meets as meets_in};
ghost use Rattle.judgements.specs.View.{forms_tree, sc_view};
ghost use Rattle.kind_rules.specs.Compared.{comparison_units, normal_forms};
ghost use Rattle.kind_rules.specs.View.{maybe_form};
ghost use Rattle.row_normal.specs.NormalForm.{nf};
ghost use Rattle.row_normal.specs.Ordered.{ordered};
ghost use Rattle.told_faults.specs.Computed.{differing as differing_in, wants as wanted_in};
ghost use Rattle.type_faults.specs.View.{maybe_fault};

use crate::called::names_called;
use crate::globals::Globals;
use crate::scope::Here;
use crate::settled::{is_one_form, is_own_form};
use con_terms::{Con, Kind, Place, copy_con, copy_kind, has_room, subst};
use kind_rules::{comparison_fuel, flaw_between};
use row_normal::normal::normal;
use row_normal::{Fuel, Normal, NormalFault, same_con};
use std::alloc::{AllocError, Global};
use type_faults::{Fault, flaw_fault, mismatch};

/// Two normal forms.
#[derive(Drop)]
pub struct Forms {
    pub left: Con,
    pub right: Con,
}

/// The normal form within the units that are left; none where it is too large.
fn normal_form(alloc: Global, c: &Con, fuel: &mut Fuel) -> Result<Option<Normal>, AllocError>
    requires { 0 < fuel.old.left }
    ensures form { IfOk result (λ n. maybe_form n fuel.new.left ≡ nf fuel.old.left (con_tree c.now)) }
    ensures some { OnOk result (0 < fuel.new.left) }
{
    match normal(alloc, c, &Kind::Types, fuel) {
        Ok(n) => Ok(Some(n)),
        Err(NormalFault::TooLarge) => Ok(None),
        Err(NormalFault::Memory) => Err(AllocError),
    }
}

/// A copy of a constructor.
pub fn copied(alloc: Global, c: &Con) -> Result<Con, AllocError>
    ensures { IfOk result (λ new. con_tree new ≡ con_tree c.now) }
{
    copy_con(alloc, c)
}

/// A copy of a kind.
pub fn copied_kind(alloc: Global, k: &Kind) -> Result<Kind, AllocError>
    ensures { IfOk result (λ new. kind_tree new ≡ kind_tree k.now) }
{
    copy_kind(alloc, k)
}

/// The body with an argument put for its binder. One without room for that counts as want of memory.
pub fn put(alloc: Global, body: &Con, argument: &Con) -> Result<Con, AllocError>
    ensures { IfOk result (λ new. con_tree new ≡ substituted (con_tree body.now) (con_tree argument.now)) }
{
    if !has_room(body) || !has_room(argument) {
        return Err(AllocError);
    }
    subst(alloc, body, argument)
}

/// The normal form of a type; none where it is too large.
pub fn normal_of(alloc: Global, c: &Con) -> Result<Option<Con>, AllocError>
    ensures exact { IfOk result (λ o. maybe_con o ≡ normal_in (con_tree c.now)) }
    ensures in_order { IfOk result (λ o. IfSome o (λ n. ordered (con_tree n) ≡ con_tree n)) }
{
    let mut fuel = comparison_fuel();
    match normal_form(alloc, c, &mut fuel)? {
        None => Ok(None),
        Some(n) => Ok(Some(n.into_con())),
    }
}

/// The normal form of a type, which is the type where one walk tells so; none where it is too large.
#[tactic(auto, using(crate::proofs::OwnForms::own_form))]
pub fn into_normal(alloc: Global, c: Con) -> Result<Option<Con>, AllocError>
    ensures { IfOk result (λ o. maybe_con o ≡ normal_in (con_tree c)) }
{
    if is_own_form(&c) {
        return Ok(Some(c));
    }
    normal_of(alloc, &c)
}

/// The normal forms of two types, the left one's first, within the units of one comparison.
pub fn both_forms(alloc: Global, a: &Con, b: &Con) -> Result<Option<Forms>, AllocError>
    ensures exact { IfOk result (λ o. forms_tree o ≡ normal_forms comparison_units (con_tree a.now) (con_tree b.now)) }
    ensures left_in_order { IfOk result (λ o. IfSome o (λ f. ordered (con_tree f.left) ≡ con_tree f.left)) }
    ensures right_in_order { IfOk result (λ o. IfSome o (λ f. ordered (con_tree f.right) ≡ con_tree f.right)) }
{
    let mut fuel = comparison_fuel();
    match normal_form(alloc, a, &mut fuel)? {
        None => Ok(None),
        Some(left) => match normal_form(alloc, b, &mut fuel)? {
            None => Ok(None),
            Some(right) => Ok(Some(Forms {
                left: left.into_con(),
                right: right.into_con(),
            })),
        },
    }
}

/// What two types' normal forms tell at a place.
fn differing(
    alloc: Global,
    g: &Globals,
    s: &Here,
    p: Place,
    f: Option<Forms>,
) -> Result<Option<Fault>, AllocError>
    ensures { IfOk result (λ o. maybe_fault o ≡ differing_in (sc_view g.now s.now) p (forms_tree f)) }
{
    match f {
        None => Ok(Some(Fault::TooLarge(p))),
        Some(f) => {
            if same_con(&f.left, &f.right) {
                Ok(None)
            } else {
                let called = names_called(alloc, &s.called)?;
                Ok(Some(mismatch(alloc, p, called, f.left, f.right)?))
            }
        }
    }
}

/// What keeps a found type from being the wanted one. Nothing does where one walk tells that they are one.
#[tactic(auto, using(crate::proofs::OwnForms::wanted_own))]
pub fn wants(
    alloc: Global,
    g: &Globals,
    s: &Here,
    p: Place,
    wanted: &Con,
    found: &Con,
) -> Result<Option<Fault>, AllocError>
    ensures { IfOk result
        (λ o. maybe_fault o ≡ wanted_in (sc_view g.now s.now) p (con_tree wanted.now) (con_tree found.now)) }
{
    if is_one_form(wanted, found) {
        return Ok(None);
    }
    let f = both_forms(alloc, wanted, found)?;
    differing(alloc, g, s, p, f)
}

/// Whether the normal forms of two types are one.
#[tactic(auto, using(crate::proofs::OwnForms::alike_own))]
pub fn is_alike(alloc: Global, a: &Con, b: &Con) -> Result<bool, AllocError>
    ensures { IfOk result (λ r. r ≡ are_alike (con_tree a.now) (con_tree b.now)) }
{
    if is_one_form(a, b) {
        return Ok(true);
    }
    match both_forms(alloc, a, b)? {
        None => Ok(false),
        Some(f) => Ok(same_con(&f.left, &f.right)),
    }
}

/// What keeps two rows from being apart, where guards of the scope are assumed.
pub fn meets(
    alloc: Global,
    g: &Globals,
    s: &Here,
    p: Place,
    a: &Con,
    b: &Con,
) -> Result<Option<Fault>, AllocError>
    ensures { IfOk result
        (λ o. maybe_fault o ≡ meets_in (sc_view g.now s.now) p (con_tree a.now) (con_tree b.now)) }
{
    let guards = s.kinds.guards()?;
    match flaw_between(alloc, &guards, a, b, &Kind::Types)? {
        None => Ok(None),
        Some(flaw) => Ok(Some(flaw_fault(p, names_called(alloc, &s.called)?, flaw))),
    }
}

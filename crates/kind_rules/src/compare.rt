//! How two constructors compare, and whether two rows are apart, by their normal forms.

ghost use Rattle.std.specs.Prelude.{◌≡◌, ◌<◌, ◌+◌, drop, map, IfOk, IsTrue, None, OnOk};
ghost use Rattle.con_terms.specs.Apart.{Guards as GuardList};
ghost use Rattle.con_terms.specs.Trees.{names_of};
ghost use Rattle.con_terms.specs.View.{con_tree, pair_tree, pairs_from, pairs_tree};
ghost use Rattle.con_terms.specs.declared.con.Pairs.{out-Pairs};
ghost use Rattle.disjoint_prover.specs.View.{guard_list};
ghost use Rattle.kind_rules.specs.Compared.{comparison_units, not_apart, not_apart_from, not_pairwise_apart, normal_forms, touch_flaw};
ghost use Rattle.kind_rules.specs.Comparison.{IsFair, compared, told};
ghost use Rattle.disjoint_prover.specs.Separation.{first_touch};
ghost use Rattle.kind_rules.specs.View.{comparison_tree, found, maybe_flaw, maybe_form, scope_view, sides_tree};
ghost use Rattle.row_normal.specs.NormalForm.{nf};
ghost use Rattle.row_normal.specs.View.{normal_tree};

use crate::flaw::Flaw;
use crate::scope::Scope;
use con_terms::{Con, Kind, Pairs};
use disjoint_prover::{DisjointFault, Guards, disjoint};
use indexmap::IndexSet;
use row_normal::normal::{normal, same};
use row_normal::{Fuel, Normal, NormalFault};
use std::alloc::{AllocError, Global};

/// How many units both sides of one comparison have together.
const UNITS: u32 = 100_000;

/// Both sides of a comparison, in normal form.
#[derive(Drop)]
pub struct Sides {
    pub left: Normal,
    pub right: Normal,
}

/// The units of one comparison.
pub fn comparison_fuel() -> Fuel
    ensures units { result.left ≡ comparison_units }
    ensures some { 0 < result.left }
{
    Fuel { left: UNITS }
}

/// The normal form within the units that are left; none where it is too large.
fn normal_form(
    alloc: Global,
    c: &Con,
    kind: &Kind,
    fuel: &mut Fuel,
) -> Result<Option<Normal>, AllocError>
    requires { 0 < fuel.old.left }
    ensures form { IfOk result (λ n. maybe_form n fuel.new.left ≡ nf fuel.old.left (con_tree c.now)) }
    ensures some { OnOk result (0 < fuel.new.left) }
{
    match normal(alloc, c, kind, fuel) {
        Ok(n) => Ok(Some(n)),
        Err(NormalFault::TooLarge) => Ok(None),
        Err(NormalFault::Memory) => Err(AllocError),
    }
}

/// The normal forms of two rows, the left one first, within the units of one comparison.
pub fn normal_sides(
    alloc: Global,
    left: &Con,
    left_kind: &Kind,
    right: &Con,
    right_kind: &Kind,
) -> Result<Result<Sides, Flaw>, AllocError>
    ensures { IfOk result
        (λ r. found sides_tree r ≡ normal_forms comparison_units (con_tree left.now) (con_tree right.now)) }
{
    let mut fuel = comparison_fuel();
    match normal_form(alloc, left, left_kind, &mut fuel)? {
        None => Ok(Err(Flaw::TooLarge)),
        Some(left) => match normal_form(alloc, right, right_kind, &mut fuel)? {
            None => Ok(Err(Flaw::TooLarge)),
            Some(right) => Ok(Ok(Sides { left, right })),
        },
    }
}

/// How two constructors compare.
#[derive(Drop)]
pub enum Comparison {
    /// They have one normal form.
    Alike,
    /// Their normal forms differ.
    Differing(Box<Sides>),
    /// One of them has no normal form within the units of a comparison, or is too deep.
    TooLarge,
}

/// Compares two constructors of one kind by their normal forms, the left one's first, which have 100,000 units
/// together.
pub fn compare(
    alloc: Global,
    left: &Con,
    right: &Con,
    kind: &Kind,
) -> Result<Comparison, AllocError>
    ensures exact { IfOk result (λ c. comparison_tree c ≡ compared (con_tree left.now) (con_tree right.now)) }
    ensures fair { IfOk result (λ c. IsFair (con_tree left.now) (con_tree right.now) (comparison_tree c)) }
{
    match normal_sides(alloc, left, kind, right, kind)? {
        Err(_) => Ok(Comparison::TooLarge),
        Ok(sides) => told_of(alloc, sides),
    }
}

/// Whether two normal forms are one.
fn told_of(alloc: Global, sides: Sides) -> Result<Comparison, AllocError>
    ensures { IfOk result (λ c. comparison_tree c ≡ told (sides_tree sides)) }
{
    if same(&sides.left, &sides.right) {
        return Ok(Comparison::Alike);
    }
    Ok(Comparison::Differing(Box::new(alloc, sides)?))
}

/// What keeps two normal forms from being apart.
fn touch_in(alloc: Global, g: &Guards, sides: &Sides) -> Result<Option<Flaw>, AllocError>
    ensures { IfOk result
        (λ o. maybe_flaw o
        ≡ touch_flaw (first_touch (guard_list g.now) (normal_tree sides.now.left) (normal_tree sides.now.right))) }
{
    match disjoint(alloc, g, &sides.left, &sides.right) {
        Ok(()) => Ok(None),
        Err(DisjointFault::Touch(pieces)) => Ok(Some(Flaw::Touch(Box::new(alloc, pieces)?))),
        Err(DisjointFault::Memory) => Err(AllocError),
    }
}

/// What keeps two rows of one kind, or two names, from being apart.
pub fn flaw_between(
    alloc: Global,
    g: &Guards,
    left: &Con,
    right: &Con,
    kind: &Kind,
) -> Result<Option<Flaw>, AllocError>
    ensures { IfOk result (λ o. maybe_flaw o ≡ not_apart (guard_list g.now) (con_tree left.now) (con_tree right.now)) }
{
    match normal_sides(alloc, left, kind, right, kind)? {
        Err(flaw) => Ok(Some(flaw)),
        Ok(sides) => touch_in(alloc, g, &sides),
    }
}

/// What keeps two names from being apart. Two literal names that differ need no normal form.
fn flaw_between_names(
    alloc: Global,
    g: &Guards,
    left: &Con,
    right: &Con,
) -> Result<Option<Flaw>, AllocError>
    ensures { IfOk result (λ o. maybe_flaw o ≡ not_apart (guard_list g.now) (con_tree left.now) (con_tree right.now)) }
{
    if are_two_literals(left, right) {
        return Ok(None);
    }
    flaw_between(alloc, g, left, right, &Kind::Names)
}

/// Whether these are two literal names that differ.
fn are_two_literals(left: &Con, right: &Con) -> bool
    ensures { IsTrue result → ((gs : GuardList) → not_apart gs (con_tree left.now) (con_tree right.now) ≡ None) }
{
    match left {
        Con::Name(s) => match right {
            Con::Name(t) => s.number != t.number,
            _ => false,
        },
        _ => false,
    }
}

/// What keeps a name from being apart from those of the fields from `first` on.
fn flaw_after(
    alloc: Global,
    g: &Guards,
    name: &Con,
    ps: &Pairs,
    first: usize,
) -> Result<Option<Flaw>, AllocError>
    ensures { IfOk result
        (λ o. maybe_flaw o
        ≡ not_apart_from
        (guard_list g.now)
        (con_tree name.now)
        (names_of (pairs_from (map pair_tree (drop first (out-Pairs ps.now).items.items))))) }
{
    for i in first..ps.items.len() {
        match flaw_between_names(alloc, g, name, &ps.items[i].name)? {
            Some(flaw) => return Ok(Some(flaw)),
            None => {}
        }
    }
    Ok(None)
}

/// What keeps the names of a row literal from being apart from each other, pair by pair.
fn flaw_in_order(alloc: Global, g: &Guards, ps: &Pairs) -> Result<Option<Flaw>, AllocError>
    ensures { IfOk result (λ o. maybe_flaw o ≡ not_pairwise_apart (guard_list g.now) (names_of (pairs_tree ps.now))) }
{
    for i in 0..ps.items.len() {
        match flaw_after(alloc, g, &ps.items[i].name, ps, i + 1)? {
            Some(flaw) => return Ok(Some(flaw)),
            None => {}
        }
    }
    Ok(None)
}

/// Whether the names of a row literal are literal names of which no two are one.
fn are_different_literals(alloc: Global, ps: &Pairs) -> Result<bool, AllocError>
    ensures { IfOk result
        (λ b. IsTrue b → ((gs : GuardList) → not_pairwise_apart gs (names_of (pairs_tree ps.now)) ≡ None)) }
{
    let mut numbers: IndexSet<u32> = IndexSet::new(alloc);
    for i in 0..ps.items.len() {
        match &ps.items[i].name {
            Con::Name(s) => {
                if !numbers.insert(s.number)? {
                    return Ok(false);
                }
            }
            _ => return Ok(false),
        }
    }
    Ok(true)
}

/// What keeps the names of a row literal from being apart from each other.
pub fn flaw_among(alloc: Global, s: &Scope, ps: &Pairs) -> Result<Option<Flaw>, AllocError>
    ensures { IfOk result
        (λ o. maybe_flaw o ≡ not_pairwise_apart (scope_view s.now).guards (names_of (pairs_tree ps.now))) }
{
    if are_different_literals(alloc, ps)? {
        return Ok(None);
    }
    let guards = s.guards()?;
    flaw_in_order(alloc, &guards, ps)
}

//! The last value that is declared for a class at a type: of variables the innermost, then of top-level values the
//! latest, then those that every program has.
ghost use Rattle.std.specs.Prelude.{◌≡◌, ◌&&◌, true, map, slice_get, IfOk, IsTrue, None, option_and_then};
ghost use Rattle.con_terms.specs.Substitution.{shift as shifted};
ghost use Rattle.con_terms.specs.View.{con_tree};
ghost use Rattle.con_terms.specs.declared.place.Place.{Place};
ghost use Rattle.core_terms.specs.Basis.{basis_type as basis_type_of};
ghost use Rattle.core_terms.specs.Trees.{node, top};
ghost use Rattle.core_terms.specs.View.{form_tree, maybe_con};
ghost use Rattle.core_typing.specs.Scopes.{normal_of as normal_in};
ghost use Rattle.guided_terms.specs.Forms as forms;
ghost use Rattle.guided_terms.specs.Implied as implied;
ghost use Rattle.inserted_terms.specs.Forms.{if_has_form, is_instance_form as is_instance, is_maybe_instance};
ghost use Rattle.inserted_terms.specs.Lacking.{Lacks, no_instance_here};
ghost use Rattle.inserted_terms.specs.Searches as searches;
ghost use Rattle.inserted_terms.specs.Values.{name_of, type_of_value};
ghost use Rattle.inserted_terms.specs.View.{at_view, leaf_form, maybe_leaf};
ghost use Rattle.judgements.specs.View.{locals_view};
ghost use Rattle.source_names.specs.Standing as standing;
ghost use Rattle.source_names.specs.View.{declared_view, names_view, value_view};

use crate::at::At;
use crate::bound::{BINDERS, raised};
use crate::types::head_of;
use crate::values::{BasisValue, TypedValue, is_instance_form};
use con_terms::Con;
use core_terms::{BasisName, Form};
use judgements::{Locals, normal_of};
use row_normal::same_con;
use source_names::{KnownValue, Names, binder_of};
use std::alloc::{AllocError, Global};
use table_rows::Text;

/// A value that is an instance.
#[derive(Clone, Copy, Drop)]
pub enum Leaf {
    Var(u32),
    Top(usize),
    Basis(BasisName),
}

/// Whether a type has this normal form.
fn has_form(alloc: Global, t: &Con, n: &Con) -> Result<bool, AllocError>
    ensures { IfOk result
        (λ b. b ≡ implied.has_form (normal_in (con_tree t.now)) (con_tree n.now)) }
{
    match normal_of(alloc, t)? {
        None => Ok(false),
        Some(m) => Ok(same_con(&m, n)),
    }
}

/// Whether a binder is the innermost of its name.
fn is_innermost(name: &Text, names: &Names, i: u32) -> Result<bool, AllocError>
    ensures { IfOk result (λ b. b ≡ implied.is_innermost name.now (names_view names.now) i) }
{
    match binder_of(name, names)? {
        None => Ok(false),
        Some(j) => Ok(i == j),
    }
}

/// Whether the type of a binder, which is seen from under so many binders of constructors, has this normal form, and
/// the binder is the innermost of its name.
fn is_bound_instance(
    alloc: Global,
    h: &At<'_>,
    n: &Con,
    name: &Text,
    i: u32,
    t: &Con,
    by: u32,
) -> Result<bool, AllocError>
    ensures { IfOk result (λ b. b ≡ (implied.has_form (normal_in (shifted by (con_tree t.now) 0)) (con_tree n.now)
        && implied.is_innermost name.now (names_view h.now.names.values.value) i)) }
{
    if !has_form(alloc, &raised(alloc, t, by)?, n)? {
        return Ok(false);
    }
    is_innermost(name, &h.names.values, i)
}

/// The number of the first binder, the innermost of its name, whose type has this normal form.
#[tactic(auto, using(crate::proofs::Raised::raised_none, crate::proofs::Raised::raised_nothing, crate::proofs::Raised::raised_past, crate::proofs::Raised::raised_under))]
fn first_bound(alloc: Global, h: &At<'_>, n: &Con) -> Result<Option<u32>, AllocError>
    ensures { IfOk result (λ o. o ≡ searches.first_bound (names_view h.now.names.values.value) (con_tree n.now) 0
        (names_view h.now.names.values.value) (locals_view h.now.locals.value)) }
{
    let mut names: &Names = &h.names.values;
    let mut locals: &Locals = &h.locals;
    let mut i: u32 = 0;
    let mut by: u32 = 0;
    loop {
        match locals {
            Locals::Empty => return Ok(None),
            Locals::Typed(t, outer) => match names {
                Names::Nothing => return Ok(None),
                Names::Under(name, others) => {
                    if is_bound_instance(alloc, h, n, name, i, t, by)? {
                        return Ok(Some(i));
                    }
                    if i == u32::MAX {
                        return Err(AllocError);
                    }
                    i += 1;
                    names = others;
                    locals = outer;
                }
            },
            Locals::Binder(outer) => {
                if by >= BINDERS {
                    return Err(AllocError);
                }
                by += 1;
                locals = outer;
            }
        }
    }
}

/// Whether a binder has a name.
fn is_bound(name: &Text, names: &Names) -> Result<bool, AllocError>
    ensures { IfOk result (λ b. b ≡ implied.is_bound name.now (names_view names.now)) }
{
    Ok(binder_of(name, names)?.is_some())
}

/// Whether a value of a module is the last of its name there.
fn is_last(h: &At<'_>, v: &KnownValue, i: usize) -> bool
    ensures { result ≡ implied.is_last (standing.value_in (value_view v.now).name
        (declared_view h.now.names.known.now).values (value_view v.now).home) i }
{
    match h.names.known.value_in(&v.name, v.home) {
        None => false,
        Some(j) => i == j,
    }
}

/// Whether a value of a module is the last of its name there, and isn't hidden by a binder.
fn is_seen(h: &At<'_>, v: &KnownValue, i: usize) -> Result<bool, AllocError>
    ensures { IfOk result (λ b. b ≡ implied.is_seen (names_view h.now.names.values.value)
        (declared_view h.now.names.known.now) (value_view v.now) i) }
{
    if !is_last(h, v, i) {
        return Ok(false);
    }
    if v.home != h.names.known.last_home() {
        return Ok(true);
    }
    Ok(!is_bound(&v.name, &h.names.values)?)
}

/// Whether the normal form of a type, where it is a class at a type, is this one, which is.
fn is_form(form: &Option<Con>, n: &Con) -> bool
    ensures { result ≡ implied.has_form (maybe_con form.now) (con_tree n.now) }
{
    match form {
        None => false,
        Some(m) => same_con(m, n),
    }
}

/// Whether the type of a top-level value has this normal form, which is a class at a type.
#[tactic(auto, using(crate::proofs::SameForms::value_form))]
fn is_of_form(v: &TypedValue, n: &Con) -> bool
    requires { is_instance (con_tree n.now) ≡ true }
    ensures { result ≡ implied.has_form (normal_in (con_tree v.now.con)) (con_tree n.now) }
{
    is_form(&v.form, n)
}

/// The same of a value of the basis.
#[tactic(auto, using(crate::proofs::SameForms::value_form))]
fn is_of_basis_form(v: &BasisValue, n: &Con) -> bool
    requires { is_instance (con_tree n.now) ≡ true }
    ensures { result ≡ implied.has_form (normal_in (basis_type_of v.now.name)) (con_tree n.now) }
{
    is_form(&v.form, n)
}

/// Whether the type of the top-level value with a number has this normal form, which is a class at a type.
fn has_top_form(h: &At<'_>, n: &Con, i: usize) -> bool
    requires { is_instance (con_tree n.now) ≡ true }
    ensures { result ≡ if_has_form (slice_get (map type_of_value h.now.tops.now.values.items) i) (con_tree n.now) }
{
    if i < h.tops.values.len() {
        is_of_form(&h.tops.values[i], n)
    } else {
        false
    }
}

/// Whether the type of a top-level value has this normal form, and the value is seen.
fn is_top_instance(h: &At<'_>, n: &Con, v: &KnownValue, i: usize) -> Result<bool, AllocError>
    requires { is_instance (con_tree n.now) ≡ true }
    ensures { IfOk result (λ b. b ≡ (if_has_form (slice_get (map type_of_value h.now.tops.now.values.items) i)
        (con_tree n.now) && implied.is_seen (names_view h.now.names.values.value) (declared_view h.now.names.known.now)
        (value_view v.now) i)) }
{
    if !has_top_form(h, n, i) {
        return Ok(false);
    }
    is_seen(h, v, i)
}

/// The number of the latest top-level value that is seen, of those whose type has this normal form, which is a class at
/// a type.
fn look_for_top(h: &At<'_>, n: &Con) -> Result<Option<usize>, AllocError>
    requires { is_instance (con_tree n.now) ≡ true }
    ensures { IfOk result (λ o. o ≡ searches.first_top (names_view h.now.names.values.value)
        (declared_view h.now.names.known.now) (map type_of_value h.now.tops.now.values.items) (con_tree n.now)
        (declared_view h.now.names.known.now).values) }
{
    let mut left = h.names.known.values.len();
    while left > 0 {
        left -= 1;
        if is_top_instance(h, n, &h.names.known.values[left], left)? {
            return Ok(Some(left));
        }
    }
    Ok(None)
}

/// The same, without a look where no top-level value is an instance.
#[tactic(auto, using(crate::proofs::Plain::no_top))]
fn first_top(h: &At<'_>, n: &Con) -> Result<Option<usize>, AllocError>
    requires { is_instance (con_tree n.now) ≡ true }
    ensures { IfOk result (λ o. o ≡ searches.first_top (names_view h.now.names.values.value)
        (declared_view h.now.names.known.now) (map type_of_value h.now.tops.now.values.items) (con_tree n.now)
        (declared_view h.now.names.known.now).values) }
{
    if h.tops.plain {
        return Ok(None);
    }
    look_for_top(h, n)
}

/// The first value that every program has, of those whose type has this normal form, which is a class at a type.
fn first_basis(h: &At<'_>, n: &Con) -> Option<BasisName>
    requires { is_instance (con_tree n.now) ≡ true }
    ensures { result ≡ searches.first_basis (con_tree n.now) (map name_of h.now.basis.now) }
{
    for i in 0..h.basis.len() {
        if is_of_basis_form(&h.basis[i], n) {
            return Some(h.basis[i].name);
        }
    }
    None
}

/// The last value that is declared, of those whose type has this normal form, which is a class at a type.
fn first_instance(alloc: Global, h: &At<'_>, n: &Con) -> Result<Option<Leaf>, AllocError>
    requires { is_instance (con_tree n.now) ≡ true }
    ensures { IfOk result (λ o. maybe_leaf o ≡ searches.first_value (at_view h.now) (con_tree n.now)) }
{
    if let Some(i) = first_bound(alloc, h, n)? {
        return Ok(Some(Leaf::Var(i)));
    }
    if let Some(i) = first_top(h, n)? {
        return Ok(Some(Leaf::Top(i)));
    }
    match first_basis(h, n) {
        None => Ok(None),
        Some(b) => Ok(Some(Leaf::Basis(b))),
    }
}

/// Whether two values of the basis are one.
fn is_same(a: BasisName, b: BasisName) -> bool
    ensures { IsTrue result → a ≡ b }
{
    a == b
}

/// Whether a form is this value.
fn is_leaf(l: Leaf, f: &Form) -> bool
    ensures { IsTrue result → form_tree f.now ≡ leaf_form l }
{
    match f {
        Form::Var(i) => matches!(l, Leaf::Var(j) if *i == j),
        Form::Top(i) => matches!(l, Leaf::Top(j) if *i as usize == j),
        Form::Basis(b) => matches!(l, Leaf::Basis(c) if is_same(*b, c)),
        _ => false,
    }
}

/// Whether a type is a class at a type once its root is reduced.
fn is_class_type(alloc: Global, t: &Con) -> Result<bool, AllocError>
    ensures { IfOk result (λ b. b ≡ is_maybe_instance (forms.head_of (con_tree t.now))) }
{
    match head_of(alloc, t)? {
        None => Ok(false),
        Some(head) => Ok(is_instance_form(&head)),
    }
}

/// Whether an inserted term is the instance of this type.
pub fn is_instance_of(alloc: Global, h: &At<'_>, t: &Con, f: &Form) -> Result<bool, AllocError>
    ensures { IfOk result
        (λ b. IsTrue b → (p : Place) → implied.Inserts (at_view h.now) (con_tree t.now)
        (node p true (form_tree f.now))) }
{
    if !is_class_type(alloc, t)? {
        return Ok(false);
    }
    let n = match normal_of(alloc, t)? {
        None => return Ok(false),
        Some(n) => n,
    };
    if !is_instance_form(&n) {
        return Ok(false);
    }
    match first_instance(alloc, h, &n)? {
        None => Ok(false),
        Some(l) => Ok(is_leaf(l, f)),
    }
}

/// Whether no value in scope has this type, which is a class at a type: the search for one finds none, or the type is
/// too large to have a normal form.
#[tactic(auto, using(crate::proofs::Inserting::none_without, crate::proofs::Inserting::none_found))]
fn none_has(alloc: Global, h: &At<'_>, t: &Con) -> Result<bool, AllocError>
    ensures { IfOk result (λ b. IsTrue b
        → option_and_then (searches.first_value (at_view h.now)) (normal_in (con_tree t.now)) ≡ None) }
{
    let n = match normal_of(alloc, t)? {
        None => return Ok(true),
        Some(n) => n,
    };
    if !is_instance_form(&n) {
        return Ok(false);
    }
    Ok(first_instance(alloc, h, &n)?.is_none())
}

/// Whether a type is a class at a type for which no instance is in scope, so that this gap stands for it.
pub(crate) fn lacks_instance(
    alloc: Global,
    h: &At<'_>,
    t: &Con,
    gap: u32,
) -> Result<bool, AllocError>
    requires { gap ≡ no_instance_here }
    ensures { IfOk result
        (λ b. IsTrue b → (p : Place) → Lacks (at_view h.now) (con_tree t.now) (node p true (top gap))) }
{
    if !is_class_type(alloc, t)? {
        return Ok(false);
    }
    none_has(alloc, h, t)
}

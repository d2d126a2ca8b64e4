//! Comparisons, lists and the sign.
ghost use Rattle.std.specs.Prelude.{◌≡◌, IfOk};
ghost use Rattle.plain_tree.specs.ExpView.{exp_tree, form_tree};
ghost use Rattle.desugar_values.specs.View.{meaning_tree, meanings_tree};
ghost use Rattle.desugar_terms.specs.Operators.{compare, compare_rest, compared, cons, cons_rest, pair, sign_minus};

use crate::boxes::{boxed_exp, boxed_exp_of, next_exp};
use crate::groups::component_of;
use crate::made::{call_one, call_two, term_at};
use desugar_types::{both, two_of};
use desugar_values::{Meaning, Meanings, start_of};
use plain_tree::{Basis, BasisBuilder, Exp, Fields, Form};
use std::alloc::{AllocError, Global};
use surface_tree::Kind;

/// A comparison with both sides: `x > y` is `lt y x`, and `x >= y` is `le y x`.
fn compared(
    alloc: Global,
    operator: Kind,
    at: u32,
    x: Box<Exp>,
    y: Box<Exp>,
) -> Result<Form, AllocError>
    ensures { IfOk result (λ f. form_tree f ≡ compared operator at (exp_tree x.value) (exp_tree y.value)) }
{
    match operator {
        Kind::NotEqual => call_two(alloc, at, Basis::Ne, x, y),
        Kind::LessThan => call_two(alloc, at, Basis::Lt, x, y),
        Kind::LessOrEqual => call_two(alloc, at, Basis::Le, x, y),
        Kind::GreaterThan => call_two(alloc, at, Basis::Lt, y, x),
        Kind::GreaterOrEqual => call_two(alloc, at, Basis::Le, y, x),
        _ => call_two(alloc, at, Basis::Eq, x, y),
    }
}

/// An operator and a term, behind a term.
fn compare_rest(alloc: Global, first: Meaning, rest: Meanings) -> Result<Meaning, AllocError>
    ensures { IfOk result (λ m. meaning_tree m ≡ compare_rest (meaning_tree first) (meanings_tree rest)) }
{
    let mut rest = rest;
    let start = start_of(&first);
    let x = boxed_exp_of(alloc, first);
    let operator = rest.token();
    let (x, y) = both(x, next_exp(alloc, &mut rest))?;
    let form = compared(alloc, operator.kind, operator.at, x, y)?;
    term_at(alloc, start, form)
}

/// `Compare = Cons [CompareMore]`
pub fn compare(alloc: Global, parts: Meanings) -> Result<Meaning, AllocError>
    ensures { IfOk result (λ m. meaning_tree m ≡ compare (meanings_tree parts)) }
{
    let mut parts = parts;
    let first = parts.take();
    match parts.take() {
        Meaning::Group(rest) => compare_rest(alloc, first, rest),
        other => {
            drop(other);
            Ok(first)
        }
    }
}

/// The pair of two terms.
fn pair(alloc: Global, left: Meaning, right: Meaning) -> Result<Box<Exp>, AllocError>
    ensures { IfOk result (λ e. exp_tree e.value ≡ pair (meaning_tree left) (meaning_tree right)) }
{
    let at = start_of(&left);
    let items = two_of(alloc, component_of(1, left), component_of(2, right))?;
    boxed_exp(alloc, at, Form::Rec(Fields { items }))
}

/// `"::"` and a term, behind a term: `Cons` on a pair.
fn cons_rest(alloc: Global, first: Meaning, rest: Meanings) -> Result<Meaning, AllocError>
    ensures { IfOk result (λ m. meaning_tree m ≡ cons_rest (meaning_tree first) (meanings_tree rest)) }
{
    let mut rest = rest;
    let start = start_of(&first);
    let at = rest.at();
    let held = pair(alloc, first, rest.take())?;
    let form = call_one(alloc, at, Basis::Builder(BasisBuilder::Cons), held)?;
    term_at(alloc, start, form)
}

/// `Cons = Join [ConsMore]`, `ConsMore = "::" Cons`: `x :: y` is `Cons` on a pair.
pub fn cons(alloc: Global, parts: Meanings) -> Result<Meaning, AllocError>
    ensures { IfOk result (λ m. meaning_tree m ≡ cons (meanings_tree parts)) }
{
    let mut parts = parts;
    let first = parts.take();
    match parts.take() {
        Meaning::Group(rest) => cons_rest(alloc, first, rest),
        other => {
            drop(other);
            Ok(first)
        }
    }
}

/// `SignMinus = "-" Sign`
pub fn sign_minus(alloc: Global, parts: Meanings) -> Result<Meaning, AllocError>
    ensures { IfOk result (λ m. meaning_tree m ≡ sign_minus (meanings_tree parts)) }
{
    let mut parts = parts;
    let at = parts.at();
    let x = next_exp(alloc, &mut parts)?;
    let form = call_one(alloc, at, Basis::Neg, x)?;
    term_at(alloc, at, form)
}

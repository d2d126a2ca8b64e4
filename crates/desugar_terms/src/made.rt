//! Values of the basis with arguments, and functions of one parameter.
ghost use Rattle.std.specs.Prelude.{◌≡◌, IfOk, map};
ghost use Rattle.plain_tree.specs.ConView.{pat_tree};
ghost use Rattle.plain_tree.specs.ExpView.{exp_tree, form_tree, item_tree, items_from, items_tree};
ghost use Rattle.plain_tree.specs.Trees.{exp_call, item_term};
ghost use Rattle.desugar_values.specs.View.{meaning_tree};
ghost use Rattle.desugar_terms.specs.Made.{basis_at, call_one, call_two, one_parameter, term_at};

use crate::boxes::boxed_exp;
use desugar_types::{one_of, two_of};
use desugar_values::Meaning;
use plain_tree::{Arg, Args, Basis, Exp, Form, Item, Items, Pat};
use std::alloc::{AllocError, Global};

/// A term that stands where its tree begins.
pub fn term_at(alloc: Global, at: u32, form: Form) -> Result<Meaning, AllocError>
    ensures { IfOk result (λ m. meaning_tree m ≡ term_at at (form_tree form)) }
{
    Ok(Meaning::Exp(at, boxed_exp(alloc, at, form)?))
}

/// A value of the basis.
pub fn basis_at(alloc: Global, at: u32, value: Basis) -> Result<Box<Exp>, AllocError>
    ensures { IfOk result (λ e. exp_tree e.value ≡ basis_at at value) }
{
    boxed_exp(alloc, at, Form::Basis(value))
}

/// A term as an argument.
pub fn term_item(x: Box<Exp>) -> Item
    ensures { item_tree result ≡ item_term (exp_tree x.value) }
{
    Item::Term(Box::into_inner(x))
}

/// What a term is applied to, from left to right.
fn arguments(items: Vec<Item>) -> Items
    ensures { items_tree result ≡ items_from (map item_tree items.items) }
{
    Items { items }
}

/// A term with what it is applied to, from left to right.
pub fn call(head: Box<Exp>, items: Vec<Item>) -> Form
    ensures { form_tree result ≡ exp_call (exp_tree head.value) (items_from (map item_tree items.items)) }
{
    Form::Call(head, arguments(items))
}

/// A value of the basis, at its place, with an argument.
pub fn call_one(alloc: Global, at: u32, value: Basis, x: Box<Exp>) -> Result<Form, AllocError>
    ensures { IfOk result (λ f. form_tree f ≡ call_one at value (exp_tree x.value)) }
{
    let head = basis_at(alloc, at, value)?;
    let items = one_of(alloc, term_item(x))?;
    Ok(call(head, items))
}

/// A value of the basis, at its place, with two arguments.
pub fn call_two(
    alloc: Global,
    at: u32,
    value: Basis,
    x: Box<Exp>,
    y: Box<Exp>,
) -> Result<Form, AllocError>
    ensures { IfOk result (λ f. form_tree f ≡ call_two at value (exp_tree x.value) (exp_tree y.value)) }
{
    let head = basis_at(alloc, at, value)?;
    let items = two_of(alloc, term_item(x), term_item(y))?;
    Ok(call(head, items))
}

/// `fn p => e`
pub fn one_parameter(
    alloc: Global,
    at: u32,
    pat: Box<Pat>,
    body: Box<Exp>,
) -> Result<Box<Exp>, AllocError>
    ensures { IfOk result (λ e. exp_tree e.value ≡ one_parameter at (pat_tree pat.value) (exp_tree body.value)) }
{
    let items = one_of(alloc, Arg::Pat(Box::into_inner(pat)))?;
    boxed_exp(alloc, at, Form::Fn(Args { items }, body))
}

//! Terms in brackets.
ghost use Rattle.std.specs.Prelude.{◌≡◌, ◌+◌, ◌++◌, map, length, IfOk};
ghost use Rattle.plain_tree.specs.ExpView.{exp_tree, field_tree};
ghost use Rattle.desugar_values.specs.View.{meaning_tree, meanings_tree};
ghost use Rattle.desugar_terms.specs.Groups.{component_of, components_of, in_brackets, parens, tuple, tuple_field, tuple_fields, typed, unit};

use crate::made::term_at;
use desugar_types::two_of;
use desugar_values::{Meaning, Meanings, component, exp_of, start_of};
use plain_tree::{Exp, Field, Fields, Form};
use std::alloc::{AllocError, Global};
use surface_tree::Kind;

/// `ParenUnit = ")"`: the record without fields, at its bracket.
fn unit(alloc: Global, at: u32) -> Result<Meaning, AllocError>
    ensures { IfOk result (λ m. meaning_tree m ≡ unit at) }
{
    let fields = Fields {
        items: Vec::new(alloc),
    };
    term_at(alloc, at, Form::Rec(fields))
}

/// The component of a tuple that has this number, at the byte at which its tree begins.
fn tuple_field(start: u32, number: u64, value: Exp) -> Field
    ensures { field_tree result ≡ tuple_field start number (exp_tree value) }
{
    Field {
        at: start,
        name: component(start, number),
        value,
    }
}

/// The component of a tuple that a tree stands for.
pub fn component_of(number: u64, part: Meaning) -> Field
    ensures { field_tree result ≡ component_of number (meaning_tree part) }
{
    let start = start_of(&part);
    tuple_field(start, number, exp_of(part))
}

/// `{ExpComma}`, behind the components that stand before it.
fn with_components(before: Vec<Field>, several: Meanings) -> Result<Vec<Field>, AllocError>
    ensures { IfOk result (λ fields. map field_tree fields.items
        ≡ map field_tree before.items ++ components_of (length before.items + 1) (meanings_tree several)) }
{
    let mut fields = before;
    for part in several.into_list() {
        let number = fields.len() as u64 + 1;
        fields.push(component_of(number, part))?;
    }
    Ok(fields)
}

/// The fields of a tuple: the first component, and `Exp {ExpComma} ")"` behind its comma.
fn tuple_fields(
    alloc: Global,
    start: u32,
    first: Box<Exp>,
    parts: Meanings,
) -> Result<Vec<Field>, AllocError>
    ensures { IfOk result (λ fields. map field_tree fields.items
        ≡ tuple_fields start (exp_tree first.value) (meanings_tree parts)) }
{
    let mut parts = parts;
    let first = tuple_field(start, 1, Box::into_inner(first));
    let fields = two_of(alloc, first, component_of(2, parts.take()))?;
    with_components(fields, parts.several(alloc))
}

/// `"(" Exp ParenTuple`, `ParenTuple = "," Exp {ExpComma} ")"`, with the parts behind the comma.
fn tuple(
    alloc: Global,
    at: u32,
    start: u32,
    first: Box<Exp>,
    parts: Meanings,
) -> Result<Meaning, AllocError>
    ensures { IfOk result (λ m. meaning_tree m ≡ tuple at start (exp_tree first.value) (meanings_tree parts)) }
{
    let items = tuple_fields(alloc, start, first, parts)?;
    term_at(alloc, at, Form::Rec(Fields { items }))
}

/// `"(" Exp ParenTyped`, `ParenTyped = ":" Con ")"`, with the parts behind the colon.
fn typed(alloc: Global, at: u32, exp: Box<Exp>, parts: Meanings) -> Result<Meaning, AllocError>
    ensures { IfOk result (λ m. meaning_tree m ≡ typed at (exp_tree exp.value) (meanings_tree parts)) }
{
    let mut parts = parts;
    term_at(alloc, at, Form::Typed(exp, parts.con()))
}

/// `"(" Exp ParenEnd`: a term that only stands in brackets keeps its own place.
fn in_brackets(
    alloc: Global,
    at: u32,
    start: u32,
    exp: Box<Exp>,
    parts: Meanings,
) -> Result<Meaning, AllocError>
    ensures { IfOk result (λ m. meaning_tree m ≡ in_brackets at start (exp_tree exp.value) (meanings_tree parts)) }
{
    let mut parts = parts;
    match parts.token().kind {
        Kind::Comma => tuple(alloc, at, start, exp, parts),
        Kind::Colon => typed(alloc, at, exp, parts),
        _ => Ok(Meaning::Exp(at, exp)),
    }
}

/// `PrimaryParens = "(" ParenRest`, `ParenGroup = Exp ParenEnd`
pub fn parens(alloc: Global, parts: Meanings) -> Result<Meaning, AllocError>
    ensures { IfOk result (λ m. meaning_tree m ≡ parens (meanings_tree parts)) }
{
    let mut parts = parts;
    let at = parts.at();
    let mut rest = parts.group(alloc);
    match rest.take() {
        Meaning::Word(token) => {
            drop(token);
            unit(alloc, at)
        }
        Meaning::Exp(start, exp) => in_brackets(alloc, at, start, exp, rest.group(alloc)),
        other => {
            drop(other);
            Err(AllocError)
        }
    }
}

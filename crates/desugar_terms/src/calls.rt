//! Applications.
ghost use Rattle.std.specs.Prelude.{◌≡◌, IfOk, map};
ghost use Rattle.plain_tree.specs.ExpView.{exp_tree, item_tree};
ghost use Rattle.desugar_values.specs.View.{meaning_tree, meanings_tree};
ghost use Rattle.desugar_terms.specs.Calls.{apply, apply_to, argument_of, bracket_item, empty_list, item_of, items_of};

use crate::boxes::boxed_exp_of;
use crate::chains::is_none;
use crate::dots::with_dots;
use crate::made::{basis_at, call, term_at, term_item};
use desugar_types::both;
use desugar_values::{Meaning, Meanings, exp_of, start_of};
use plain_tree::{Basis, BasisBuilder, Exp, Item};
use std::alloc::{AllocError, Global};
use surface_tree::Kind;

/// The empty list, which begins at this place, with the projections of these dots behind it.
pub fn empty_list(alloc: Global, at: u32, dots: Meanings) -> Result<Box<Exp>, AllocError>
    ensures { IfOk result (λ e. exp_tree e.value ≡ empty_list at (meanings_tree dots)) }
{
    let list = basis_at(alloc, at, Basis::Builder(BasisBuilder::Nil))?;
    with_dots(alloc, at, list, dots)
}

/// What stands behind a bracket, which is at this place: `ArgumentCon = Con "]"`, or `ArgumentList = "]" {Dot}`.
fn bracket_item(alloc: Global, at: u32, rest: Meanings) -> Result<Item, AllocError>
    ensures { IfOk result (λ i. item_tree i ≡ bracket_item at (meanings_tree rest)) }
{
    let mut rest = rest;
    match rest.take() {
        Meaning::Con(_, con) => Ok(Item::Con(at, Box::into_inner(con))),
        other => {
            drop(other);
            Ok(term_item(empty_list(alloc, at, rest.several(alloc))?))
        }
    }
}

/// `ArgumentBracket = "[" ArgumentRest`, `ArgumentGuard = "!"`
fn argument_of(alloc: Global, parts: Meanings) -> Result<Item, AllocError>
    ensures { IfOk result (λ i. item_tree i ≡ argument_of (meanings_tree parts)) }
{
    let mut parts = parts;
    let word = parts.token();
    match word.kind {
        Kind::Exclamation => Ok(Item::Guard(word.at)),
        _ => bracket_item(alloc, word.at, parts.group(alloc)),
    }
}

/// An argument.
fn item_of(alloc: Global, part: Meaning) -> Result<Item, AllocError>
    ensures { IfOk result (λ i. item_tree i ≡ item_of (meaning_tree part)) }
{
    match part {
        Meaning::Group(parts) => argument_of(alloc, parts),
        other => Ok(Item::Term(exp_of(other))),
    }
}

/// `{Argument}`
fn items_of(alloc: Global, several: Meanings) -> Result<Vec<Item>, AllocError>
    ensures { IfOk result (λ items. map item_tree items.items ≡ items_of (meanings_tree several)) }
{
    let mut items = Vec::new(alloc);
    for part in several.into_list() {
        items.push(item_of(alloc, part)?)?;
    }
    Ok(items)
}

/// A term and its arguments.
fn apply_to(alloc: Global, first: Meaning, several: Meanings) -> Result<Meaning, AllocError>
    ensures { IfOk result (λ m. meaning_tree m ≡ apply_to (meaning_tree first) (meanings_tree several)) }
{
    let start = start_of(&first);
    let head = boxed_exp_of(alloc, first);
    let (head, items) = both(head, items_of(alloc, several))?;
    term_at(alloc, start, call(head, items))
}

/// `Apply = Atom {Argument}`; without an argument the term alone.
pub fn apply(alloc: Global, parts: Meanings) -> Result<Meaning, AllocError>
    ensures { IfOk result (λ m. meaning_tree m ≡ apply (meanings_tree parts)) }
{
    let mut parts = parts;
    let first = parts.take();
    let several = parts.several(alloc);
    if is_none(&several) {
        Ok(first)
    } else {
        apply_to(alloc, first, several)
    }
}

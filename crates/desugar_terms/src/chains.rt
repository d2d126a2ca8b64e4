//! Operators of chains.
ghost use Rattle.std.specs.Prelude.{◌≡◌, IfOk, map};
ghost use Rattle.plain_tree.specs.ExpView.{link_tree};
ghost use Rattle.desugar_values.specs.View.{meaning_tree, meanings_tree};
ghost use Rattle.desugar_terms.specs.Chains.{chain, chain_from, is_none, link_of, links_of, operator};

use crate::boxes::boxed_exp_of;
use crate::lists::links_made;
use crate::made::term_at;
use desugar_types::both;
use desugar_values::{Meaning, Meanings, con_of, exp_of, group_of, start_of};
use plain_tree::{Form, Infix, Link};
use std::alloc::{AllocError, Global};
use surface_tree::Kind;

/// The operator that a word is: `||` is Or.
fn operator(kind: Kind) -> Infix
    ensures { result ≡ operator kind }
{
    match kind {
        Kind::DoubleAmpersand => Infix::And,
        Kind::Caret => Infix::Strcat,
        Kind::DoublePlus => Infix::Concat,
        Kind::Plus => Infix::Plus,
        Kind::Dash => Infix::Minus,
        Kind::Star => Infix::Times,
        Kind::Slash => Infix::Divide,
        Kind::Percent => Infix::Mod,
        _ => Infix::Or,
    }
}

/// An operator and its right side, as `SumPlus = "+" Product`, `CutField = "--" ConTerm`, `CutRow = "---" ConTerm`.
fn link_of(parts: Meanings) -> Link
    ensures { link_tree result ≡ link_of (meanings_tree parts) }
{
    let mut parts = parts;
    let word = parts.token();
    let right = parts.take();
    match word.kind {
        Kind::DoubleDash => Link::Without(word.at, con_of(right)),
        Kind::TripleDash => Link::WithoutRow(word.at, con_of(right)),
        kind => Link::Infix(word.at, operator(kind), exp_of(right)),
    }
}

/// The operators of a chain, each with its right side.
fn links_of(alloc: Global, several: Meanings) -> Result<Vec<Link>, AllocError>
    ensures { IfOk result (λ items. map link_tree items.items ≡ links_of (meanings_tree several)) }
{
    let mut items = Vec::new(alloc);
    for part in several.into_list() {
        items.push(link_of(group_of(alloc, part)))?;
    }
    Ok(items)
}

/// Whether a repetition has no tree.
pub fn is_none(several: &Meanings) -> bool
    ensures { result ≡ is_none (meanings_tree several.now) }
{
    match several.items.front() {
        Some(_) => false,
        None => true,
    }
}

/// A term and what follows it.
fn chain_from(alloc: Global, first: Meaning, several: Meanings) -> Result<Meaning, AllocError>
    ensures { IfOk result (λ m. meaning_tree m ≡ chain_from (meaning_tree first) (meanings_tree several)) }
{
    let start = start_of(&first);
    let head = boxed_exp_of(alloc, first);
    let (head, items) = both(head, links_of(alloc, several))?;
    term_at(alloc, start, Form::Chain(head, links_made(items)))
}

/// A term and what follows it, as `Sum = Product {SumMore}`; with nothing behind it the term alone.
pub fn chain(alloc: Global, parts: Meanings) -> Result<Meaning, AllocError>
    ensures { IfOk result (λ m. meaning_tree m ≡ chain (meanings_tree parts)) }
{
    let mut parts = parts;
    let first = parts.take();
    let several = parts.several(alloc);
    if is_none(&several) {
        Ok(first)
    } else {
        chain_from(alloc, first, several)
    }
}

//! Terms with projections behind them.
ghost use Rattle.std.specs.Prelude.{◌≡◌, map, IfOk};
ghost use Rattle.plain_tree.specs.ExpView.{exp_tree, link_tree};
ghost use Rattle.desugar_values.specs.View.{meaning_tree, meanings_tree};
ghost use Rattle.desugar_terms.specs.Dots.{chain, dot_of, dots_of, with_dots, with_links};

use crate::boxes::boxed_exp;
use crate::lists::links_made;
use desugar_values::{Meaning, Meanings, field_name};
use plain_tree::{Exp, Form, Link};
use std::alloc::{AllocError, Global};

/// `Dot = "." FieldName`, of which this is what the name of the field stands for.
pub fn dot_of(alloc: Global, name: Meaning) -> Link
    ensures { link_tree result ≡ dot_of (meaning_tree name) }
{
    Link::Field(field_name(alloc, name))
}

/// `{Dot}`
fn dots_of(alloc: Global, several: Meanings) -> Result<Vec<Link>, AllocError>
    ensures { IfOk result (λ links. map link_tree links.items ≡ dots_of (meanings_tree several)) }
{
    let mut links = Vec::new(alloc);
    for dot in several.into_list() {
        links.push(dot_of(alloc, dot))?;
    }
    Ok(links)
}

/// A term with projections behind it, as a chain.
fn chain(
    alloc: Global,
    start: u32,
    head: Box<Exp>,
    links: Vec<Link>,
) -> Result<Box<Exp>, AllocError>
    ensures { IfOk result (λ e. exp_tree e.value ≡ chain start (exp_tree head.value) (map link_tree links.items)) }
{
    boxed_exp(alloc, start, Form::Chain(head, links_made(links)))
}

/// A term, whose tree begins at this byte, with projections behind it.
#[tactic(auto, using(crate::proofs::SomeLinks::some_links))]
pub fn with_links(
    alloc: Global,
    start: u32,
    exp: Box<Exp>,
    links: Vec<Link>,
) -> Result<Box<Exp>, AllocError>
    ensures { IfOk result (λ e. exp_tree e.value ≡ with_links start (exp_tree exp.value) (map link_tree links.items)) }
{
    if links.is_empty() {
        return Ok(exp);
    }
    chain(alloc, start, exp, links)
}

/// A term, whose tree begins at this byte, with the projections of dots behind it.
pub fn with_dots(
    alloc: Global,
    start: u32,
    exp: Box<Exp>,
    several: Meanings,
) -> Result<Box<Exp>, AllocError>
    ensures { IfOk result (λ e. exp_tree e.value ≡ with_dots start (exp_tree exp.value) (meanings_tree several)) }
{
    let links = dots_of(alloc, several)?;
    with_links(alloc, start, exp, links)
}

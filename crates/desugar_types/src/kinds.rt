//! What the rules of kinds stand for.
ghost use Rattle.std.specs.Prelude.{◌≡◌, ◌++◌, IfOk, map};
ghost use Rattle.con_terms.specs.Trees.{tuple_of};
ghost use Rattle.con_terms.specs.View.{kind_tree, kinds_from};
ghost use Rattle.plain_tree.specs.View.{maybe_kind};
ghost use Rattle.desugar_values.specs.Meanings.{a_kind};
ghost use Rattle.desugar_values.specs.View.{meaning_tree, meanings_from, meanings_tree};
ghost use Rattle.desugar_types.specs.Kinds.{kind_arrow, kind_components, kind_times, kinds_of, row_kind_value, term_value, tuple_value};

use crate::boxes::{both, boxed_kind, two_of};
use con_terms::{Kind, Kinds};
use desugar_values::{Meaning, Meanings, kind_of, maybe_kind_of};
use std::alloc::{AllocError, Global};
use std::collections::VecDeque;

/// A kind.
pub fn a_kind(alloc: Global, kind: Kind) -> Result<Meaning, AllocError>
    ensures { IfOk result (λ m. meaning_tree m ≡ a_kind (kind_tree kind)) }
{
    Ok(Meaning::Kind(boxed_kind(alloc, kind)?))
}

/// A kind with what its arrow leads to.
fn kind_arrow(alloc: Global, kind: Kind, to: Option<Kind>) -> Result<Kind, AllocError>
    ensures { IfOk result (λ k. kind_tree k ≡ kind_arrow (kind_tree kind) (maybe_kind to)) }
{
    match to {
        None => Ok(kind),
        Some(to) => {
            let (kind, to) = both(boxed_kind(alloc, kind), boxed_kind(alloc, to))?;
            Ok(Kind::Arrow(kind, to))
        }
    }
}

/// `KindTerm = KindAtom [KindArrow]`
pub fn kind_term(alloc: Global, parts: Meanings) -> Result<Meaning, AllocError>
    ensures { IfOk result (λ m. meaning_tree m ≡ term_value (meanings_tree parts)) }
{
    let mut parts = parts;
    let kind = parts.kind();
    let to = maybe_kind_of(parts.take());
    a_kind(alloc, kind_arrow(alloc, kind, to)?)
}

/// `KindRow = "{" KindTerm "}"`
pub fn kind_row(alloc: Global, parts: Meanings) -> Result<Meaning, AllocError>
    ensures { IfOk result (λ m. meaning_tree m ≡ row_kind_value (meanings_tree parts)) }
{
    let mut parts = parts;
    parts.skip();
    let field = boxed_kind(alloc, parts.kind())?;
    a_kind(alloc, Kind::Row(field))
}

/// These kinds, and behind them those of further trees.
fn add_kinds(items: Vec<Kind>, more: VecDeque<Meaning>) -> Result<Vec<Kind>, AllocError>
    ensures { IfOk result (λ all.
        map kind_tree all.items ≡ map kind_tree items.items ++ kinds_of (meanings_from (map meaning_tree more.items))) }
{
    let mut all = items;
    for part in more {
        all.push(kind_of(part))?;
    }
    Ok(all)
}

/// These components of tuples as one kind.
fn tuple_of(items: Vec<Kind>) -> Kind
    ensures { kind_tree result ≡ tuple_of (kinds_from (map kind_tree items.items)) }
{
    Kind::Tuple(Kinds { items })
}

/// The kind of tuples with these components, of which there are at least two.
fn components(
    alloc: Global,
    first: Kind,
    second: Kind,
    more: VecDeque<Meaning>,
) -> Result<Kind, AllocError>
    ensures { IfOk result (λ k. kind_tree k
        ≡ kind_components (kind_tree first) (kind_tree second) (meanings_from (map meaning_tree more.items))) }
{
    let items = two_of(alloc, first, second)?;
    let items = add_kinds(items, more)?;
    Ok(tuple_of(items))
}

/// A kind with the further ones of a tuple.
fn kind_times(alloc: Global, kind: Kind, times: Meanings) -> Result<Kind, AllocError>
    ensures { IfOk result (λ k. kind_tree k ≡ kind_times (kind_tree kind) (meanings_tree times)) }
{
    let mut times = times.into_list();
    match times.pop_front() {
        None => Ok(kind),
        Some(second) => components(alloc, kind, kind_of(second), times),
    }
}

/// `KindTuple = "(" KindTerm {KindTimes} ")"`; brackets round one kind are that kind.
pub fn kind_tuple(alloc: Global, parts: Meanings) -> Result<Meaning, AllocError>
    ensures { IfOk result (λ m. meaning_tree m ≡ tuple_value (meanings_tree parts)) }
{
    let mut parts = parts;
    parts.skip();
    let first = parts.kind();
    let kind = kind_times(alloc, first, parts.several(alloc))?;
    a_kind(alloc, kind)
}

//! What follows the first word of a constructor.
ghost use Rattle.std.specs.Prelude.{◌≡◌, IfOk};
ghost use Rattle.plain_tree.specs.ConView.{con_field_tree, con_fields_tree, con_tree, maybe_con};
ghost use Rattle.desugar_values.specs.Parts.{behind};
ghost use Rattle.desugar_values.specs.View.{meanings_tree};
ghost use Rattle.desugar_types.specs.Tails.{applied, arrow, joined, more_tails, product, projected, record_at, short_tails, tails};

use crate::boxes::{both, boxed_con, two_of};
use crate::lists::{add_components, component_of, some_cons, some_numbers};
use desugar_values::{Meanings, component};
use plain_tree::{Con, ConField, ConFields, ConForm, Cons, Places};
use std::alloc::{AllocError, Global};

/// A constructor with the projections behind it.
pub fn projected(alloc: Global, at: u32, con: Con, indexes: Meanings) -> Result<Con, AllocError>
    ensures { IfOk result (λ c. con_tree c ≡ projected at (con_tree con) (meanings_tree indexes)) }
{
    let mut indexes = indexes.into_list();
    match indexes.pop_front() {
        None => Ok(con),
        Some(first) => {
            let (con, numbers) = both(boxed_con(alloc, con), some_numbers(alloc, first, indexes))?;
            Ok(Con {
                at,
                form: ConForm::Proj(con, numbers),
            })
        }
    }
}

/// A constructor with its arguments.
pub fn applied(alloc: Global, at: u32, con: Con, terms: Meanings) -> Result<Con, AllocError>
    ensures { IfOk result (λ c. con_tree c ≡ applied at (con_tree con) (meanings_tree terms)) }
{
    let mut terms = terms.into_list();
    match terms.pop_front() {
        None => Ok(con),
        Some(first) => {
            let (con, items) = both(boxed_con(alloc, con), some_cons(alloc, first, terms))?;
            Ok(Con {
                at,
                form: ConForm::Apply(con, Cons { items }),
            })
        }
    }
}

/// A constructor with what is joined to it.
pub fn joined(alloc: Global, at: u32, con: Con, concats: Meanings) -> Result<Con, AllocError>
    ensures { IfOk result (λ c. con_tree c ≡ joined at (con_tree con) (meanings_tree concats)) }
{
    let mut concats = concats.into_list();
    match concats.pop_front() {
        None => Ok(con),
        Some(first) => {
            let (con, items) = both(boxed_con(alloc, con), some_cons(alloc, first, concats))?;
            Ok(Con {
                at,
                form: ConForm::Concat(con, Cons { items }),
            })
        }
    }
}

/// The record type of a row, written without `$`.
pub fn record(alloc: Global, at: u32, fields: ConFields) -> Result<Con, AllocError>
    ensures { IfOk result (λ c. con_tree c ≡ record_at at (con_fields_tree fields)) }
{
    let row = Con {
        at,
        form: ConForm::Row(fields),
    };
    let places = Places {
        items: Vec::new(alloc),
    };
    Ok(Con {
        at,
        form: ConForm::Record(places, boxed_con(alloc, row)?),
    })
}

/// `c * d * ..`: the record type with the fields 1, 2, ..
pub fn product(alloc: Global, at: u32, con: Con, times: Meanings) -> Result<Con, AllocError>
    ensures { IfOk result (λ c. con_tree c ≡ product at (con_tree con) (meanings_tree times)) }
{
    let mut times = times.into_list();
    match times.pop_front() {
        None => Ok(con),
        Some(second) => {
            let first = ConField {
                at,
                name: component(at, 1),
                value: con,
            };
            let items = two_of(alloc, first, component_of(2, second))?;
            let items = add_components(items, times)?;
            record(alloc, at, ConFields { items })
        }
    }
}

/// A constructor with what its arrow leads to.
pub fn arrow(alloc: Global, at: u32, con: Con, to: Option<Con>) -> Result<Con, AllocError>
    ensures { IfOk result (λ c. con_tree c ≡ arrow at (con_tree con) (maybe_con to)) }
{
    match to {
        None => Ok(con),
        Some(to) => {
            let (con, to) = both(boxed_con(alloc, con), boxed_con(alloc, to))?;
            Ok(Con {
                at,
                form: ConForm::Arrow(con, to),
            })
        }
    }
}

/// `{ConIndex}`, and `{ConTerm} {ConConcat}` behind it, of a constructor that begins at this byte.
pub fn more_tails(
    alloc: Global,
    at: u32,
    con: Con,
    indexes: Meanings,
    parts: &mut Meanings,
) -> Result<Con, AllocError>
    ensures con { IfOk result (λ c.
        con_tree c ≡ more_tails at (con_tree con) (meanings_tree indexes) (meanings_tree parts.old)) }
    ensures behind { meanings_tree parts.new ≡ behind (behind (meanings_tree parts.old)) }
{
    let terms = parts.several(alloc);
    let concats = parts.several(alloc);
    let con = projected(alloc, at, con, indexes)?;
    let con = applied(alloc, at, con, terms)?;
    joined(alloc, at, con, concats)
}

/// `{ConIndex} {ConTerm} {ConConcat}` behind a constructor that begins at this byte.
pub fn short_tails(
    alloc: Global,
    at: u32,
    con: Con,
    parts: &mut Meanings,
) -> Result<Con, AllocError>
    ensures con { IfOk result (λ c. con_tree c ≡ short_tails at (con_tree con) (meanings_tree parts.old)) }
    ensures behind { meanings_tree parts.new ≡ behind (behind (behind (meanings_tree parts.old))) }
{
    let indexes = parts.several(alloc);
    more_tails(alloc, at, con, indexes, parts)
}

/// `{ConIndex} {ConTerm} {ConConcat} {ConTimes} [ConArrow]` behind a constructor that begins at this byte.
pub fn tails(alloc: Global, at: u32, con: Con, parts: Meanings) -> Result<Con, AllocError>
    ensures { IfOk result (λ c. con_tree c ≡ tails at (con_tree con) (meanings_tree parts)) }
{
    let mut parts = parts;
    let con = short_tails(alloc, at, con, &mut parts)?;
    let con = product(alloc, at, con, parts.several(alloc))?;
    arrow(alloc, at, con, parts.maybe_con())
}

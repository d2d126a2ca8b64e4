//! The trees of repetitions as lists.
ghost use Rattle.std.specs.Prelude.{◌≡◌, ◌++◌, ◌∷◌, IfOk, suc, length, map};
ghost use Rattle.plain_tree.specs.ConView.{con_field_tree, con_tree};
ghost use Rattle.desugar_values.specs.Parts.{con_of, number, word_of};
ghost use Rattle.desugar_values.specs.View.{meaning_tree, meanings_from};
ghost use Rattle.desugar_types.specs.Lists.{component_of, components_of, cons_of, numbers_of, places_of};

use crate::boxes::one_of;
use desugar_values::{Meaning, component, con_of, number, start_of, word_of};
use plain_tree::{Con, ConField, Numbers, Places};
use std::alloc::{AllocError, Global};
use std::collections::VecDeque;

/// These numbers, and behind them those of further tokens.
pub fn add_numbers(items: Vec<u64>, more: VecDeque<Meaning>) -> Result<Numbers, AllocError>
    ensures { IfOk result (λ all. all ≡ items.items ++ numbers_of (meanings_from (map meaning_tree more.items))) }
{
    let mut items = items;
    for part in more {
        items.push(number(&word_of(part).content))?;
    }
    Ok(Numbers { items })
}

/// The number of this token, and behind it those of further tokens.
pub fn some_numbers(
    alloc: Global,
    first: Meaning,
    more: VecDeque<Meaning>,
) -> Result<Numbers, AllocError>
    ensures { IfOk result (λ all. all ≡ number (word_of (meaning_tree first)).content
        ∷ numbers_of (meanings_from (map meaning_tree more.items))) }
{
    let items = one_of(alloc, number(&word_of(first).content))?;
    add_numbers(items, more)
}

/// The bytes at which these trees begin.
pub fn places(alloc: Global, trees: VecDeque<Meaning>) -> Result<Places, AllocError>
    ensures { IfOk result (λ all. all ≡ places_of (meanings_from (map meaning_tree trees.items))) }
{
    let mut items = Vec::new(alloc);
    for part in trees {
        items.push(start_of(&part))?;
    }
    Ok(Places { items })
}

/// These constructors, and behind them those of further trees.
pub fn add_cons(items: Vec<Con>, more: VecDeque<Meaning>) -> Result<Vec<Con>, AllocError>
    ensures { IfOk result (λ all.
        map con_tree all.items ≡ map con_tree items.items ++ cons_of (meanings_from (map meaning_tree more.items))) }
{
    let mut all = items;
    for part in more {
        all.push(con_of(part))?;
    }
    Ok(all)
}

/// The constructor of this tree, and behind it those of further trees.
pub fn some_cons(
    alloc: Global,
    first: Meaning,
    more: VecDeque<Meaning>,
) -> Result<Vec<Con>, AllocError>
    ensures { IfOk result (λ all. map con_tree all.items
        ≡ con_of (meaning_tree first) ∷ cons_of (meanings_from (map meaning_tree more.items))) }
{
    let items = one_of(alloc, con_of(first))?;
    add_cons(items, more)
}

/// A tree as the component of a tuple with this number.
pub fn component_of(number: u64, part: Meaning) -> ConField
    ensures { con_field_tree result ≡ component_of number (meaning_tree part) }
{
    let at = start_of(&part);
    ConField {
        at,
        name: component(at, number),
        value: con_of(part),
    }
}

/// These components of a tuple, and behind them the next ones.
pub fn add_components(
    items: Vec<ConField>,
    more: VecDeque<Meaning>,
) -> Result<Vec<ConField>, AllocError>
    ensures { IfOk result (λ all. map con_field_tree all.items ≡ map con_field_tree items.items
        ++ components_of (suc (length items.items)) (meanings_from (map meaning_tree more.items))) }
{
    let mut all = items;
    for part in more {
        let number = all.len() as u64 + 1;
        all.push(component_of(number, part))?;
    }
    Ok(all)
}

//! What is found for the terms of a list.
ghost use Rattle.std.specs.Prelude.{◌≡◌, ◌<◌, Some, length, slice_get};
ghost use Rattle.judgements.specs.View.{judged_tree};
ghost use Rattle.markup_rules.specs.Nodes as computed;
ghost use Rattle.markup_rules.specs.View.{judgements_view};
ghost use Rattle.type_faults.specs.View.{maybe_fault};

use judgements::Judged;
use type_faults::{Fault, first};

/// What is found for some terms, in their order. Contracts see it as `judgements_view`.
#[derive(Drop)]
pub struct Judgements {
    pub items: Vec<Judged>,
}

impl Judgements {
    /// The number of terms.
    pub fn len(&self) -> usize
        ensures { result ≡ length (judgements_view self.now) }
    {
        self.items.len()
    }

    /// What is found for the term at this place, counted from 0.
    pub fn at(&self, i: usize) -> &Judged
        requires { i < length (judgements_view self.now) }
        ensures { slice_get (judgements_view self.now) i ≡ Some (judged_tree result.now) }
    {
        &self.items[i]
    }
}

/// The earliest fault that is told of some terms.
pub fn told_of(judged: Judgements) -> Option<Fault>
    ensures { maybe_fault result ≡ computed.told_of (judgements_view judged) }
{
    let mut told = None;
    for j in judged.items {
        let Judged { ty: _, told: other } = j;
        told = first(told, other);
    }
    told
}

/// Whether nothing is told.
pub fn is_silent(told: &Option<Fault>) -> bool
    ensures { result ≡ computed.silent (maybe_fault told.now) }
{
    match told {
        None => true,
        Some(_) => false,
    }
}

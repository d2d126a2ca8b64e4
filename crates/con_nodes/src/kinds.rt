//! The nodes of kinds.

use con_terms::{Kind, Kinds};

/// What is left of so many nodes beside those of a kind; 0 where nothing is.
#[cycle(beside_kind)]
pub fn beside_kind(kind: &Kind, left: u32) -> u32 {
    if left == 0 {
        return 0;
    }
    let left = left - 1;
    match kind {
        Kind::Types | Kind::Units | Kind::Names => left,
        Kind::Row(values) => beside_kind(values, left),
        Kind::Arrow(from, to) => beside_kind(to, beside_kind(from, left)),
        Kind::Tuple(kinds) => beside_kinds(kinds, left),
    }
}

/// What is left of so many nodes beside those of kinds.
#[cycle(beside_kind)]
fn beside_kinds(kinds: &Kinds, left: u32) -> u32 {
    let mut left = left;
    for i in 0..kinds.items.len() {
        left = beside_kind(&kinds.items[i], left);
    }
    left
}

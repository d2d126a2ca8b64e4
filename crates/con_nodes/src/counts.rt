//! The nodes of constructors.

use crate::kinds::beside_kind;
use con_terms::{Con, Cons, Pair, Pairs};

/// Constructors that are put together of others have fewer nodes than this.
pub const MOST: u32 = 100_000;

/// How many nodes a constructor has. Those past `MOST` aren't counted.
pub fn nodes(con: &Con) -> u32 {
    MOST.saturating_sub(left_beside(con, MOST))
}

/// What is left of so many nodes beside those of a constructor; 0 where nothing is.
pub fn left_beside(con: &Con, left: u32) -> u32 {
    left_with_all(con, 1, left)
}

/// What is left of so many nodes beside those of a constructor in which `held` nodes come in the place of each
/// variable; 0 where nothing is.
pub fn left_with_all(con: &Con, held: u32, left: u32) -> u32 {
    beside(
        con,
        Replaced {
            every: true,
            number: 0,
            held,
        },
        left,
    )
}

/// What is left of so many nodes beside those of a constructor in which `held` nodes come in the place of the variable
/// of this number, counted from outside the constructor; 0 where nothing is.
pub fn left_with(con: &Con, number: u32, held: u32, left: u32) -> u32 {
    beside(
        con,
        Replaced {
            every: false,
            number,
            held,
        },
        left,
    )
}

/// Which variables are replaced, and how many nodes come in the place of each.
#[derive(Clone, Copy, Drop)]
struct Replaced {
    /// Whether all are, or only the one of the number.
    every: bool,
    number: u32,
    held: u32,
}

/// Which are replaced, as seen from under one more binder.
fn under(with: Replaced) -> Replaced {
    Replaced {
        every: with.every,
        number: with.number.saturating_add(1),
        held: with.held,
    }
}

/// What is left beside a constructor.
#[cycle(beside)]
fn beside(con: &Con, with: Replaced, left: u32) -> u32 {
    if left == 0 {
        return 0;
    }
    let rest = left - 1;
    match con {
        Con::Var(found) => beside_variable(*found, with, left),
        Con::Basic(_) | Con::UnitCon | Con::Name(_) => rest,
        Con::Map(from, to) => beside_kind(to, beside_kind(from, rest)),
        Con::Arrow(first, second) => beside(second, with, beside(first, with, rest)),
        Con::Poly(_, kind, body) => beside(body, under(with), beside_kind(kind, rest)),
        Con::Guarded(first, second, body) => {
            let rest = beside(first, with, rest);
            let rest = beside(second, with, rest);
            beside(body, with, rest)
        }
        Con::Record(inner) => beside(inner, with, rest),
        Con::App(first, second) => beside(second, with, beside(first, with, rest)),
        Con::Lambda(kind, body) => beside(body, under(with), beside_kind(kind, rest)),
        Con::Row(kind, pairs) => beside_fields(pairs, with, beside_kind(kind, rest)),
        Con::Cat(first, second) => beside(second, with, beside(first, with, rest)),
        Con::Tuple(parts) => beside_all(parts, with, rest),
        Con::Proj(inner, _) => beside(inner, with, rest),
    }
}

/// What is left beside a variable.
fn beside_variable(found: u32, with: Replaced, left: u32) -> u32 {
    if with.every || found == with.number {
        left.saturating_sub(with.held)
    } else {
        left.saturating_sub(1)
    }
}

/// What is left beside constructors.
#[cycle(beside)]
fn beside_all(parts: &Cons, with: Replaced, left: u32) -> u32 {
    let mut left = left;
    for i in 0..parts.items.len() {
        left = beside(&parts.items[i], with, left);
    }
    left
}

/// What is left beside the fields of a row.
#[cycle(beside)]
fn beside_fields(pairs: &Pairs, with: Replaced, left: u32) -> u32 {
    let mut left = left;
    for i in 0..pairs.items.len() {
        left = beside_field(&pairs.items[i], with, left);
    }
    left
}

/// What is left beside a field of a row.
#[cycle(beside)]
fn beside_field(pair: &Pair, with: Replaced, left: u32) -> u32 {
    let rest = beside(&pair.name, with, left);
    beside(&pair.value, with, rest)
}

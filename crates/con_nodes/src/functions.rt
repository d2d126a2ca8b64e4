//! The functions in constructors, and how many steps of reduction these are given.

ghost use Rattle.std.specs.Prelude.{◌<◌};

use crate::counts::nodes;
use con_terms::{Con, Cons, Pair, Pairs};

/// How many nodes the steps of reduction of a constructor may make, if each makes as many as its largest function has.
const MADE: u32 = 4_000_000;

/// How many units of reduction a constructor is given at most: the larger its functions are, the more a step costs.
pub fn most_units(con: &Con) -> u32
    ensures { 0 < result }
{
    let largest = largest_function(con);
    if largest == 0 {
        return u32::MAX;
    }
    MADE / largest + 2
}

/// How many nodes the largest function in a constructor has, 0 where there is none.
#[cycle(largest_function)]
fn largest_function(con: &Con) -> u32 {
    match con {
        Con::Var(_) | Con::Basic(_) | Con::UnitCon | Con::Name(_) | Con::Map(_, _) => 0,
        Con::Lambda(_, _) => nodes(con),
        Con::Arrow(first, second) => larger(largest_function(first), largest_function(second)),
        Con::Poly(_, _, body) => largest_function(body),
        Con::Guarded(first, second, body) => {
            let sides = larger(largest_function(first), largest_function(second));
            larger(sides, largest_function(body))
        }
        Con::Record(inner) => largest_function(inner),
        Con::App(first, second) => larger(largest_function(first), largest_function(second)),
        Con::Row(_, pairs) => largest_of_fields(pairs),
        Con::Cat(first, second) => larger(largest_function(first), largest_function(second)),
        Con::Tuple(parts) => largest_of_all(parts),
        Con::Proj(inner, _) => largest_function(inner),
    }
}

/// The larger of two numbers.
fn larger(first: u32, second: u32) -> u32 {
    if first < second { second } else { first }
}

/// How many nodes the largest function in these constructors has.
#[cycle(largest_function)]
fn largest_of_all(parts: &Cons) -> u32 {
    let mut largest = 0;
    for i in 0..parts.items.len() {
        largest = larger(largest, largest_function(&parts.items[i]));
    }
    largest
}

/// How many nodes the largest function in the fields of a row has.
#[cycle(largest_function)]
fn largest_of_fields(pairs: &Pairs) -> u32 {
    let mut largest = 0;
    for i in 0..pairs.items.len() {
        largest = larger(largest, largest_of_field(&pairs.items[i]));
    }
    largest
}

/// How many nodes the largest function in a field of a row has.
#[cycle(largest_function)]
fn largest_of_field(pair: &Pair) -> u32 {
    larger(largest_function(&pair.name), largest_function(&pair.value))
}

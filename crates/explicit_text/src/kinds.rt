//! Kinds.
use crate::tasks::{Tasks, argument_kind, behind, kind, word};
use con_terms::{Kind, Kinds};
use std::alloc::AllocError;

/// Prints the kind of tuples.
fn kind_tuple<'a>(tasks: &mut Tasks<'a>, kinds: &'a Kinds) -> Result<(), AllocError> {
    tasks.before(word(")"))?;
    let mut last = true;
    for component in kinds.items.iter().rev() {
        behind(tasks, "*", last)?;
        tasks.before(kind(component))?;
        last = false;
    }
    tasks.before(word("("))
}

/// Prints a kind.
pub fn print_kind<'a>(tasks: &mut Tasks<'a>, printed: &'a Kind) -> Result<(), AllocError> {
    match printed {
        Kind::Types => tasks.before(word("Type")),
        Kind::Units => tasks.before(word("Unit")),
        Kind::Names => tasks.before(word("Name")),
        Kind::Row(element) => tasks.first(&[word("{"), kind(element), word("}")]),
        Kind::Arrow(from, to) => tasks.first(&[argument_kind(from), word("->"), kind(to)]),
        Kind::Tuple(kinds) => kind_tuple(tasks, kinds),
    }
}

/// Prints a kind that stands before an arrow, in a tuple, or behind a name.
pub fn print_argument_kind<'a>(tasks: &mut Tasks<'a>, printed: &'a Kind) -> Result<(), AllocError> {
    match printed {
        Kind::Arrow(_, _) => tasks.first(&[word("("), kind(printed), word(")")]),
        _ => print_kind(tasks, printed),
    }
}

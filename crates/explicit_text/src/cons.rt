//! Constructors.
//!
//! A level says where a constructor stands: what binds less tightly is put in brackets there.
use crate::kinds::{print_argument_kind, print_kind};
use crate::printer::Style;
use crate::rows::{print_field_name, print_row, print_row_field};
use crate::tasks::{
    ConTask, Leaf, NameTask, Task, Tasks, argument_kind, behind, con, kind, name, word,
};
use con_terms::{Con, Cons, Kind};
use std::alloc::AllocError;

/// Anything may stand here.
pub const WHOLE: u32 = 0;

/// A row here may be put together with `++`.
pub const SUM: u32 = 1;

/// Here stands an application at most.
pub const APPLIED: u32 = 2;

/// Only what is one piece stands here.
pub const PIECE: u32 = 3;

/// The innermost constructor variable.
const INNERMOST: NameTask = NameTask::ConVariable(0);

/// How tightly a constructor binds.
fn level_of(con: &Con) -> u32 {
    match con {
        Con::Arrow(_, _) | Con::Poly(_, _, _) | Con::Guarded(_, _, _) | Con::Lambda(_, _) => WHOLE,
        Con::Cat(_, _) => SUM,
        Con::App(_, _) => APPLIED,
        _ => PIECE,
    }
}

/// `x :: k -> c`
fn poly<'a>(
    tasks: &mut Tasks<'a>,
    implicit: bool,
    parameter: &'a Kind,
    body: &'a Con,
) -> Result<(), AllocError> {
    tasks.first(&[
        Task::Leaf(Leaf::BindNew(parameter)),
        name(INNERMOST),
        word(if implicit { ":::" } else { "::" }),
        argument_kind(parameter),
        word("->"),
        con(body, WHOLE),
        Task::Leaf(Leaf::LeaveCon),
    ])
}

/// `fn x :: k => c`
fn lambda<'a>(tasks: &mut Tasks<'a>, parameter: &'a Kind, body: &'a Con) -> Result<(), AllocError> {
    tasks.first(&[
        word("fn"),
        Task::Leaf(Leaf::BindNew(parameter)),
        name(INNERMOST),
        word("::"),
        kind(parameter),
        word("=>"),
        con(body, WHOLE),
        Task::Leaf(Leaf::LeaveCon),
    ])
}

/// `[a ~ b] => c`
fn guarded<'a>(
    tasks: &mut Tasks<'a>,
    left: &'a Con,
    right: &'a Con,
    body: &'a Con,
) -> Result<(), AllocError> {
    tasks.first(&[
        word("["),
        con(left, SUM),
        word("~"),
        con(right, SUM),
        word("]"),
        word("=>"),
        con(body, WHOLE),
    ])
}

/// `(a, b)`
fn con_tuple<'a>(tasks: &mut Tasks<'a>, cons: &'a Cons) -> Result<(), AllocError> {
    tasks.before(word(")"))?;
    let mut last = true;
    for component in cons.items.iter().rev() {
        behind(tasks, ",", last)?;
        tasks.before(con(component, WHOLE))?;
        last = false;
    }
    tasks.before(word("("))
}

/// `c.1`: the first component is 1. Behind a `$` it would be read as that of the row, so that stands in brackets.
fn component<'a>(tasks: &mut Tasks<'a>, whole: &'a Con, component: u32) -> Result<(), AllocError> {
    tasks.first(&[
        word("."),
        Task::Leaf(Leaf::Number((component as u64).saturating_add(1))),
    ])?;
    match whole {
        Con::Record(_) => tasks.first(&[word("("), con(whole, WHOLE), word(")")]),
        _ => tasks.before(con(whole, PIECE)),
    }
}

/// Prints a constructor that is made of two others, or binds a variable.
fn con_of_two<'a>(tasks: &mut Tasks<'a>, printed: &'a Con) -> Result<(), AllocError> {
    match printed {
        Con::Arrow(from, to) => tasks.first(&[con(from, SUM), word("->"), con(to, WHOLE)]),
        Con::App(head, argument) => tasks.first(&[con(head, APPLIED), con(argument, PIECE)]),
        Con::Cat(left, right) => tasks.first(&[con(left, SUM), word("++"), con(right, APPLIED)]),
        Con::Poly(implicit, parameter, body) => poly(tasks, *implicit, parameter, body),
        Con::Lambda(parameter, body) => lambda(tasks, parameter, body),
        Con::Guarded(left, right, body) => guarded(tasks, left, right, body),
        _ => Ok(()),
    }
}

/// Prints a constructor that is a name or a sign.
fn con_of_one<'a>(
    style: &Style<'a>,
    tasks: &mut Tasks<'a>,
    printed: &'a Con,
) -> Result<(), AllocError> {
    match printed {
        Con::Var(number) => tasks.before(name(NameTask::ConVariable(*number))),
        Con::Basic(symbol) => tasks.before(name(NameTask::Basic(*symbol))),
        Con::Name(symbol) => tasks.before(name(NameTask::Label(*symbol))),
        Con::Map(_, _) => tasks.before(word("map")),
        Con::UnitCon => tasks.first(&[word("("), word(")")]),
        Con::Record(row) => tasks.first(&[word("$"), con(row, PIECE)]),
        Con::Row(_, pairs) => print_row(style, tasks, pairs),
        Con::Tuple(cons) => con_tuple(tasks, cons),
        Con::Proj(whole, place) => component(tasks, whole, *place),
        _ => con_of_two(tasks, printed),
    }
}

/// Prints a constructor where a level wants it.
fn print_con<'a>(
    style: &Style<'a>,
    tasks: &mut Tasks<'a>,
    printed: &'a Con,
    level: u32,
) -> Result<(), AllocError> {
    if level_of(printed) < level {
        tasks.first(&[word("("), con(printed, WHOLE), word(")")])
    } else {
        con_of_one(style, tasks, printed)
    }
}

/// Puts the tasks of a kind's or a constructor's parts in its place.
pub fn con_task<'a>(
    style: &Style<'a>,
    tasks: &mut Tasks<'a>,
    task: ConTask<'a>,
) -> Result<(), AllocError> {
    match task {
        ConTask::Kind(kind) => print_kind(tasks, kind),
        ConTask::ArgumentKind(kind) => print_argument_kind(tasks, kind),
        ConTask::Con(con, level) => print_con(style, tasks, con, level),
        ConTask::RowField(pair) => print_row_field(tasks, pair),
        ConTask::FieldName(name) => print_field_name(tasks, name),
    }
}

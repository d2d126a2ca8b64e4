//! Printing: the tasks one by one.
//!
//! Nothing here calls itself: what is inside something is put on a stack of tasks, so no nesting takes native stack.
use crate::cons::con_task;
use crate::known::Known;
use crate::names::print_name;
use crate::output::Output;
use crate::scope::Scope;
use crate::tasks::{Leaf, Task, Tasks};
use crate::terms::term_task;
use std::alloc::{AllocError, Global};

/// How many tasks are done for one call. More count as want of memory.
const TASKS: u64 = 1 << 40;

/// What a text is printed over: what is known of the program, and how its rows are written.
#[derive(Clone, Copy)]
pub struct Style<'a> {
    pub alloc: Global,
    pub known: &'a Known,
    /// The module whose declarations are printed, by its number.
    pub module: u32,
    /// Whether the literal names of a row are put in the order of their bytes.
    pub sorted: bool,
}

/// A text that grows, and what is in scope where it ends.
#[derive(Drop)]
pub struct Printer {
    pub output: Output,
    pub scope: Scope,
}

impl Printer {
    /// Nothing is printed yet, and nothing is in scope.
    pub fn new(alloc: Global) -> Printer {
        Printer {
            output: Output::new(alloc),
            scope: Scope::new(alloc),
        }
    }

    /// The text that was printed.
    pub fn into_text(self) -> String {
        let Printer { output, .. } = self;
        output.into_text()
    }
}

/// Changes what is in scope.
fn bind(style: &Style<'_>, scope: &mut Scope, leaf: &Leaf<'_>) -> Result<(), AllocError> {
    match *leaf {
        Leaf::BindNew(kind) => scope.bind_new(kind),
        Leaf::BindCon(name) => scope.bind_con(style.known, name),
        Leaf::BindValue(name, con) => scope.bind_value(style.known, name, con),
        Leaf::LeaveCon => {
            scope.leave_con();
            Ok(())
        }
        Leaf::LeaveValues(outside) => {
            scope.leave_values(outside);
            Ok(())
        }
        _ => Ok(()),
    }
}

/// Does a task that has no parts.
fn leaf(style: &Style<'_>, printer: &mut Printer, leaf: &Leaf<'_>) -> Result<(), AllocError> {
    match *leaf {
        Leaf::Word(word) => printer.output.word(word),
        Leaf::More(rest) => printer.output.more(rest),
        Leaf::Number(number) => printer.output.number(number),
        Leaf::Integer(number) => printer.output.integer(number),
        Leaf::Text(text) => printer.output.string(text),
        Leaf::EndLine => printer.output.end_line(),
        Leaf::Name(name) => print_name(style, &printer.scope, &mut printer.output, name),
        _ => bind(style, &mut printer.scope, leaf),
    }
}

/// Does a task, or puts those of its parts in its place.
fn step<'a>(
    style: &Style<'a>,
    printer: &mut Printer,
    tasks: &mut Tasks<'a>,
    task: &Task<'a>,
) -> Result<(), AllocError> {
    match *task {
        Task::Leaf(it) => leaf(style, printer, &it),
        Task::Con(it) => con_task(style, tasks, it),
        Task::Term(it) => term_task(tasks, printer.scope.depth(), it),
    }
}

/// Does all tasks.
pub fn run<'a>(
    style: &Style<'a>,
    printer: &mut Printer,
    tasks: &mut Tasks<'a>,
) -> Result<(), AllocError> {
    for _ in 0..TASKS {
        match tasks.pop() {
            Some(task) => step(style, printer, tasks, &task)?,
            None => return Ok(()),
        }
    }
    Err(AllocError)
}

//! Named terms, and what a `let` declares.
use crate::cons::WHOLE as CON_WHOLE;
use crate::tasks::{Leaf, Task, Tasks, TermTask, behind, con, symbol, term, word};
use crate::terms::WHOLE;
use core_terms::{Exp, Local, Locals, Named, NamedList};
use std::alloc::AllocError;

/// `x : t = e`
pub fn print_named<'a>(tasks: &mut Tasks<'a>, named: &'a Named) -> Result<(), AllocError> {
    tasks.first(&[
        symbol(named.name),
        word(":"),
        con(&named.con, CON_WHOLE),
        word("="),
        term(&named.exp, WHOLE),
    ])
}

/// `x : t = e and ..`
pub fn print_named_list<'a>(tasks: &mut Tasks<'a>, list: &'a NamedList) -> Result<(), AllocError> {
    let mut last = true;
    for named in list.items.iter().rev() {
        behind(tasks, "and", last)?;
        tasks.before(Task::Term(TermTask::Named(named)))?;
        last = false;
    }
    Ok(())
}

/// A name that comes into scope with its type.
fn bound<'a>(named: &'a Named) -> Task<'a> {
    Task::Leaf(Leaf::BindValue(named.name, &named.con))
}

/// Names come into scope, the last innermost.
fn bind_all<'a>(tasks: &mut Tasks<'a>, list: &'a NamedList) -> Result<(), AllocError> {
    for named in list.items.iter().rev() {
        tasks.before(bound(named))?;
    }
    Ok(())
}

/// A declaration of a `let`.
pub fn print_local<'a>(tasks: &mut Tasks<'a>, local: &'a Local) -> Result<(), AllocError> {
    match local {
        Local::Val(named) => {
            tasks.first(&[
                word("val"),
                Task::Term(TermTask::Named(named)),
                bound(named),
            ])
        }
        Local::ValRec(list) => {
            print_named_list(tasks, list)?;
            bind_all(tasks, list)?;
            tasks.first(&[word("val"), word("rec")])
        }
    }
}

/// `let .. in e end`. So many variables are in scope.
pub fn let_in<'a>(
    tasks: &mut Tasks<'a>,
    outside: usize,
    locals: &'a Locals,
    body: &'a Exp,
) -> Result<(), AllocError> {
    tasks.first(&[
        word("in"),
        term(body, WHOLE),
        word("end"),
        Task::Leaf(Leaf::LeaveValues(outside)),
    ])?;
    for local in locals.items.iter().rev() {
        tasks.before(Task::Term(TermTask::Local(local)))?;
    }
    tasks.before(word("let"))
}

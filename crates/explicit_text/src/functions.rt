//! Functions.
use crate::cons::SUM as CON_SUM;
use crate::pats::print_parameter;
use crate::tasks::{Leaf, Task, Tasks, con, kind, symbol, term, word};
use crate::terms::WHOLE;
use con_terms::{Con, Kind, Sym};
use core_terms::{Exp, Pat};
use std::alloc::AllocError;

/// `fn (p : t) => e`. So many variables are in scope.
pub fn function<'a>(
    tasks: &mut Tasks<'a>,
    outside: usize,
    pat: &'a Pat,
    of: &'a Con,
    body: &'a Exp,
) -> Result<(), AllocError> {
    tasks.first(&[
        word("=>"),
        term(body, WHOLE),
        Task::Leaf(Leaf::LeaveValues(outside)),
    ])?;
    print_parameter(tasks, pat, of)?;
    tasks.before(word("fn"))
}

/// `fn [x :: k] => e`
pub fn con_function<'a>(
    tasks: &mut Tasks<'a>,
    name: Sym,
    implicit: bool,
    parameter: &'a Kind,
    body: &'a Exp,
) -> Result<(), AllocError> {
    tasks.first(&[
        Task::Leaf(Leaf::BindCon(name)),
        term(body, WHOLE),
        Task::Leaf(Leaf::LeaveCon),
    ])?;
    tasks.first(&[
        word("fn"),
        word("["),
        symbol(name),
        word(if implicit { ":::" } else { "::" }),
        kind(parameter),
        word("]"),
        word("=>"),
    ])
}

/// `fn [c ~ d] => e`
pub fn guard_function<'a>(
    tasks: &mut Tasks<'a>,
    left: &'a Con,
    right: &'a Con,
    body: &'a Exp,
) -> Result<(), AllocError> {
    tasks.first(&[word("]"), word("=>"), term(body, WHOLE)])?;
    tasks.first(&[
        word("fn"),
        word("["),
        con(left, CON_SUM),
        word("~"),
        con(right, CON_SUM),
    ])
}

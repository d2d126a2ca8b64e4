//! Terms.
//!
//! A level says where a term stands: what binds less tightly is put in brackets there.
use crate::cons::{PIECE as CON_PIECE, SUM as CON_SUM, WHOLE as CON_WHOLE};
use crate::functions::{con_function, function, guard_function};
use crate::locals::{let_in, print_local, print_named};
use crate::markup::{print_attribute, print_element, print_join, print_literal};
use crate::pats::print_pat;
use crate::rows::print_row_names;
use crate::tasks::{
    Leaf, NameTask, Task, Tasks, TermTask, behind, con, field_name, name, term, word,
};
use con_terms::Con;
use core_terms::{Branch, Branches, Exp, Field, Fields, Form, Item, Items};
use std::alloc::AllocError;

/// Anything may stand here.
pub const WHOLE: u32 = 0;

/// Records may be put together here.
pub const SUM: u32 = 1;

/// Fields may be left out here.
pub const CUT: u32 = 2;

/// Here stands an application at most.
pub const APPLIED: u32 = 3;

/// Only what is one piece stands here.
pub const PIECE: u32 = 4;

/// How tightly a term binds. A literal of one node is that node.
fn level_of(exp: &Exp) -> u32 {
    match &exp.form {
        Form::Fn(_, _, _) | Form::FnCon(_, _, _, _, _) | Form::FnGuard(_, _, _) => WHOLE,
        Form::Case(_, _, _) => WHOLE,
        Form::Cat(_, _) => SUM,
        Form::Drop(_, _) | Form::DropRow(_, _) => CUT,
        Form::Call(_, _, items) if !items.items.is_empty() => APPLIED,
        Form::Literal(literal) if literal.nodes.items.len() != 1 => APPLIED,
        _ => PIECE,
    }
}

/// A term and what it is applied to.
fn call<'a>(tasks: &mut Tasks<'a>, head: &'a Exp, items: &'a Items) -> Result<(), AllocError> {
    for item in items.items.iter().rev() {
        tasks.before(Task::Term(TermTask::Item(item)))?;
    }
    tasks.before(term(head, PIECE))
}

/// `e`, `[c]` or `!`
fn print_item<'a>(tasks: &mut Tasks<'a>, item: &'a Item) -> Result<(), AllocError> {
    match item {
        Item::Term(exp) => tasks.before(term(exp, PIECE)),
        Item::Con(_, _, argument) => {
            tasks.first(&[word("["), con(argument, CON_WHOLE), word("]")])
        }
        Item::Guard(_, _) => tasks.before(word("!")),
    }
}

/// `case e of p => e | ..`
fn case<'a>(
    tasks: &mut Tasks<'a>,
    matched: &'a Exp,
    first: &'a Branch,
    others: &'a Branches,
) -> Result<(), AllocError> {
    let mut last = true;
    for branch in others.items.iter().rev() {
        tasks.first(&[word("|"), Task::Term(TermTask::Branch(branch, last))])?;
        last = false;
    }
    tasks.first(&[
        word("case"),
        term(matched, WHOLE),
        word("of"),
        Task::Term(TermTask::Branch(first, last)),
    ])
}

/// `p => e`. What ends in a `case` is in brackets where a branch follows.
fn print_branch<'a>(
    tasks: &mut Tasks<'a>,
    outside: usize,
    branch: &'a Branch,
    last: bool,
) -> Result<(), AllocError> {
    tasks.first(&[
        Task::Term(TermTask::Pat(&branch.pat, true)),
        word("=>"),
        term(&branch.body, if last { WHOLE } else { SUM }),
        Task::Leaf(Leaf::LeaveValues(outside)),
    ])
}

/// `(e : t)`
fn typed<'a>(tasks: &mut Tasks<'a>, inner: &'a Exp, of: &'a Con) -> Result<(), AllocError> {
    tasks.first(&[
        word("("),
        term(inner, WHOLE),
        word(":"),
        con(of, CON_WHOLE),
        word(")"),
    ])
}

/// `A = e`
fn field<'a>(tasks: &mut Tasks<'a>, field: &'a Field) -> Result<(), AllocError> {
    tasks.first(&[
        field_name(&field.name),
        word("="),
        term(&field.value, WHOLE),
    ])
}

/// `{A = e, ..}`
fn fields<'a>(tasks: &mut Tasks<'a>, fields: &'a Fields) -> Result<(), AllocError> {
    tasks.before(word("}"))?;
    let mut last = true;
    for it in fields.items.iter().rev() {
        behind(tasks, ",", last)?;
        field(tasks, it)?;
        last = false;
    }
    tasks.before(word("{"))
}

/// Prints a term that is a name, a number or a text.
fn atom<'a>(tasks: &mut Tasks<'a>, exp: &'a Exp) -> Result<(), AllocError> {
    match &exp.form {
        Form::Var(number) => tasks.before(name(NameTask::Variable(*number))),
        Form::Top(number) => tasks.before(name(NameTask::Top(*number))),
        Form::Foreign(number) => tasks.before(name(NameTask::Foreign(*number))),
        Form::Basis(it) => tasks.before(name(NameTask::Basis(*it))),
        Form::Fold(_) => tasks.first(&[word("@@"), word("fold")]),
        Form::Int(number) => tasks.before(Task::Leaf(Leaf::Integer(*number))),
        Form::Words(text) => tasks.before(Task::Leaf(Leaf::Text(text.as_str()))),
        Form::Build(symbol, place) => tasks.before(name(NameTask::Built(*symbol, *place))),
        Form::Sql(_, _) => tasks.before(word("_")),
        _ => Ok(()),
    }
}

/// Prints a term that is made of other terms by a sign.
fn joined<'a>(tasks: &mut Tasks<'a>, exp: &'a Exp) -> Result<(), AllocError> {
    match &exp.form {
        Form::Typed(inner, of) => typed(tasks, inner, of),
        Form::Proj(whole, field) => {
            tasks.first(&[term(whole, PIECE), word("."), field_name(field)])
        }
        Form::Cat(left, right) => tasks.first(&[term(left, SUM), word("++"), term(right, CUT)]),
        Form::Drop(whole, field) => {
            tasks.first(&[term(whole, CUT), word("--"), con(field, CON_PIECE)])
        }
        Form::DropRow(whole, row) => {
            tasks.first(&[term(whole, CUT), word("---"), con(row, CON_PIECE)])
        }
        _ => atom(tasks, exp),
    }
}

/// Prints a term that binds. So many variables are in scope.
fn binding<'a>(tasks: &mut Tasks<'a>, outside: usize, exp: &'a Exp) -> Result<(), AllocError> {
    match &exp.form {
        Form::Fn(pat, of, body) => function(tasks, outside, pat, of, body),
        Form::FnCon(name, implicit, _, kind, body) => {
            con_function(tasks, *name, *implicit, kind, body)
        }
        Form::FnGuard(left, right, body) => guard_function(tasks, left, right, body),
        Form::Let(locals, body) => let_in(tasks, outside, locals, body),
        Form::Case(matched, first, others) => case(tasks, matched, first, others),
        _ => joined(tasks, exp),
    }
}

/// Prints a term. So many variables are in scope.
fn form<'a>(tasks: &mut Tasks<'a>, outside: usize, exp: &'a Exp) -> Result<(), AllocError> {
    match &exp.form {
        Form::Call(head, _, items) => call(tasks, head, items),
        Form::Rec(it) => fields(tasks, it),
        Form::Folder(_, pairs) => {
            print_row_names(tasks, pairs)?;
            tasks.before(word("folder"))
        }
        Form::Element(element) => print_element(tasks, element),
        Form::Literal(literal) => print_literal(tasks, literal),
        _ => binding(tasks, outside, exp),
    }
}

/// Prints a term where a level wants it.
fn print_term<'a>(
    tasks: &mut Tasks<'a>,
    outside: usize,
    exp: &'a Exp,
    level: u32,
) -> Result<(), AllocError> {
    if level_of(exp) < level {
        tasks.first(&[word("("), term(exp, WHOLE), word(")")])
    } else {
        form(tasks, outside, exp)
    }
}

/// Puts the tasks of a term's parts in its place. So many variables are in scope.
pub fn term_task<'a>(
    tasks: &mut Tasks<'a>,
    outside: usize,
    task: TermTask<'a>,
) -> Result<(), AllocError> {
    match task {
        TermTask::Term(exp, level) => print_term(tasks, outside, exp, level),
        TermTask::Item(item) => print_item(tasks, item),
        TermTask::Pat(pat, bare) => print_pat(tasks, pat, bare),
        TermTask::Branch(branch, last) => print_branch(tasks, outside, branch, last),
        TermTask::Named(named) => print_named(tasks, named),
        TermTask::Local(local) => print_local(tasks, local),
        TermTask::Attribute(attribute) => print_attribute(tasks, attribute),
        TermTask::Join(context, uses, nodes, place) => {
            print_join(tasks, context, uses, nodes, place)
        }
    }
}

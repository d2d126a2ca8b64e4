//! Patterns. What they bind is in scope from where it is printed.
use crate::cons::WHOLE;
use crate::tasks::{Leaf, NameTask, Task, Tasks, behind, con, field_name, name, pat, symbol, word};
use con_terms::{Con, Sym};
use core_terms::{Pat, PatField, PatFields, PatForm};
use std::alloc::AllocError;

/// `(x : t)`
fn binder<'a>(tasks: &mut Tasks<'a>, bound: Sym, of: &'a Con) -> Result<(), AllocError> {
    tasks.first(&[
        word("("),
        symbol(bound),
        word(":"),
        con(of, WHOLE),
        word(")"),
        Task::Leaf(Leaf::BindValue(bound, of)),
    ])
}

/// A constructor and the pattern of what it holds.
fn holding<'a>(
    tasks: &mut Tasks<'a>,
    builder: NameTask,
    held: &'a Pat,
    bare: bool,
) -> Result<(), AllocError> {
    if bare {
        tasks.first(&[name(builder), pat(held, false)])
    } else {
        tasks.first(&[word("("), name(builder), pat(held, false), word(")")])
    }
}

/// `(p : t)`
fn typed_pat<'a>(tasks: &mut Tasks<'a>, inner: &'a Pat, of: &'a Con) -> Result<(), AllocError> {
    match &inner.form {
        PatForm::Bind(bound, _) => binder(tasks, *bound, of),
        _ => tasks.first(&[
            word("("),
            pat(inner, true),
            word(":"),
            con(of, WHOLE),
            word(")"),
        ]),
    }
}

/// `A = p`, and a comma where it isn't the last.
fn pat_field<'a>(tasks: &mut Tasks<'a>, field: &'a PatField, last: bool) -> Result<(), AllocError> {
    behind(tasks, ",", last)?;
    tasks.first(&[field_name(&field.name), word("="), pat(&field.pat, true)])
}

/// `{A = p, ...}`, and `{, ...}` where no field is named.
fn pat_fields<'a>(
    tasks: &mut Tasks<'a>,
    fields: &'a PatFields,
    more: bool,
) -> Result<(), AllocError> {
    tasks.before(word("}"))?;
    if more {
        tasks.before(word("..."))?;
        if fields.items.is_empty() {
            tasks.before(word(","))?;
        }
    }
    let mut last = !more;
    for field in fields.items.iter().rev() {
        pat_field(tasks, field, last)?;
        last = false;
    }
    tasks.before(word("{"))
}

/// Prints a pattern. `bare` is false where a constructor with what it holds needs brackets.
pub fn print_pat<'a>(
    tasks: &mut Tasks<'a>,
    printed: &'a Pat,
    bare: bool,
) -> Result<(), AllocError> {
    match &printed.form {
        PatForm::Any => tasks.before(word("_")),
        PatForm::Bind(bound, of) => binder(tasks, *bound, of),
        PatForm::Int(number) => tasks.before(Task::Leaf(Leaf::Integer(*number))),
        PatForm::Words(text) => tasks.before(Task::Leaf(Leaf::Text(text.as_str()))),
        PatForm::Build(symbol, place, None) => {
            tasks.before(name(NameTask::Builder(*symbol, *place)))
        }
        PatForm::Build(symbol, place, Some(held)) => {
            holding(tasks, NameTask::Builder(*symbol, *place), held, bare)
        }
        PatForm::Rec(fields, more) => pat_fields(tasks, fields, *more),
        PatForm::Typed(inner, of) => typed_pat(tasks, inner, of),
    }
}

/// The parameter of a function, with its type.
pub fn print_parameter<'a>(
    tasks: &mut Tasks<'a>,
    parameter: &'a Pat,
    of: &'a Con,
) -> Result<(), AllocError> {
    match &parameter.form {
        PatForm::Typed(inner, written) => typed_pat(tasks, inner, written),
        _ => typed_pat(tasks, parameter, of),
    }
}

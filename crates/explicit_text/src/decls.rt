//! Declarations.
use crate::cons::WHOLE;
use crate::locals::print_named_list;
use crate::tasks::{Leaf, Task, Tasks, TermTask, behind, con, kind, symbol, word};
use core_terms::{Columns, ConDecl, Constructor, Datatype, Decl, NamedList, Sort, Symbols, Thing};
use std::alloc::AllocError;

/// The module of the first of named terms, by its number.
fn module_of_list(list: &NamedList) -> u32 {
    match list.items.as_slice() {
        [first, ..] => first.place.file,
        [] => 0,
    }
}

/// The module of a declaration, by its number.
pub fn module_of(decl: &Decl) -> u32 {
    match decl {
        Decl::Val(_, named) => named.place.file,
        Decl::ValRec(_, list) => module_of_list(list),
        Decl::Con(con) => con.place.file,
        Decl::Datatype(datatype) => datatype.place.file,
        Decl::Thing(thing) => thing.place.file,
    }
}

/// `con x :: k = c`
fn con_decl<'a>(tasks: &mut Tasks<'a>, decl: &'a ConDecl) -> Result<(), AllocError> {
    tasks.first(&[
        word("con"),
        symbol(decl.name),
        word("::"),
        kind(&decl.kind),
        word("="),
        con(&decl.con, WHOLE),
    ])
}

/// `A of c`
fn constructor<'a>(tasks: &mut Tasks<'a>, constructor: &'a Constructor) -> Result<(), AllocError> {
    match &constructor.holds {
        Some(held) => { tasks.first(&[symbol(constructor.name), word("of"), con(held, WHOLE)]) }
        None => tasks.before(symbol(constructor.name)),
    }
}

/// The constructors of a datatype.
fn constructors<'a>(tasks: &mut Tasks<'a>, datatype: &'a Datatype) -> Result<(), AllocError> {
    let mut last = true;
    for it in datatype.constructors.items.iter().rev() {
        behind(tasks, "|", last)?;
        constructor(tasks, it)?;
        last = false;
    }
    tasks.before(word("="))
}

/// The parameters of a datatype, which come into scope.
fn parameters<'a>(tasks: &mut Tasks<'a>, names: &Symbols) -> Result<(), AllocError> {
    for name in names.items.iter().rev() {
        tasks.first(&[symbol(*name), Task::Leaf(Leaf::BindCon(*name))])?;
    }
    Ok(())
}

/// `datatype t a = A of c | B`; its parameters leave the scope behind it.
fn datatype_decl<'a>(tasks: &mut Tasks<'a>, datatype: &'a Datatype) -> Result<(), AllocError> {
    for _ in 0..datatype.parameters.items.len() {
        tasks.before(Task::Leaf(Leaf::LeaveCon))?;
    }
    constructors(tasks, datatype)?;
    parameters(tasks, &datatype.parameters)?;
    tasks.first(&[word("datatype"), symbol(datatype.name)])
}

/// `PRIMARY KEY (A, B)`
fn key<'a>(tasks: &mut Tasks<'a>, columns: &'a Columns) -> Result<(), AllocError> {
    if columns.items.is_empty() {
        return Ok(());
    }
    tasks.before(word(")"))?;
    let mut last = true;
    for column in columns.items.iter().rev() {
        behind(tasks, ",", last)?;
        tasks.before(symbol(column.name))?;
        last = false;
    }
    tasks.first(&[word("PRIMARY"), word("KEY"), word("(")])
}

/// A value without a term, with its type.
fn typed_thing<'a>(
    tasks: &mut Tasks<'a>,
    sort: &'static str,
    thing: &'a Thing,
) -> Result<(), AllocError> {
    tasks.first(&[
        word(sort),
        symbol(thing.name),
        word(":"),
        con(&thing.con, WHOLE),
    ])
}

/// A value without a term.
fn thing<'a>(tasks: &mut Tasks<'a>, thing: &'a Thing) -> Result<(), AllocError> {
    match &thing.sort {
        Sort::Sequence => tasks.first(&[word("sequence"), symbol(thing.name)]),
        Sort::Table(columns) => {
            key(tasks, columns)?;
            typed_thing(tasks, "table", thing)
        }
        Sort::Cookie => typed_thing(tasks, "cookie", thing),
        Sort::Given => typed_thing(tasks, "val", thing),
    }
}

/// `val rec x : t = e and ..`
fn group<'a>(tasks: &mut Tasks<'a>, list: &'a NamedList) -> Result<(), AllocError> {
    print_named_list(tasks, list)?;
    tasks.first(&[word("val"), word("rec")])
}

/// Prints a declaration, and ends its line.
pub fn print_decl<'a>(tasks: &mut Tasks<'a>, decl: &'a Decl) -> Result<(), AllocError> {
    tasks.before(Task::Leaf(Leaf::EndLine))?;
    match decl {
        Decl::Val(_, named) => { tasks.first(&[word("val"), Task::Term(TermTask::Named(named))]) }
        Decl::ValRec(_, list) => group(tasks, list),
        Decl::Con(it) => con_decl(tasks, it),
        Decl::Datatype(datatype) => datatype_decl(tasks, datatype),
        Decl::Thing(it) => thing(tasks, it),
    }
}

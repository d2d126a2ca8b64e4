//! What is still to be printed.
use con_terms::{Con, Kind, Pair, Sym};
use core_terms::{Attribute, BasisName, Branch, Exp, Item, Local, Named, Node, Pat};
use std::alloc::{AllocError, Global};

/// Something that is still to be printed, or to be done before what follows is printed.
#[derive(Clone, Copy)]
pub enum Task<'a> {
    /// A token, a name, or a change of what is in scope.
    Leaf(Leaf<'a>),
    /// A kind, or a constructor or a part of one.
    Con(ConTask<'a>),
    /// A term or a part of one.
    Term(TermTask<'a>),
}

/// What has no parts that are printed by further tasks.
#[derive(Clone, Copy)]
pub enum Leaf<'a> {
    /// A token.
    Word(&'a str),
    /// What goes on with the last token.
    More(&'a str),
    /// A number.
    Number(u64),
    /// An integer, a negative one with its sign as a token of its own.
    Integer(i64),
    /// A string.
    Text(&'a str),
    /// The line ends.
    EndLine,
    /// A name.
    Name(NameTask),
    /// A constructor variable comes into scope, under a name of its own or under its name, or leaves it.
    BindNew(&'a Kind),
    BindCon(Sym),
    LeaveCon,
    /// A variable of a type comes into scope; all but the outermost ones leave it.
    BindValue(Sym, &'a Con),
    LeaveValues(usize),
}

/// A name.
#[derive(Clone, Copy)]
pub enum NameTask {
    /// A symbol's text.
    Symbol(Sym),
    /// A name as a constructor.
    Label(Sym),
    /// The name of a type.
    Basic(Sym),
    /// A constructor variable, and a variable.
    ConVariable(u32),
    Variable(u32),
    /// A top-level value, a foreign effect, and a value of the basis.
    Top(u32),
    Foreign(u32),
    Basis(BasisName),
    /// A constructor of a datatype, in patterns and in terms.
    Builder(Sym, u32),
    Built(Sym, u32),
}

/// A kind, or a constructor or a part of one.
#[derive(Clone, Copy)]
pub enum ConTask<'a> {
    /// A kind, and a kind that stands before an arrow, in a tuple, or behind a name.
    Kind(&'a Kind),
    ArgumentKind(&'a Kind),
    /// A constructor, where a level wants it.
    Con(&'a Con, u32),
    /// A field of a row.
    RowField(&'a Pair),
    /// The name of a field.
    FieldName(&'a Con),
}

/// A term or a part of one.
#[derive(Clone, Copy)]
pub enum TermTask<'a> {
    /// A term, where a level wants it.
    Term(&'a Exp, u32),
    /// What a term is applied to.
    Item(&'a Item),
    /// A pattern; the flag is false where a constructor with what it holds needs brackets.
    Pat(&'a Pat, bool),
    /// A branch, and whether it is the last.
    Branch(&'a Branch, bool),
    /// A name with its type and its term.
    Named(&'a Named),
    /// A declaration of a `let`.
    Local(&'a Local),
    /// An attribute.
    Attribute(&'a Attribute),
    /// The call of `join` for the node at a place, in a context, behind fields that are filled before.
    Join(&'a Con, &'a Con, &'a [Node], usize),
}

/// A token.
pub fn word<'a>(word: &'a str) -> Task<'a> {
    Task::Leaf(Leaf::Word(word))
}

/// What goes on with the last token.
pub fn more<'a>(rest: &'a str) -> Task<'a> {
    Task::Leaf(Leaf::More(rest))
}

/// A name.
pub fn name<'a>(name: NameTask) -> Task<'a> {
    Task::Leaf(Leaf::Name(name))
}

/// A symbol's text.
pub fn symbol<'a>(symbol: Sym) -> Task<'a> {
    Task::Leaf(Leaf::Name(NameTask::Symbol(symbol)))
}

/// A kind.
pub fn kind<'a>(kind: &'a Kind) -> Task<'a> {
    Task::Con(ConTask::Kind(kind))
}

/// A kind that stands before an arrow, in a tuple, or behind a name.
pub fn argument_kind<'a>(kind: &'a Kind) -> Task<'a> {
    Task::Con(ConTask::ArgumentKind(kind))
}

/// A constructor, where a level wants it.
pub fn con<'a>(con: &'a Con, level: u32) -> Task<'a> {
    Task::Con(ConTask::Con(con, level))
}

/// The name of a field.
pub fn field_name<'a>(name: &'a Con) -> Task<'a> {
    Task::Con(ConTask::FieldName(name))
}

/// A term, where a level wants it.
pub fn term<'a>(exp: &'a Exp, level: u32) -> Task<'a> {
    Task::Term(TermTask::Term(exp, level))
}

/// A pattern; the flag is false where a constructor with what it holds needs brackets.
pub fn pat<'a>(pat: &'a Pat, bare: bool) -> Task<'a> {
    Task::Term(TermTask::Pat(pat, bare))
}

/// Puts a sign before all other tasks, unless nothing is to stand behind it.
pub fn behind<'a>(tasks: &mut Tasks<'a>, sign: &'a str, last: bool) -> Result<(), AllocError> {
    if last {
        Ok(())
    } else {
        tasks.before(word(sign))
    }
}

/// Tasks, the next last.
#[derive(Drop)]
pub struct Tasks<'a> {
    items: Vec<Task<'a>>,
}

impl<'a> Tasks<'a> {
    /// No tasks.
    pub fn new(alloc: Global) -> Tasks<'a> {
        Tasks {
            items: Vec::new(alloc),
        }
    }

    /// Puts a task before all others.
    pub fn before(&mut self, task: Task<'a>) -> Result<(), AllocError> {
        self.items.push(task)?;
        Ok(())
    }

    /// Puts tasks before all others, the first of them first.
    pub fn first(&mut self, tasks: &[Task<'a>]) -> Result<(), AllocError> {
        for task in tasks.iter().rev() {
            self.items.push(*task)?;
        }
        Ok(())
    }

    /// Takes the next task.
    pub fn pop(&mut self) -> Option<Task<'a>> {
        self.items.pop()
    }
}

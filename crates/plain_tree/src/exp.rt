//! Terms, with the markup that stands in them.
use crate::arg::Args;
use crate::con::Con;
use crate::names::{Basis, Infix, Path, Sigil, Word};
use crate::pat::Pat;
use crate::sql::Sql;
use table_rows::Text;

/// A term. Contracts see it as `exp_tree`.
#[cycle(exp)]
#[derive(Drop)]
pub struct Exp {
    pub at: u32,
    pub form: Form,
}

/// What a term is.
#[cycle(exp)]
#[derive(Drop)]
pub enum Form {
    /// A number.
    Int(u64),
    /// A text.
    Words(Text),
    /// A value, as `M.x`. Alone it is a call without arguments.
    Name(Sigil, Path),
    /// A constructor of a datatype, as `M.X`. Alone it is a call without arguments.
    Builder(Sigil, Path),
    /// A value of the basis that sugar stands for. No declaration of the source hides it.
    Basis(Basis),
    /// A term with what it is applied to.
    Call(Box<Exp>, Items),
    /// `fn .. => e`
    Fn(Args, Box<Exp>),
    /// `case e of p => e | ..`; the first branch stands apart.
    Case(Box<Exp>, Box<Branch>, Branches),
    /// `let .. in e end`
    Let(Locals, Box<Exp>),
    /// `(e : c)`
    Typed(Box<Exp>, Con),
    /// `{c = e, ..}`
    Rec(Fields),
    /// A term, and what follows it from left to right.
    Chain(Box<Exp>, Links),
    /// `<xml>..</xml>`
    Xml(Nodes),
    /// A query, or a change of a table, and the terms that stand in it, from left to right.
    Sql(Box<Sql>, Exps),
}

/// Terms in order.
#[cycle(exp)]
#[derive(Drop)]
pub struct Exps {
    pub items: Vec<Exp>,
}

/// What a term is applied to.
#[cycle(exp)]
#[derive(Drop)]
pub enum Item {
    /// A term.
    Term(Exp),
    /// `[c]`, at its bracket.
    Con(u32, Con),
    /// `!`
    Guard(u32),
}

/// What a term is applied to, from left to right.
#[cycle(exp)]
#[derive(Drop)]
pub struct Items {
    pub items: Vec<Item>,
}

/// What follows a term in a chain. All before it is its left side.
#[cycle(exp)]
#[derive(Drop)]
pub enum Link {
    /// An operator at its place, and its right side.
    Infix(u32, Infix, Exp),
    /// `.c`
    Field(Con),
    /// `-- c`
    Without(u32, Con),
    /// `--- c`
    WithoutRow(u32, Con),
}

/// What follows a term in a chain, from left to right.
#[cycle(exp)]
#[derive(Drop)]
pub struct Links {
    pub items: Vec<Link>,
}

/// A branch of a `case`.
#[cycle(exp)]
#[derive(Drop)]
pub struct Branch {
    pub at: u32,
    pub pat: Pat,
    pub body: Exp,
}

/// Branches in order.
#[cycle(exp)]
#[derive(Drop)]
pub struct Branches {
    pub items: Vec<Branch>,
}

/// A field of a record.
#[cycle(exp)]
#[derive(Drop)]
pub struct Field {
    pub at: u32,
    pub name: Con,
    pub value: Exp,
}

/// The fields of a record, as written.
#[cycle(exp)]
#[derive(Drop)]
pub struct Fields {
    pub items: Vec<Field>,
}

/// A name with its term, and its type where that is written.
#[cycle(exp)]
#[derive(Drop)]
pub struct Named {
    pub name: Word,
    pub con: Option<Con>,
    pub exp: Exp,
}

/// Names that may be used in each other's terms.
#[cycle(exp)]
#[derive(Drop)]
pub struct NamedList {
    pub items: Vec<Named>,
}

/// A declaration of values, at its first word.
#[cycle(exp)]
#[derive(Drop)]
pub enum Local {
    /// `val x = e`
    Val(u32, Named),
    /// `val rec x : c = e and ..`, or `fun ..`
    ValRec(u32, NamedList),
}

/// The declarations of a `let`, in order.
#[cycle(exp)]
#[derive(Drop)]
pub struct Locals {
    pub items: Vec<Local>,
}

/// What stands in an element, or in an XML literal.
#[cycle(exp)]
#[derive(Drop)]
pub enum Node {
    /// A text.
    Run(u32, Text),
    /// `{e}`, at its brace; `{[e]}` is the basis value `txt` of the term.
    Exp(u32, Exp),
    /// `<name{c} ..>..</name>`
    Element(u32, Text, Option<Con>, Attributes, Nodes),
}

/// Nodes in order.
#[cycle(exp)]
#[derive(Drop)]
pub struct Nodes {
    pub items: Vec<Node>,
}

/// An attribute of an element.
#[cycle(exp)]
#[derive(Drop)]
pub struct Attribute {
    pub name: Word,
    pub value: Exp,
}

/// The attributes of an element, as written.
#[cycle(exp)]
#[derive(Drop)]
pub struct Attributes {
    pub items: Vec<Attribute>,
}

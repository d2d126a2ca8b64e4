//! Terms.
//!
//! The place of a term, a pattern, a branch, a field, an attribute or a name is that of its first token
//! in the source. A flag beside a type or a kind says whether the source has it; a flag beside an item
//! or a term whether it was inserted.
use crate::basis::BasisName;
use crate::pat::Pat;
use crate::sql::Skeleton;
use con_terms::{Con, Kind, Pairs, Place, Sym};
use table_rows::Text;
use xml_trees::{AttrName, TagName};

/// A term. Contracts see it as the tree `exp_tree`.
#[cycle(exp)]
#[derive(Drop)]
pub struct Exp {
    pub place: Place,
    /// Whether it was inserted, so that the source doesn't have it.
    pub added: bool,
    pub form: Form,
}

/// What stands before the head of a call in the source.
#[derive(Clone, Copy, Debug, PartialEq, Eq)]
pub enum Sigil {
    /// Nothing: implicit constructors, guards, folders and instances are inserted.
    Plain,
    /// `@`: implicit constructors alone are inserted. Guards, folders and instances are the writer's.
    At,
    /// `@@`: nothing is inserted. Implicit constructors are the writer's too.
    AtAt,
}

/// Where a constructor that a term is applied to comes from.
#[derive(Clone, Copy, Debug, PartialEq, Eq)]
pub enum ConOrigin {
    Written,
    Inserted,
    /// The source has `_`, for which the constructor was found.
    Wild,
}

/// What a term is.
#[cycle(exp)]
#[derive(Drop)]
pub enum Form {
    /// What the binder that is so many binders further out binds.
    Var(u32),
    /// The top-level value with this number.
    Top(u32),
    /// The foreign effect with this number.
    Foreign(u32),
    /// A value of the basis.
    Basis(BasisName),
    /// `fold`, over rows of this kind.
    Fold(Kind),
    Int(i64),
    Words(Text),
    /// A constructor of a datatype: the datatype's symbol, and the constructor's place in it.
    Build(Sym, u32),
    /// `fn p => e`, with the type of what it takes. What the source says of that type stands in `p`.
    Fn(Box<Pat>, Con, Box<Exp>),
    /// `fn [x :: k] => e`, or `fn [x ::: k] => e` where the first flag is true
    FnCon(Sym, bool, bool, Kind, Box<Exp>),
    /// `fn [c ~ d] => e`
    FnGuard(Box<Con>, Box<Con>, Box<Exp>),
    /// A term with what it is applied to.
    Call(Box<Exp>, Sigil, Items),
    /// `let .. in e end`
    Let(Locals, Box<Exp>),
    /// `case e of p => e | ..`
    Case(Box<Exp>, Box<Branch>, Branches),
    /// `(e : t)`
    Typed(Box<Exp>, Con),
    /// `{c = e, ..}`
    Rec(Fields),
    /// `e.c`
    Proj(Box<Exp>, Con),
    /// `e1 ++ e2`
    Cat(Box<Exp>, Box<Exp>),
    /// `e -- c`
    Drop(Box<Exp>, Con),
    /// `e --- c`
    DropRow(Box<Exp>, Con),
    /// The folder of a row whose values have this kind.
    Folder(Kind, Pairs),
    /// An element of a page.
    Element(Box<Element>),
    /// `<xml> .. </xml>`
    Literal(Box<Literal>),
    /// A form of SQL: its text with numbered holes, and the terms in these, in text order.
    Sql(Skeleton, Exps),
}

/// What a term is applied to.
#[cycle(exp)]
#[derive(Drop)]
pub enum Item {
    /// A term; an inserted one is a folder or an instance.
    Term(Exp),
    /// A constructor, and where it comes from.
    Con(Place, ConOrigin, Con),
    /// A guard's proof, and whether it was inserted.
    Guard(Place, bool),
}

/// What a term is applied to, from left to right.
#[cycle(exp)]
#[derive(Drop)]
pub struct Items {
    pub items: Vec<Item>,
}

/// A name with its term, its type and whether that was written.
#[cycle(exp)]
#[derive(Drop)]
pub struct Named {
    pub place: Place,
    pub name: Sym,
    pub written: bool,
    pub con: Con,
    pub exp: Exp,
}

/// Names that may be used in each other's terms.
#[cycle(exp)]
#[derive(Drop)]
pub struct NamedList {
    pub items: Vec<Named>,
}

/// A declaration of a `let`.
#[cycle(exp)]
#[derive(Drop)]
pub enum Local {
    Val(Named),
    ValRec(NamedList),
}

/// The declarations of a `let`, in order.
#[cycle(exp)]
#[derive(Drop)]
pub struct Locals {
    pub items: Vec<Local>,
}

/// A branch of a `case`.
#[cycle(exp)]
#[derive(Drop)]
pub struct Branch {
    pub place: Place,
    pub pat: Pat,
    pub body: Exp,
}

/// Branches in order.
#[cycle(exp)]
#[derive(Drop)]
pub struct Branches {
    pub items: Vec<Branch>,
}

/// A field of a record.
#[cycle(exp)]
#[derive(Drop)]
pub struct Field {
    pub place: Place,
    pub name: Con,
    pub value: Exp,
}

/// The fields of a record, as written.
#[cycle(exp)]
#[derive(Drop)]
pub struct Fields {
    pub items: Vec<Field>,
}

/// The name of the field that an input fills.
#[derive(Drop)]
pub struct InputName {
    pub place: Place,
    pub name: Con,
}

/// An element of a page: its tag, the field that an input fills, the rows that were found for its
/// place, its attributes, and the nodes that it holds.
#[cycle(exp)]
#[derive(Drop)]
pub struct Element {
    pub tag: TagName,
    pub field: Option<InputName>,
    /// Where it stands, as a row of units.
    pub context: Con,
    /// The fields of the form that are filled before it.
    pub uses: Con,
    pub attributes: Attributes,
    pub content: Nodes,
}

/// A literal of a page: the rows that were found for its place, and its nodes.
#[cycle(exp)]
#[derive(Drop)]
pub struct Literal {
    /// Where it stands, as a row of units.
    pub context: Con,
    /// The fields of the form that are filled before it.
    pub uses: Con,
    pub nodes: Nodes,
}

/// A node of an element or of a literal.
#[cycle(exp)]
#[derive(Drop)]
pub struct Node {
    /// The fields of the form that it fills.
    pub fills: Con,
    pub term: Exp,
}

/// Nodes in order. They stand beside one another and nest nothing.
#[cycle(exp)]
#[derive(Drop)]
pub struct Nodes {
    pub items: Vec<Node>,
}

/// An attribute of an element.
#[cycle(exp)]
#[derive(Drop)]
pub struct Attribute {
    pub place: Place,
    pub name: AttrName,
    pub value: Exp,
}

/// The attributes of an element, as written.
#[cycle(exp)]
#[derive(Drop)]
pub struct Attributes {
    pub items: Vec<Attribute>,
}

/// Terms in order.
#[cycle(exp)]
#[derive(Drop)]
pub struct Exps {
    pub items: Vec<Exp>,
}

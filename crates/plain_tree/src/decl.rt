//! Declarations, modules and interfaces.
use crate::con::Con;
use crate::exp::Local;
use crate::names::{Word, Words};
use con_terms::Kind;

/// A declaration of a module. Contracts see it as `decl_tree`.
#[derive(Drop)]
pub enum Decl {
    Value(Local),
    Con(TypeDecl),
    Datatype(Datatype),
    Table(Table),
    /// `sequence x`, at its first word.
    Sequence(u32, Word),
    Cookie(Cookie),
}

/// `con x :: k = c`, or `type x = c`, whose kind is Type.
#[derive(Drop)]
pub struct TypeDecl {
    pub at: u32,
    pub name: Word,
    pub kind: Option<Kind>,
    pub con: Con,
}

/// A datatype with its parameters and constructors.
#[derive(Drop)]
pub struct Datatype {
    pub at: u32,
    pub name: Word,
    pub parameters: Words,
    pub builders: Builders,
}

/// A constructor of a datatype.
#[derive(Drop)]
pub struct DatatypeBuilder {
    pub name: Word,
    pub holds: Option<Con>,
}

/// The constructors of a datatype, in order.
#[derive(Drop)]
pub struct Builders {
    pub items: Vec<DatatypeBuilder>,
}

/// `table x : c PRIMARY KEY (A, ..)`; without a key no column stands in it.
#[derive(Drop)]
pub struct Table {
    pub at: u32,
    pub name: Word,
    pub con: Con,
    pub key: Words,
}

/// `cookie x : c`
#[derive(Drop)]
pub struct Cookie {
    pub at: u32,
    pub name: Word,
    pub con: Con,
}

/// Declarations in order.
#[derive(Drop)]
pub struct Decls {
    pub items: Vec<Decl>,
}

/// A module without sugar. Contracts see it as `plain_view`.
#[derive(Drop)]
pub struct Plain {
    pub decls: Decls,
}

/// `val x : c` of an interface.
#[derive(Drop)]
pub struct Signed {
    pub at: u32,
    pub name: Word,
    pub con: Con,
}

/// An interface. Contracts see it as `interface_view`.
#[derive(Drop)]
pub struct Interface {
    pub items: Vec<Signed>,
}

//! Declarations.
//!
//! The path of a declaration has the names of the structures around it in its module, from the
//! outside inwards.
use crate::exp::{Named, NamedList};
use crate::names::Symbols;
use con_terms::{Con, Kind, Place, Sym};

/// A declaration of a module. Contracts see it as `decl_tree`.
#[derive(Drop)]
pub enum Decl {
    /// `val x : t = e`, with its path.
    Val(Symbols, Named),
    /// `val rec x : t = e and ..`, with their path.
    ValRec(Symbols, NamedList),
    Con(ConDecl),
    Datatype(Datatype),
    Thing(Thing),
}

/// `con x :: k = c`, and whether the kind was written. Other declarations hold `c` itself.
#[derive(Drop)]
pub struct ConDecl {
    pub path: Symbols,
    pub place: Place,
    pub name: Sym,
    pub written: bool,
    pub kind: Kind,
    pub con: Con,
}

/// A datatype.
#[derive(Drop)]
pub struct Datatype {
    pub path: Symbols,
    pub place: Place,
    /// The number of its module in the list of modules; none for a datatype that every program has.
    pub module: Option<u32>,
    /// Its name in the source, which others may have too.
    pub name: Sym,
    /// The basic name of its type, which no other type has.
    pub symbol: Sym,
    /// The names of the types that it takes.
    pub parameters: Symbols,
    pub constructors: Constructors,
}

/// A constructor of a datatype. In what it holds, number 0 is the datatype's last parameter.
#[derive(Drop)]
pub struct Constructor {
    pub place: Place,
    pub name: Sym,
    pub holds: Option<Con>,
}

/// The constructors of a datatype, in order.
#[derive(Drop)]
pub struct Constructors {
    pub items: Vec<Constructor>,
}

/// A value without a term: its name, its type, and what it is.
#[derive(Drop)]
pub struct Thing {
    pub path: Symbols,
    pub place: Place,
    pub name: Sym,
    pub con: Con,
    pub sort: Sort,
}

/// What a value without a term is.
#[derive(Drop)]
pub enum Sort {
    /// A table, with the columns of its key.
    Table(Columns),
    Sequence,
    Cookie,
    /// An item of a functor's parameter.
    Given,
}

/// The name of a column.
#[derive(Drop)]
pub struct Column {
    pub place: Place,
    pub name: Sym,
}

/// Columns as written.
#[derive(Drop)]
pub struct Columns {
    pub items: Vec<Column>,
}

/// Declarations in order.
#[derive(Drop)]
pub struct Decls {
    pub items: Vec<Decl>,
}

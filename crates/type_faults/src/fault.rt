//! What is told of a program, as values.
//!
//! A fault that keeps constructors keeps what the constructor variables in scope are called, the innermost first.
use con_terms::{Con, Kind, Place, Sym};
use core_terms::{AttrName, Symbols};
use disjoint_prover::fault::Pieces;
use kind_rules::Differing;
use table_rows::{Text, Texts};

/// Two types' normal forms that differ.
#[derive(Drop)]
pub struct Types {
    pub wanted: Con,
    pub found: Con,
}

/// What isn't bound.
#[derive(Drop)]
pub enum Name {
    /// A variable, by the number of binders between.
    Variable(u32),
    /// A top-level value, by its number.
    Value(u32),
    /// A foreign effect, by its number.
    Effect(u32),
    /// A constructor variable, by the number of binders between.
    ConVariable(u32),
    /// A basic name of a type, or a datatype.
    Symbol(Sym),
    /// A constructor of a datatype, by its place in it.
    Constructor(Sym, u32),
    /// An attribute that the tag hasn't.
    Attribute(AttrName),
    /// A folder for rows of this kind.
    Folder(Kind),
    /// The name of the field that an input fills.
    InputName,
}

/// A name that is declared twice.
#[derive(Drop)]
pub enum Twice {
    Constructor(Sym),
    Attribute(AttrName),
    /// The address of an entry, part by part.
    Entry(Texts),
}

/// A field of a shape, by its name in normal form.
#[cycle(shape)]
#[derive(Drop)]
pub struct ShapeField {
    pub name: Con,
    pub shape: Shape,
}

/// Fields of a shape.
#[cycle(shape)]
#[derive(Drop)]
pub struct ShapeFields {
    pub items: Vec<ShapeField>,
}

/// A shape of values. Contracts see it as `shape_tree`.
#[cycle(shape)]
#[derive(Drop)]
pub enum Shape {
    /// Any value.
    Leaf,
    Number(i64),
    Words(Text),
    /// A constructor that holds nothing: its datatype's symbol, and its place in it.
    Bare(Sym, u32),
    /// A constructor with what it holds.
    Holding(Sym, u32, Box<Shape>),
    Record(ShapeFields),
}

/// What is at fault, and where. Contracts see it as `fault_tree`.
#[derive(Drop)]
pub enum Fault {
    Unbound(Place, Name),
    KindMismatch(Place, Box<Differing>),
    Mismatch(Place, Symbols, Box<Types>),
    /// Two pieces of rows that aren't separated, closed by the binders of a constructor under which they touch.
    NotDisjoint(Place, Symbols, Box<Pieces>),
    /// A shape that no pattern takes.
    Inexhaustive(Place, Symbols, Box<Shape>),
    Redeclared(Place, Twice),
    LinkNotCall(Place),
    NotSerialisable(Place),
    TooLarge(Place),
    /// A form of term or of declaration for which there are no rules yet.
    NotBuilt(Place),
}

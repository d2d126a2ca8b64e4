//! The shapes of values that travel in a link, a form or a cookie.
use crate::Text;

/// The shape of a value of one type. Contracts see it as the tree `shape_tree`.
#[cycle(shape)]
#[derive(Drop)]
pub enum Shape {
    /// A whole number.
    Int,
    /// A text.
    Words,
    /// The record without fields.
    Unit,
    /// `True` or `False`.
    Truth,
    /// A record with these fields, in the byte order of their names.
    Rec(Parts),
    /// A value of the datatype with this number, at these arguments.
    Data(u32, Arguments),
    /// In a datatype, the argument with this number, the first having 0.
    Parameter(u32),
}

/// A list of shapes: those of a function's arguments, or those that a datatype is taken at.
#[cycle(shape)]
#[derive(Drop)]
pub struct Arguments {
    pub items: Vec<Shape>,
}

/// A field of a record, and its shape.
#[cycle(shape)]
#[derive(Drop)]
pub struct Part {
    pub name: Text,
    pub shape: Shape,
}

/// The fields of a record.
#[cycle(shape)]
#[derive(Drop)]
pub struct Parts {
    pub items: Vec<Part>,
}

/// A constructor of a datatype, and the shape of what it holds.
#[derive(Drop)]
pub struct Case {
    pub name: Text,
    pub holds: Option<Shape>,
}

/// A datatype by its constructors. `Parameter` stands in them for its arguments.
#[derive(Drop)]
pub struct Datatype {
    pub cases: Vec<Case>,
}

/// The datatypes that shapes name by their places.
#[derive(Drop)]
pub struct Datatypes {
    pub items: Vec<Datatype>,
}

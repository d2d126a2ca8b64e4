//! Patterns.
use crate::con::Con;
use crate::names::Builder;
use table_rows::Text;

/// A pattern. Contracts see it as `pat_tree`.
#[cycle(pat)]
#[derive(Drop)]
pub struct Pat {
    pub at: u32,
    pub form: PatForm,
}

/// What a pattern is.
#[cycle(pat)]
#[derive(Drop)]
pub enum PatForm {
    /// `_`
    Any,
    /// A variable.
    Bind(Text),
    /// A number, and whether `-` stands before it.
    Int(bool, u64),
    /// A text.
    Words(Text),
    /// A constructor of a datatype that holds nothing.
    Bare(Builder),
    /// A constructor of a datatype, and the pattern of what it holds.
    Holding(Builder, Box<Pat>),
    /// `{c = p, ..}`, and whether further fields may stand beside these.
    Rec(PatFields, bool),
    /// `(p : c)`
    Typed(Box<Pat>, Con),
}

/// A field of a record pattern.
#[cycle(pat)]
#[derive(Drop)]
pub struct PatField {
    pub at: u32,
    pub name: Con,
    pub pat: Pat,
}

/// The fields of a record pattern, as written.
#[cycle(pat)]
#[derive(Drop)]
pub struct PatFields {
    pub items: Vec<PatField>,
}

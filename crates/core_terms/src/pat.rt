//! Patterns.
use con_terms::{Con, Place, Sym};
use table_rows::Text;

/// A pattern. Contracts see it as the tree `pat_tree`.
#[cycle(pat)]
#[derive(Drop)]
pub struct Pat {
    pub place: Place,
    pub form: PatForm,
}

/// What a pattern is.
#[cycle(pat)]
#[derive(Drop)]
pub enum PatForm {
    /// `_`
    Any,
    /// A variable: its name, and its type, which no source has there: `(x : t)` is `Typed`.
    Bind(Sym, Con),
    Int(i64),
    Words(Text),
    /// A constructor: its datatype's symbol, its place in it, and the pattern of what it holds.
    Build(Sym, u32, Option<Box<Pat>>),
    /// Fields, and whether further ones may stand beside them.
    Rec(PatFields, bool),
    /// `(p : t)`
    Typed(Box<Pat>, Con),
}

/// A field of a record pattern.
#[cycle(pat)]
#[derive(Drop)]
pub struct PatField {
    pub place: Place,
    pub name: Con,
    pub pat: Pat,
}

/// The fields of a record pattern.
#[cycle(pat)]
#[derive(Drop)]
pub struct PatFields {
    pub items: Vec<PatField>,
}

/// A list of patterns.
#[derive(Drop)]
pub struct Pats {
    pub items: Vec<Pat>,
}

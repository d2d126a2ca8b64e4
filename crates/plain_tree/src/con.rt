//! Constructors of the type level.
use crate::names::{Label, Numbers, Path, Places};
use con_terms::Kind;
use table_rows::Text;

/// A constructor of the type level. Contracts see it as `con_tree`.
#[cycle(con)]
#[derive(Drop)]
pub struct Con {
    pub at: u32,
    pub form: ConForm,
}

/// What a constructor is.
#[cycle(con)]
#[derive(Drop)]
pub enum ConForm {
    /// `M.x`
    Name(Path),
    /// `_`
    Wild,
    /// `#A`, or `#1`
    Label(Label),
    /// `c -> d`
    Arrow(Box<Con>, Box<Con>),
    /// `x :: k -> c`, or `x ::: k -> c` where the flag is true
    Poly(bool, Text, Kind, Box<Con>),
    /// `[c ~ d] => e`
    Guarded(Box<Con>, Box<Con>, Box<Con>),
    /// `fn x :: k => c`
    Lambda(Text, Kind, Box<Con>),
    /// `$c`, and one more `$` in between for each of these places
    Record(Places, Box<Con>),
    /// `c d ..`
    Apply(Box<Con>, Cons),
    /// `c ++ d ++ ..`, from left to right
    Concat(Box<Con>, Cons),
    /// `()`
    Unit,
    /// `(c, d, ..)`
    Tuple(Cons),
    /// `(c :: k)`
    Kinded(Box<Con>, Kind),
    /// `[c = d, ..]`
    Row(ConFields),
    /// `c.1.2`, from left to right; the first component is 1
    Proj(Box<Con>, Numbers),
}

/// Constructors in order.
#[cycle(con)]
#[derive(Drop)]
pub struct Cons {
    pub items: Vec<Con>,
}

/// A field of a row.
#[cycle(con)]
#[derive(Drop)]
pub struct ConField {
    pub at: u32,
    pub name: Con,
    pub value: Con,
}

/// The fields of a row, as written.
#[cycle(con)]
#[derive(Drop)]
pub struct ConFields {
    pub items: Vec<ConField>,
}

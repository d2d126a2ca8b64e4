//! Queries, and changes of tables. The terms that stand in one are kept beside it.
use crate::con::Con;
use crate::names::{Comparison, Path, QueryInfix, Word, Words};
use table_rows::Text;

/// An expression of a query.
#[cycle(query)]
#[derive(Drop)]
pub struct Query {
    pub at: u32,
    pub form: QueryForm,
}

/// What an expression of a query is.
#[cycle(query)]
#[derive(Drop)]
pub enum QueryForm {
    /// A number.
    Int(u64),
    /// A text.
    Words(Text),
    /// `TRUE` or `FALSE`
    Bool(bool),
    /// `T.A`, or `t.A`
    Field(Text, Text),
    /// `A`
    Column(Text),
    /// `{[e]}`
    Splice,
    /// `{e}`
    Exp,
    /// `NOT q`
    Not(Box<Query>),
    /// `- q`
    Neg(Box<Query>),
    /// `q = r`, and so on; the operator stands at the place.
    Compare(u32, Comparison, Box<Query>, Box<Query>),
    /// An expression, and what follows it from left to right.
    Chain(Box<Query>, QueryLinks),
}

/// An operator at its place, and its right side. All before it is its left side.
#[cycle(query)]
#[derive(Drop)]
pub struct QueryLink {
    pub at: u32,
    pub operator: QueryInfix,
    pub right: Query,
}

/// What follows an expression of a query in a chain, from left to right.
#[cycle(query)]
#[derive(Drop)]
pub struct QueryLinks {
    pub items: Vec<QueryLink>,
}

/// A query, or a change of a table.
#[derive(Drop)]
pub enum Sql {
    /// `SELECT .. FROM .. WHERE .. ORDER BY .. LIMIT .. OFFSET ..`; no order is an empty list.
    Select(Selection, Sources, Option<Query>, Orders, Option<Count>, Option<Count>),
    /// `INSERT INTO t (A, ..) VALUES (q, ..)`
    Insert(TableRef, Words, Queries),
    /// `UPDATE t SET A = q, .. WHERE q`
    Update(TableRef, Assignments, Query),
    /// `DELETE FROM t WHERE q`
    Delete(TableRef, Query),
    /// `WHERE q` alone
    Where(Query),
}

/// What a query gives.
#[derive(Drop)]
pub enum Selection {
    /// `*`
    All(u32),
    /// What stands in the list.
    Items(SqlItems),
}

/// Expressions of a query, in order.
#[derive(Drop)]
pub struct Queries {
    pub items: Vec<Query>,
}

/// What a query gives.
#[derive(Drop)]
pub enum SqlItem {
    /// `T.A`
    Column(u32, Text, Word),
    /// `T.*`
    Star(u32, Text),
    /// `T.{{c}}`
    Row(u32, Text, Con),
    /// `q AS A`
    Named(Query, Word),
}

/// What a query gives, in order.
#[derive(Drop)]
pub struct SqlItems {
    pub items: Vec<SqlItem>,
}

/// A table.
#[derive(Drop)]
pub enum TableRef {
    /// `M.t`
    Name(u32, Path),
    /// `{{e}}`, at its brace
    Exp(u32),
}

/// A source of a query, with the name that it is given.
#[derive(Drop)]
pub struct Source {
    pub table: TableRef,
    pub name: Option<Word>,
}

/// Sources in order.
#[derive(Drop)]
pub struct Sources {
    pub items: Vec<Source>,
}

/// A column with what it is set to.
#[derive(Drop)]
pub struct Assignment {
    pub column: Word,
    pub value: Query,
}

/// Columns with what they are set to, in order.
#[derive(Drop)]
pub struct Assignments {
    pub items: Vec<Assignment>,
}

/// What rows are ordered by, and whether downwards.
#[derive(Drop)]
pub struct Order {
    pub by: Query,
    pub down: bool,
}

/// What rows are ordered by, in order.
#[derive(Drop)]
pub struct Orders {
    pub items: Vec<Order>,
}

/// A number of rows.
#[derive(Drop)]
pub enum Count {
    /// A number.
    Int(u32, u64),
    /// `{e}`, at its brace
    Exp(u32),
}

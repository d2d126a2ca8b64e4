//! Plain trees: what is left of a source without its sugar. Each node tells the byte of its first
//! token. What a source can make long without brackets is a list, so that letting go of a tree costs
//! no more stack than its brackets do.
#![tactic(auto)]

pub mod arg;
pub mod con;
pub mod decl;
pub mod exp;
pub mod names;
pub mod pat;
pub mod sql;

pub use arg::{Arg, Args};
pub use con::{Con, ConField, ConFields, ConForm, Cons};
pub use decl::{
    Builders, Cookie, Datatype, DatatypeBuilder, Decl, Decls, Interface, Plain, Signed, Table,
    TypeDecl,
};
pub use exp::{
    Attribute, Attributes, Branch, Branches, Exp, Exps, Field, Fields, Form, Item, Items, Link,
    Links, Local, Locals, Named, NamedList, Node, Nodes,
};
pub use names::{
    Basis, BasisBuilder, Builder, Comparison, Infix, Label, Modules, Numbers, Path, Places,
    QueryInfix, Sigil, Word, Words,
};
pub use pat::{Pat, PatField, PatFields, PatForm};
pub use sql::{
    Assignment, Assignments, Count, Order, Orders, Queries, Query, QueryForm, QueryLink,
    QueryLinks, Selection, Source, Sources, Sql, SqlItem, SqlItems, TableRef,
};

//! The terms of the explicit language, in which nothing is left to infer.
//!
//! The definitions stand in `specs/`; each file is one subject.
#![tactic(auto)]

pub mod basis;
pub mod decl;
pub mod exp;
pub mod laws;
pub mod lists;
pub mod names;
pub mod nesting;
pub mod pat;
pub mod program;
pub mod program_lists;
pub mod sql;

pub use basis::{BasisName, TypeName};
pub use decl::{
    Column, Columns, ConDecl, Constructor, Constructors, Datatype, Decl, Decls, Sort, Thing,
};
pub use exp::{
    Attribute, Attributes, Branch, Branches, ConOrigin, Element, Exp, Exps, Field, Fields, Form,
    InputName, Item, Items, Literal, Local, Locals, Named, NamedList, Node, Nodes, Sigil,
};
pub use names::Symbols;
pub use nesting::MOST_NESTED;
pub use pat::{Pat, PatField, PatFields, PatForm, Pats};
pub use program::{Exports, FolderName, Folders, ForeignName, Foreigns, Program, Rule, Rules};
pub use sql::Skeleton;
pub use xml_trees::{AttrName, TagName};

//! Pages as trees: their tags and attributes, how they are built piece by piece, and the grammar of their text.
#![tactic(auto)]

pub mod attrs;
pub mod laws;
pub mod name;
pub mod page;
pub mod source_name;
pub mod tag;

pub use attrs::{Attr, Attrs};
pub use laws::pieces_are_pages;
pub use name::Name;
pub use page::{Page, Piece};
pub use source_name::{AttrName, TagName};
pub use tag::Tag;

//! What every other crate holds: texts, bytes, and the values that travel in links, forms and
//! cookies.
#![tactic(auto)]

pub mod bytes;
pub mod shape;
pub mod text;
pub mod texts;
pub mod wire;

pub use bytes::Bytes;
pub use shape::{Arguments, Case, Datatype, Datatypes, Part, Parts, Shape};
pub use text::Text;
pub use texts::Texts;
pub use wire::{Wire, Wires, copy_wires};

//! Reads a part of the grammar with a stack of its own, and leaves the expressions and the constructors in it to
//! another reader.
#![tactic(auto)]

pub mod filling;
pub mod holes;
mod moves;
pub mod part_reader;
pub mod reader;
mod walk;

pub use filling::Filling;
pub use holes::form_of;
pub use part_reader::{PartReader, Whole};
pub use reader::{Next, Reader};

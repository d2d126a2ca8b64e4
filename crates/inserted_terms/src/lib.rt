//! Whether the folders and instances that a program's calls insert are those that their rules choose: of a folder the
//! fields of its row in the written order, of an instance the last value that is declared for its class and type; and
//! that a gap stands only where the rules choose none.
//!
//! The definitions stand in `specs/`; each file is one subject.
#![tactic(auto)]

pub mod at;
mod basis;
pub mod bound;
mod folders;
pub mod gaps;
pub mod instances;
mod items;
pub mod laws;
pub mod programs;
mod scopes;
mod terms;
pub mod tops;
mod types;
pub mod values;

pub use gaps::{NO_FOLDER, NO_INSTANCE};
pub use programs::inserts_chosen;

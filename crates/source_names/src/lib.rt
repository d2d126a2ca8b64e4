//! What the names of a source stand for, and whether a constructor is what its source says.
//!
//! The definitions stand in `specs/`; each file is one subject.
#![tactic(auto)]

mod builders;
mod cons;
mod here;
mod known;
mod marked;
mod parts;
mod texts;
mod types;
mod values;

pub use builders::{names_basis_builder, names_builder};
pub use cons::reads_con;
pub use here::{Here, Names, binder_of};
pub use known::Known;
pub use marked::{KnownBuilder, KnownType, KnownValue};
pub use texts::is_text;
pub use types::names_type;
pub use values::names_value;

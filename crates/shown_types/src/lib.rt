//! What is printed of kinds and constructors: their words, each behind a space.
//!
//! Proved here: each call is safe and ends, and what it puts behind a text are the words that `specs/Shown.antt` says.
//! What nests too deeply counts as want of memory.
#![tactic(auto)]

pub mod called;
pub mod cons;
pub mod kinds;
pub mod known;
pub mod line;
pub mod program;
pub mod rows;
pub mod told;

pub use called::{inside, new_name, variable};
pub use cons::{put_con, put_name};
pub use kinds::put_kind;
pub use known::{Declared, Known, put_builder, text};
pub use line::Line;
pub use program::{called_by, folders_of, types_of};
pub use told::{LEVELS, differing_kinds, differing_types, two_types};

//! Reads a tree of any form of the grammar by its table, with a stack of its own.
#![tactic(auto)]

pub mod laws;
pub mod machine;
pub mod read;
pub mod stop;
pub mod tokens;
pub mod want;

pub use laws::{one_refusal, one_whole_tree, trees_are_not_refused};
pub use machine::{Machine, choose};
pub use read::{Reading, is_splice, read_part, read_whole};
pub use stop::Stop;
pub use tokens::{copy_token, kind_at};
pub use want::{Want, Wants};

//! What the trees of the grammar stand for, and the parts of a rule one after another.
#![tactic(auto)]

pub mod meaning;
pub mod meanings;
pub mod parts;
pub mod words;

pub use meaning::{Meaning, Meanings};
pub use parts::{
    characters, con_of, exp_of, group_of, kind_of, maybe_con_of, maybe_kind_of, named, number,
    pat_of, start_of, word_of,
};
pub use words::{bare, component, field_name, field_word, label_of, modules};

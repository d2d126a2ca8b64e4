//! The top call: all that the program does, from the words and the bytes of its input to the bytes of its output.
#![tactic(auto)]

pub mod command;
pub mod words;

pub use command::{Ended, top};
pub use words::{Command, is_only_word, read_command};

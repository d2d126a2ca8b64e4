//! Cuts the text of a module into tokens.
#![tactic(auto)]

pub mod classes;
pub mod code;
pub mod comments;
pub mod entities;
pub mod fault;
pub mod laws;
pub mod lexer;
pub mod lookups;
pub mod markup;
pub mod numbers;
pub mod pieces;
pub mod state;
pub mod strings;
pub mod words;

pub use fault::LexFault;
pub use laws::texts_have_one_reading;
pub use lexer::lex;

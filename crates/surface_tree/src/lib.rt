//! What stands between the bytes of a module and its tree: its tokens.
#![tactic(auto)]

pub mod kind;
pub mod token;
pub mod tokens;

pub use kind::Kind;
pub use token::{Content, Token};
pub use tokens::Tokens;

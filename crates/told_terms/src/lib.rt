//! What is told of a term from what is told of its parts: the law that what the rules of judging find of a term is
//! the type that the rules of typing find, and the fault that is told of it, before which none fails.
#![tactic(auto)]

pub mod laws;

pub use laws::judged_is_told;

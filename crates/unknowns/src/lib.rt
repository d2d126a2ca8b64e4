//! Unknown constructors of a call, and what is found for them by matching.
//!
//! The unknowns are the innermost binders of a pattern: with n of them its `Var(0)` to `Var(n - 1)` are the unknowns,
//! and its `Var(n + i)` is `Var(i)` outside.
#![tactic(auto)]

mod answers;
pub mod fault;
pub mod fill;
mod heads;
pub mod held;
pub mod known;
pub mod matching;
mod rows;
pub mod sides;
pub mod slots;
pub mod store;

pub use fault::FitFault;
pub use fill::{filled, lowered, told};
pub use known::is_known;
pub use matching::fit;
pub use sides::Apart;
pub use store::Found;

//! From modules without sugar to an explicit program: declaration by declaration, in the order of the
//! modules, with what each may name in scope, over any elaboration of terms.
#![tactic(auto)]

mod causes;
mod copies;
pub mod declarations;
pub mod fault;
pub mod folders;
pub mod groups;
pub mod places;
pub mod program;
pub mod terms;
pub mod texts;
pub mod types;

pub use fault::Refusal;
pub use program::{Source, elaborate_with};
pub use terms::{Env, Terms, TypedTerm};

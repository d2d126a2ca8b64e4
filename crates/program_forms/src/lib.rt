//! Whether a program is formed, decided at run time: what its symbols, names, literals and exports have to be before
//! its terms are judged.
#![tactic(auto)]

pub mod constructors;
pub mod declarations;
pub mod formed;
pub mod literals;
pub mod patterns;
pub mod symbols;
pub mod terms;
pub mod texts;
pub mod values;

pub use formed::is_formed;

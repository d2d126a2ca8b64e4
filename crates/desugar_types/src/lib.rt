//! Kinds, constructors, patterns and parameters without sugar, rule by rule.
#![tactic(auto)]

pub mod boxes;
pub mod brackets;
pub mod con_rules;
pub mod constructors;
pub mod kinds;
pub mod leading;
pub mod lists;
pub mod parameters;
pub mod pat_records;
pub mod pat_rules;
pub mod paths;
pub mod patterns;
pub mod rows;
pub mod tails;

pub use boxes::{both, one_of, two_of};
pub use con_rules::{build_con, build_kind};
pub use parameters::args_start;
pub use pat_rules::build_pat;

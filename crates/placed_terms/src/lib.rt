//! The places of explicit programs, held against those of their source.
#![tactic(auto)]

mod made_lists;
mod made_parts;
mod made_terms;
mod placed;
mod source_lists;
mod source_parts;
mod source_terms;

pub use placed::are_placed;

//! What is found for elements and for literals of pages, from what is found for the terms in them.
//!
//! No function here walks a term: each takes the judgements of the parts and gives that of the whole. What is found
//! is computed in `specs/Elements.antt`; the law says that an element and a literal have the type that is computed
//! for them, where nothing is told.
#![tactic(auto)]

mod attributes;
mod content;
mod elements;
mod judged;
pub mod laws;
mod links;
mod literals;
mod nodes;
mod places;
mod standing;

pub use elements::of_element;
pub use judged::Judgements;
pub use literals::of_literal;

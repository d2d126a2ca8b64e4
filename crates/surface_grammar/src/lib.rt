//! The grammar of Ur/Web as data: its forms, its rules, and the trees that they allow.
#![tactic(auto)]

pub mod constructors;
pub mod declarations;
pub mod expressions;
pub mod fault;
pub mod first;
pub mod form;
pub mod kinds;
pub mod laws;
pub mod markup;
pub mod parameters;
pub mod part;
pub mod patterns;
pub mod queries;
pub mod rule;
pub mod sides;
mod table;
pub mod tree;
pub mod words;

pub use constructors::ConRule;
pub use declarations::DeclRule;
pub use expressions::ExpRule;
pub use fault::{Hole, ParseFault, Step};
pub use form::Form;
pub use kinds::KindRule;
pub use markup::MarkupRule;
pub use parameters::ArgRule;
pub use part::Part;
pub use patterns::PatRule;
pub use queries::SqlRule;
pub use rule::Rule;
pub use sides::is_tag;
pub use tree::{Mark, Tree};

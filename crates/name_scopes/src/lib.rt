//! What is in scope where a constructor or a term of a source stands, while types are inferred.
//!
//! A scope shares all that stands in it with the scopes that it grew from, so entering a binder copies
//! nothing. What is declared at the top stands in `Tops`, which grows from declaration to declaration.
#![tactic(auto)]

pub mod fault;
pub mod instances;
pub mod known;
pub mod layers;
pub mod scope;
pub mod table;
pub mod tops;

pub use fault::ElabFault;
pub use known::{KnownBuilder, KnownType, KnownValue, ValueName, path_text};
pub use scope::Scope;
pub use tops::{MOST_TYPES, TopType, TopValue, Tops};

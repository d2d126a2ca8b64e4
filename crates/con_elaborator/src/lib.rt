//! Constructors of sources as those of the type level, with their kinds.
//!
//! Names are looked up, and kinds that a source leaves out are found: of a name by its declaration, of a
//! row by its fields or by what is wanted where it stands, else `Type`. Whether a constructor's parts
//! have the kinds that they should is the checker's to tell.
#![tactic(auto)]

pub mod kinded;
pub mod leaves;

pub use kinded::{KindedCon, con};

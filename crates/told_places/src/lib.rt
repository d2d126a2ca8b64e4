//! Tells a person where a byte of a text stands: its line and column, the line itself, and a mark below it.
#![tactic(auto)]

mod actions;
mod hints;
mod instances;
mod missing;
mod names;
mod patterns;
pub mod piece;
pub mod place;
mod project;
pub mod refusal;
mod reserved;
mod scan;
mod sentence;
mod spot;
mod syntax;
pub mod telling;
mod types;
mod units;
mod written;

pub use piece::{Piece, piece_of};
pub use place::{Place, place_of};
pub use refusal::{Refusal, read_refusal, tell_refusal};
pub use telling::{tell_at, tell_whole};

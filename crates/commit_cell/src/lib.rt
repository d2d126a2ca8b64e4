//! One value for all threads. Who takes the turn owns the value until it gives the turn back, unchanged or with one new
//! entry of the one history that every pass has seen a beginning of.
#![tactic(auto)]

mod cell;
mod laws;
mod pass;
mod replays;
mod steps;
mod turn;
mod view;

pub use cell::{Cell, NotStarted};
pub use laws::worlds_keep_their_facts;
pub use pass::Pass;
pub use replays::Replays;
pub use turn::Turn;

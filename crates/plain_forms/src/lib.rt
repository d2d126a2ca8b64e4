//! Functions, cases and lets while their types are found: each ends, or asks for one part and says how it goes on once
//! that is there.
#![tactic(auto)]

pub mod frames;
pub mod functions;
pub mod lets;

pub use frames::{Around, FrameAfter, of_case, reopened};
pub use functions::{of_fn, of_fn_rest};
pub use lets::{LetAfter, of_let, of_typed};

//! Names and calls while their types are found: each ends, or asks for one part and says how it goes on once that is
//! there.
#![tactic(auto)]

pub mod calls;

pub use calls::{CallAfter, of_call, of_name, run, settle};

//! Records while their types are found: each ends, or asks for one part and says how it goes on once that is there.
#![tactic(auto)]

pub mod records;

pub use records::{RecordAfter, of_record, of_record_rest};

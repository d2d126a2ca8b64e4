//! Trials of the commit cell: workers in threads that commit to one counter, and a store that holds all that a store
//! may.
#![tactic(auto)]

mod commits;
mod counter;
mod shelf;
mod shelf_workers;
mod trial;
mod workers;

pub use commits::commit;
pub use counter::{Counter, Entry};
pub use shelf::{Code, Effect, Record, Shelf, Tape};
pub use shelf_workers::{ShelfWorker, serve_shelf};
pub use trial::{Outcome, run};
pub use workers::{Worker, serve};

#[cfg(test)]
mod tests;

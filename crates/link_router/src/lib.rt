//! Links: the entries of a site, calls of them, and the texts that name such calls.
#![tactic(auto)]

mod agenda;
pub mod ask;
pub mod call;
mod frames;
pub mod laws;
mod leaves;
mod pieces;
mod reader;
pub mod router;
pub mod routes;
mod scoped;
pub mod texts;

pub use ask::Ask;
pub use call::Call;
pub use router::{LinkFault, read_link};
pub use routes::{Entry, Routes};
pub use texts::link_text;

//! The text of a page: how long it is, and writing it to a sink.
#![tactic(auto)]

mod chunk;
mod escape;
mod fault;
mod gather;
mod hidden;
mod length;
mod writer;

pub use fault::PageFault;
pub use length::page_length;
pub use writer::write_page;

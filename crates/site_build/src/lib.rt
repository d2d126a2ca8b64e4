//! From a project, or from the text of one module, to its explicit program, to the page of its `main`, or to the line
//! that refuses it.
#![tactic(auto)]

pub mod building;
mod chain;
pub mod fault;
mod forms;
pub mod laws;
pub mod line;
mod many_tables;
mod names;
pub mod page;
pub mod site;
pub mod tables;

pub use building::{build, build_text, explicit_program};
pub use fault::BuildFault;
pub use page::page_of_text;
pub use site::Site;
pub use site_pages::NoPage;
pub use tables::count_tables;

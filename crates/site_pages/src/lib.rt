//! The page that a program shows at the `main` of its module, or the line that says why it shows none.
#![tactic(auto)]

mod lines;
mod page;

pub use lines::NoPage;
pub use page::page_of_program;

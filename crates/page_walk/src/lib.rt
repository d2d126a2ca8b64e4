//! Pages and links of a run: the trees of a page in order, and the text of a link with its arguments.
#![tactic(auto)]

mod bound;
pub mod links;
pub mod trees;

pub use links::link_of;
pub use trees::walked;

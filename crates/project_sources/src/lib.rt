//! From the folder of a project to the trees of its modules, or to the first refusal on the way.
#![tactic(auto)]

pub mod fault;
pub mod laws;
pub mod lines;
pub mod modules;
pub mod projects;
pub mod reading;

pub use fault::SourceFault;
pub use laws::{folders_have_one_answer, modules_have_one_answer, refusals_have_one_cause};
pub use modules::{LONGEST, ModuleSource, interface_of, tree_of};
pub use projects::{Sources, read_sources};
pub use reading::read_in;

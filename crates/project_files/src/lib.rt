//! Project files: which modules a project has, and what its directives say of addresses and of effects outside.
#![tactic(auto)]

pub mod directives;
pub mod laws;
pub mod lines;
pub mod projects;
pub mod words;

pub use directives::Directive;
pub use laws::{projects_have_one_answer, refusals_have_one_line};
pub use lines::first_line;
pub use projects::{AddressRule, Project, ProjectFault, QualifiedName, read_project};

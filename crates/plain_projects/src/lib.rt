//! Projects without sugar: what inference begins with, exactly as the trees of a project's files say it.
#![tactic(auto)]

pub mod interfaces;
pub mod modules;
pub mod names;
pub mod project;
pub mod settings;

pub use names::names_of;
pub use project::{PlainProject, plain_project};

//! The entries of a program: which values a request can call, with the shapes of their arguments.
//!
//! A value is called by GET where it is an export that takes what links carry and gives a page, and where a link calls
//! it; by POST where an action calls it. Entries stand in the order of the values' numbers, GET before POST.
#![tactic(auto)]

mod shapes;
mod site;
mod targets;
mod values;

pub use site::{SiteRoutes, routes};

//! That each request of an accepted program has an answer, with the program's routes: the laws that say so.
#![tactic(auto)]

pub mod laws;

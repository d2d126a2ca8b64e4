//! That each name of a program's source is in scope: the law that modules with an unbound name are the source of no
//! program.
#![tactic(auto)]

pub mod laws;

//! What it says of a program that no fault is told of it: the law that it is accepted, where it is formed.
#![tactic(auto)]

pub mod laws;

//! Kinds of constructors: which kind a constructor has in a scope, or what is wrong with it.
//!
//! What it means to have a kind stands in `con_terms`; how kinds are found stands in `specs/`, rule by rule.
#![tactic(auto)]

pub mod compare;
pub mod fault;
pub mod flaw;
pub mod kinding;
pub mod laws;
mod rules;
pub mod scope;

pub use compare::{Comparison, Sides, comparison_fuel, flaw_between, normal_sides};
pub use flaw::{Differing, Flaw, Two, both};
pub use kinding::{judge, judge_at, kind_of};
pub use scope::{Basic, Scope, kind_of_basic};

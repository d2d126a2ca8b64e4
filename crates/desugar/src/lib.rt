//! From the concrete tree of a module or an interface to the tree without sugar.
//!
//! What a tree of the grammar stands for is put together from what its parts stand for, rule by rule. The listing of a
//! tree is read from right to left; what its trees stand for waits on a stack, the leftmost on top, until the rule is
//! read whose parts they are.
//!
//! Queries and changes of tables aren't built yet. A program that has them is refused before it comes here; such a
//! rule gives want of memory here.
#![tactic(auto)]

pub mod leaves;
pub mod modules;
pub mod reading;
pub mod rules;
pub mod stack;

pub use modules::{plain, plain_interface};

//! Parts of terms that are elaborated without another term: patterns, parameters, the types that a source writes, and
//! what stands around a term; and how a term asks for a part.
#![tactic(auto)]

pub mod binders;
pub mod parameters;
pub mod patterns;
pub mod progress;
pub mod signatures;

pub use binders::{
    around_case, around_con, around_fn, around_guard, around_let, ascribed, bare_branch,
    two_branches,
};
pub use parameters::{Entered, enter, want_inside};
pub use patterns::{pattern, with_bound};
pub use progress::{
    Asked, Becomes, Part, Progress, Sought, ask, below, innermost, leaf, raised, settled, term,
    too_deep, wanted_term,
};
pub use signatures::{signature_of, signature_within};

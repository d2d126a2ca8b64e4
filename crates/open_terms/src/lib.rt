//! Terms of which the types are being inferred: what is known of a wanted type, what is kept of a term that is open,
//! what names stand for, and the types of records.
#![tactic(auto)]

pub mod env;
pub mod faults;
pub mod gaps;
pub mod heads;
pub mod implied;
pub mod leaves;
pub mod memory;
pub mod open_places;
pub mod pending;
pub mod rows;
pub mod types;
pub mod want;

pub use env::{Env, Side};
pub use faults::{
    any_function, any_guarded, any_poly, any_record, mismatch, not_of, not_wanted, record_of_pairs,
    unbound,
};
pub use gaps::inner_gaps_first;
pub use heads::{Head, head_of_call, node, of_basis, operator};
pub use implied::{implied_term, is_implied};
pub use leaves::{number, number_of, words};
pub use memory::{add, on_heap};
pub use open_places::{open_call, open_place};
pub use pending::{
    Argument, Call, CaseRest, Core, FnRest, Frame, Input, Outcome, PageRest, Pattern, Pending,
    RecField, RecRest, Slot, Step, done, later, under,
};
pub use rows::{
    field_index, field_type, joined, left_out, missing_field, projected, record_pieces,
    reduced_name, row_left_out, value_at,
};
pub use types::{head_of, kept, normal_of, put_in, reduced};
pub use want::{
    Typed, Want, after_con, after_guard, after_term, boxed_copy, copy_want, may_grow, whole,
};

//! The steps of a call that elaborate no other term: its type walked, its arguments matched, and what was found put
//! together; and the parts of a page's type, which a call's result is matched with.
#![tactic(auto)]

pub mod alone;
pub mod arguments;
pub mod calls;
pub mod finish;
pub mod pages;
pub mod walk;

pub use alone::begin;
pub use arguments::{Match, New, Refusal, match_all, match_type, new_at, next, put, raise_all};
pub use calls::{call_of, call_of_term, inputs, operands, record_of};
pub use pages::{
    has_form_around, is_empty_row, match_page, no_fields, page_parts, reduced_row, rows_joined,
};
pub use walk::unstick;

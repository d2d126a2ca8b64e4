//! What is found for a term from what is found for its parts, form by form.
//!
//! No function here walks a term: each takes the judgements of the parts and gives that of the whole. What each
//! computes stands in `specs/`, a file a subject.
#![tactic(auto)]

pub mod calls;
pub mod folders;
pub mod functions;
pub mod guards;
pub mod lets;
pub mod names;
pub mod operations;
pub mod records;

pub use calls::{Fit, Past, of_call, starts, with_con_item, with_guard_item, with_term_item};
pub use folders::of_folder;
pub use functions::{of_ascribed, of_body, of_fn_con};
pub use guards::{guard_sides, of_assuming};
pub use lets::{Found, and_then_found, none_yet, of_let, with_declared};
pub use names::{of_basis, of_built, of_fold, of_foreign, of_number, of_text, of_top, of_variable};
pub use operations::{Operation, of_concat, of_operation};
pub use records::{Row, no_fields_yet, of_fields, with_field};

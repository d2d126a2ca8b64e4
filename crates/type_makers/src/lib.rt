//! The types that the explicit language's definitions compute, built: of the basis, of `fold`, of
//! constructors, of tags and their attributes.
//!
//! Each function gives exactly the constructor that the definition of its name in `core_terms` is.
#![tactic(auto)]

pub mod basis;
pub mod by_name;
pub mod datatypes;
pub mod folds;
pub mod forms;
mod lookups;
mod made;
mod made_types;
pub mod queries;
pub mod symbols;
pub mod tags;
pub mod types;

pub use basis::basis_type;
pub use by_name::{named_kind, named_type, type_named, value_named, value_text};
pub use datatypes::{basis_datatypes, constructor_type, held_at, own_type};
pub use folds::{fold_step_type, fold_type};
pub use forms::{applied, arrow, arrow_kind, empty_row, guarded, joined, poly, record, row_kind};
pub use symbols::{basis_names, basis_symbols};
pub use tags::{Standing, TagSort, attribute_type, context_row, sort_of, stands};
pub use types::{
    bool_type, int_type, no_types, one_field, page_type, string_type, transaction_of, unit_type,
    xml_of,
};

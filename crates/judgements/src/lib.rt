//! What a checker of terms works with: what is in scope where a term stands, how types compare there, and
//! what is found for a term or a pattern.
//!
//! A judgement is a pair: the type that is found, if there is one, and the fault that is told, if there is one.
#![tactic(auto)]

pub mod called;
pub mod compare;
pub mod globals;
pub mod heads;
pub mod judged;
pub mod kinds;
pub mod locals;
pub mod pieces;
pub mod scope;
mod settled;

pub use called::{Called, names_called};
pub use compare::{
    Forms, both_forms, copied, copied_kind, into_normal, is_alike, meets, normal_of, put, wants,
};
pub use globals::{Globals, constructor_named, datatype_named, folder_named};
pub use heads::{head_of_record, no_record, other_form};
pub use judged::{Bound, Judged, faulty, neither, of_name, typed};
pub use kinds::{flaw_at, has_kind, kind_flaw};
pub use locals::{Locals, look_up, with_local};
pub use pieces::{Taken, pieces_of, row_of_rest, take_field, without_pieces};
pub use scope::{Here, local_type, top_type, under_con, under_guard, with_locals};
pub use settled::is_own_form;

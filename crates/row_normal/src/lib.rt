//! Normal forms of constructors: reduction, eta, and rows in order.
//!
//! What the normal form is stands in `specs/`, step by step; that it is equal to what it comes from is proved.
#![tactic(auto)]

mod build;
mod code;
mod eta;
mod finish;
pub mod form;
mod glue;
pub mod laws;
mod left;
pub mod normal;
mod order;
mod piece;
pub mod pieces;
mod reduce;
mod rounds;
pub mod same;
mod settled;
mod steps;
pub mod written;

pub use form::Normal;
pub use normal::{DEPTH, Fuel, NormalFault, con_of};
pub use order::ordered;
pub use pieces::{row_of_pieces, row_of_pieces_in_order};
pub use same::same_con;
pub use written::reduce_head;

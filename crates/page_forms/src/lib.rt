//! Literals of pages while their types are found: each ends, or asks for one part and says how it goes on once that is
//! there.
#![tactic(auto)]

pub mod contexts;
pub mod elements;
pub mod fields;
pub mod grounds;
pub mod literals;
pub mod nodes;
pub mod placing;

pub use literals::{of_page, of_xml};
pub use placing::PageAfter;

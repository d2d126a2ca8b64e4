//! Whether patterns take every value of a type, and the first shape that they miss.
//!
//! Patterns are rows of tests. A column of the rows is looked at by the shapes of its type, from the left to the
//! right: constructors in the order of their declaration, numbers from 0 on, texts by their length and then by their
//! bytes, fields as the type's normal form has them. So the shape that is told is the first one that is missed.
//!
//! Proved here: patterns for which `covers` and `covers_asked` answer `Ok` take every value of the type, and no part's
//! type is too large; a shape that they tell is one of the type's that no pattern takes; a type that they call too
//! large is so, or that of a part is. What they compute stands in `specs/`, and that it is right in `laws.rt`. Patterns
//! that are nested too deep, and a match that takes too many steps, count as want of memory. The shape that is told is
//! the first one of the computed answer; that it is the least of the missed ones is not stated.
#![tactic(auto)]

pub mod columns;
pub mod cover;
pub mod declared;
pub mod fault;
mod first;
mod free;
pub mod laws;
mod levels;
mod literals;
mod miss;
pub mod rows;
pub mod seen;
pub mod shapes;
pub mod test;

pub use cover::{Asked, covers, covers_asked};
pub use declared::{copy_datatype, datatypes_before};
pub use fault::CoverFault;
pub use seen::{Seen, held_type, see};

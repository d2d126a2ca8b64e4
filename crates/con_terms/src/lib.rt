//! The terms of Ur's type level: symbols, kinds, constructors, shifting and substitution.
//!
//! What the type level means stands in `specs/`: which constructors are equal, which rows are
//! apart, which constructor has which kind.
#![tactic(auto)]

pub mod con;
pub mod copy;
pub mod kind;
pub mod laws;
pub mod place;
pub mod rebuild;
pub mod size;
pub mod substitute;
pub mod symbol;

pub use con::{Con, Cons, Pair, Pairs};
pub use copy::{copy_con, copy_pairs};
pub use kind::{Kind, Kinds, copy_kind, same_kind};
pub use laws::symbols_are_texts;
pub use place::Place;
pub use rebuild::Replace;
pub use size::{BINDERS, fits, has_room};
pub use substitute::{shift, subst};
pub use symbol::{Sym, SymTable};

//! Where a module's tree has a form that isn't built yet: a form of SQL, a declaration of a table, a sequence or a
//! cookie, or the name of an operation on these.
#![tactic(auto)]

pub mod unbuilt;

pub use unbuilt::first_unbuilt;

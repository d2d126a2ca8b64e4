//! What a form of SQL is apart from the terms in it.

/// The text of a form of SQL, with a numbered hole for each term in it.
#[derive(Drop)]
pub struct Skeleton {}

//! What is asked of the elaboration of terms, and where a declaration stands.
use con_terms::Con;
use core_terms::Exp;
use name_scopes::{ElabFault, Scope};
use std::alloc::Global;

/// A term with its type.
#[derive(Drop)]
pub struct TypedTerm {
    pub exp: Box<Exp>,
    pub con: Con,
}

/// What is in scope, and the number of the file in the list of modules.
#[derive(Drop)]
pub struct Env {
    pub scope: Scope,
    pub file: u32,
}

/// The elaboration of terms. `room` is the number of levels that are left; none left counts as want of
/// memory.
pub trait Terms {
    /// A term with its type, where this type is wanted.
    fn term(
        &self,
        alloc: Global,
        env: &Env,
        wanted: Option<&Con>,
        e: &plain_tree::Exp,
        room: u32,
    ) -> Result<TypedTerm, ElabFault>;

    /// The type of a term as far as it is written; none where something of it is open.
    fn signature(
        &self,
        alloc: Global,
        env: &Env,
        e: &plain_tree::Exp,
        room: u32,
    ) -> Result<Option<Con>, ElabFault>;
}

//! The inference of terms, as the elaboration of declarations asks for it.
use crate::elab::elaborate_term;
use con_terms::Con;
use name_scopes::ElabFault;
use open_terms::Typed;
use program_elaborator::{Env, Terms, TypedTerm};
use std::alloc::{AllocError, Global};
use term_parts::signature_within;

/// The inference of terms.
#[derive(Drop)]
pub struct Inferred {}

/// Where a term stands, as inference sees it.
fn seen(env: &Env) -> Result<open_terms::Env, AllocError> {
    Ok(open_terms::Env {
        scope: env.scope.share()?,
        file: env.file,
    })
}

/// A term with its type, where this type is wanted.
fn typed_term(
    alloc: Global,
    env: &Env,
    wanted: Option<&Con>,
    e: &plain_tree::Exp,
    room: u32,
) -> Result<TypedTerm, ElabFault> {
    let Typed { exp, con } = Box::into_inner(elaborate_term(alloc, seen(env)?, wanted, e, room)?);
    Ok(TypedTerm { exp, con })
}

/// The type of a term as far as it is written.
fn written_signature(
    alloc: Global,
    env: &Env,
    e: &plain_tree::Exp,
    room: u32,
) -> Result<Option<Con>, ElabFault> {
    signature_within(alloc, seen(env)?, e, room)
}

impl Terms for Inferred {
    fn term(
        &self,
        alloc: Global,
        env: &Env,
        wanted: Option<&Con>,
        e: &plain_tree::Exp,
        room: u32,
    ) -> Result<TypedTerm, ElabFault> {
        typed_term(alloc, env, wanted, e, room)
    }

    fn signature(
        &self,
        alloc: Global,
        env: &Env,
        e: &plain_tree::Exp,
        room: u32,
    ) -> Result<Option<Con>, ElabFault> {
        written_signature(alloc, env, e, room)
    }
}

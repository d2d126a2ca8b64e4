//! Declarations.
use crate::fault::{Refusal, memory, refused};
use crate::folders::{Done, Task, declared, perform};
use crate::groups::of_group;
use crate::places::{bounded_copy, named, written_type};
use crate::terms::{Env, Terms, TypedTerm};
use crate::types::{of_con, of_datatype};
use con_terms::Place;
use core_terms::{Decl, MOST_NESTED, Named, Symbols};
use name_scopes::{ElabFault, Tops};
use plain_tree::Local;
use std::alloc::{AllocError, Global};

/// `val x : t = e`
#[derive(Drop)]
struct ValueTask<'a, T: Terms> {
    terms: &'a T,
    source: &'a plain_tree::Named,
}

impl<'a, T: Terms> Task for ValueTask<'a, T> {
    type Made = Box<Named>;

    fn make(&self, alloc: Global, env: &Env) -> Result<Box<Named>, ElabFault> {
        let source = self.source;
        let written = written_type(alloc, env, &source.con, MOST_NESTED)?;
        let TypedTerm { exp, con } = self
            .terms
            .term(alloc, env, written.as_ref(), &source.exp, MOST_NESTED)?;
        let con = written.unwrap_or(con);
        Ok(named(alloc, env, &source.name, source.con.is_some(), con, exp)?)
    }
}

/// Declares a value. One whose type has 100,000 nodes or more counts as want of memory.
fn add_value(
    alloc: Global,
    tops: &mut Tops,
    source: &plain_tree::Named,
    made: &Named,
) -> Result<(), AllocError> {
    let con = bounded_copy(alloc, &made.con)?;
    tops.add_value(&source.name.text, con)
}

/// `val x : t = e`, of the type that is written or else of that of its term.
fn of_value<T: Terms + Drop>(
    alloc: Global,
    terms: &T,
    tops: Tops,
    file: u32,
    source: &plain_tree::Named,
) -> Result<Done<Box<Decl>>, Refusal> {
    let Done { mut tops, made } = perform(alloc, tops, file, &ValueTask { terms, source })?;
    match add_value(alloc, &mut tops, source, &made) {
        Ok(()) => declared(
            alloc,
            tops,
            Decl::Val(Symbols::new(alloc), Box::into_inner(made)),
        ),
        Err(_) => Err(memory(alloc)),
    }
}

/// A declaration for which there are no rules yet.
fn not_built(alloc: Global, tops: &Tops, file: u32, at: u32) -> Refusal {
    let fault = ElabFault::NotBuilt(Place { file, at });
    refused(alloc, fault, tops)
}

/// A declaration of a file, where all before it is in scope.
pub fn of_decl<T: Terms + Drop>(
    alloc: Global,
    terms: &T,
    tops: Tops,
    file: u32,
    source: &plain_tree::Decl,
) -> Result<Done<Box<Decl>>, Refusal> {
    match source {
        plain_tree::Decl::Value(Local::Val(_, value)) => of_value(alloc, terms, tops, file, value),
        plain_tree::Decl::Value(Local::ValRec(_, group)) => of_group(
            alloc, terms, tops, file, group,
        ),
        plain_tree::Decl::Con(declared) => of_con(alloc, tops, file, declared),
        plain_tree::Decl::Datatype(datatype) => of_datatype(alloc, tops, file, datatype),
        plain_tree::Decl::Table(table) => Err(not_built(alloc, &tops, file, table.at)),
        plain_tree::Decl::Sequence(at, _) => Err(not_built(alloc, &tops, file, *at)),
        plain_tree::Decl::Cookie(cookie) => Err(not_built(alloc, &tops, file, cookie.at)),
    }
}

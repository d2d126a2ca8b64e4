//! Values that are declared together: `val rec` and `fun`.
use crate::fault::{Refusal, memory};
use crate::folders::{Done, Task, declared, perform};
use crate::places::{bounded_copy, named, written_type};
use crate::terms::{Env, Terms, TypedTerm};
use con_terms::{Con, copy_con};
use core_terms::{Decl, MOST_NESTED, NamedList, Symbols};
use name_scopes::{ElabFault, Tops};
use std::alloc::{AllocError, Global};

/// A type; none where what is written leaves something of it open.
#[derive(Drop)]
pub struct MaybeType {
    pub con: Option<Con>,
}

/// The types of the names of a group, as far as they are written.
#[derive(Drop)]
struct TypesTask<'a, T: Terms> {
    terms: &'a T,
    group: &'a plain_tree::NamedList,
}

/// The type of a name, as far as it is written: the one that stands at it, else that of its term.
fn type_told<T: Terms>(
    alloc: Global,
    terms: &T,
    env: &Env,
    source: &plain_tree::Named,
) -> Result<MaybeType, ElabFault> {
    let con = match written_type(alloc, env, &source.con, MOST_NESTED)? {
        Some(con) => Some(con),
        None => terms.signature(alloc, env, &source.exp, MOST_NESTED)?,
    };
    Ok(MaybeType { con })
}

/// Puts a type last.
fn push_type(types: &mut Vec<MaybeType>, told: MaybeType) -> Result<(), AllocError> {
    Ok(types.push(told)?)
}

impl<'a, T: Terms> Task for TypesTask<'a, T> {
    type Made = Vec<MaybeType>;

    fn make(&self, alloc: Global, env: &Env) -> Result<Vec<MaybeType>, ElabFault> {
        let mut types = Vec::new(alloc);
        for i in 0..self.group.items.len() {
            push_type(
                &mut types,
                type_told(alloc, self.terms, env, &self.group.items[i])?,
            )?;
        }
        Ok(types)
    }
}

/// The terms of the names of a group, all of which are in scope.
#[derive(Drop)]
struct TermsTask<'a, T: Terms> {
    terms: &'a T,
    group: &'a plain_tree::NamedList,
    types: &'a Vec<MaybeType>,
}

/// A copy of the type that is told for a name; none where it is open.
fn told_type(
    alloc: Global,
    types: &Vec<MaybeType>,
    place: usize,
) -> Result<Option<Con>, AllocError> {
    match types.get(place) {
        Some(MaybeType { con: Some(con) }) => Ok(Some(copy_con(alloc, con)?)),
        _ => Ok(None),
    }
}

impl<'a, T: Terms> Task for TermsTask<'a, T> {
    type Made = NamedList;

    fn make(&self, alloc: Global, env: &Env) -> Result<NamedList, ElabFault> {
        let mut built = NamedList::new(alloc);
        for i in 0..self.group.items.len() {
            let source = &self.group.items[i];
            let told = told_type(alloc, self.types, i)?;
            let TypedTerm { exp, con } = self
                .terms
                .term(alloc, env, told.as_ref(), &source.exp, MOST_NESTED)?;
            let con = told.unwrap_or(con);
            let value = named(alloc, env, &source.name, source.con.is_some(), con, exp)?;
            built.push(Box::into_inner(value))?;
        }
        Ok(built)
    }
}

/// Declares the names of a group. While a type is open `()` stands for it.
fn add_names(
    alloc: Global,
    tops: &mut Tops,
    group: &plain_tree::NamedList,
    types: &Vec<MaybeType>,
) -> Result<(), AllocError> {
    for i in 0..group.items.len() {
        let con = match told_type(alloc, types, i)? {
            Some(con) => con,
            None => Con::UnitCon,
        };
        tops.add_value(&group.items[i].name.text, con)?;
    }
    Ok(())
}

/// Gives the names of a group, the first of which has this number, the types of their terms. One with 100,000 nodes or
/// more counts as want of memory.
fn set_types(
    alloc: Global,
    tops: &mut Tops,
    first: usize,
    built: &NamedList,
) -> Result<(), AllocError> {
    for i in 0..built.items.len() {
        let con = bounded_copy(alloc, &built.items[i].con)?;
        tops.set_value_type(first.saturating_add(i), con);
    }
    Ok(())
}

/// `val rec x : t = e and ..`, or `fun ..`. The names are in scope of all terms, with their types as far
/// as these are written.
pub fn of_group<T: Terms + Drop>(
    alloc: Global,
    terms: &T,
    tops: Tops,
    file: u32,
    group: &plain_tree::NamedList,
) -> Result<Done<Box<Decl>>, Refusal> {
    let Done { mut tops, made } = perform(alloc, tops, file, &TypesTask { terms, group })?;
    let first = tops.values.len();
    let types = made;
    if add_names(alloc, &mut tops, group, &types).is_err() {
        return Err(memory(alloc));
    }
    let task = TermsTask {
        terms,
        group,
        types: &types,
    };
    let Done { mut tops, made } = perform(alloc, tops, file, &task)?;
    match set_types(alloc, &mut tops, first, &made) {
        Ok(()) => declared(alloc, tops, Decl::ValRec(Symbols::new(alloc), made)),
        Err(_) => Err(memory(alloc)),
    }
}

//! Names of the type level: `con`, `type` and `datatype`.
use crate::fault::{Refusal, memory};
use crate::folders::{Done, Task, declared, on_heap, perform};
use crate::places::{place_of, symbol_of, symbols_of, type_of};
use crate::terms::Env;
use con_terms::{Con, Kind, Sym, copy_con, copy_kind, fits};
use core_terms::{ConDecl, Constructor, Constructors, Datatype, Decl, MOST_NESTED, Symbols};
use name_scopes::{ElabFault, Tops};
use plain_tree::{DatatypeBuilder, TypeDecl};
use std::alloc::{AllocError, Global};

/// `con x :: k = c`, or `type x = c`.
#[derive(Drop)]
struct ConTask<'a> {
    source: &'a TypeDecl,
}

/// A kind that is written, else the one that was found.
fn written_or(alloc: Global, written: &Option<Kind>, found: Kind) -> Result<Kind, AllocError> {
    match written {
        Some(kind) => copy_kind(alloc, kind),
        None => Ok(found),
    }
}

impl<'a> Task for ConTask<'a> {
    type Made = Box<ConDecl>;

    fn make(&self, alloc: Global, env: &Env) -> Result<Box<ConDecl>, ElabFault> {
        let source = self.source;
        let names = env.scope.names();
        let wanted = source.kind.as_ref();
        let (con, found) = con_elaborator::con(
            alloc,
            &env.scope,
            names,
            env.file,
            &source.con,
            wanted,
            MOST_NESTED,
        )?;
        let name = symbol_of(env, &source.name)?;
        let kind = written_or(alloc, &source.kind, found)?;
        let built = ConDecl {
            path: Symbols::new(alloc),
            place: place_of(env, source.at),
            name,
            written: source.kind.is_some(),
            kind,
            con,
        };
        Ok(on_heap(alloc, built)?)
    }
}

/// How deep what a name means may be. What is deeper counts as want of memory: names can be put together of names, so
/// the nesting of a source doesn't bound it.
const DEEPEST: u32 = 2_000;

/// Declares a name by what it means.
fn add_con(
    alloc: Global,
    tops: &mut Tops,
    source: &TypeDecl,
    made: &ConDecl,
) -> Result<(), AllocError> {
    if !fits(&made.con, DEEPEST) {
        return Err(AllocError);
    }
    let con = copy_con(alloc, &made.con)?;
    let kind = copy_kind(alloc, &made.kind)?;
    tops.add_type(&source.name.text, con, kind)
}

/// `con x :: k = c`, or `type x = c`.
pub fn of_con(
    alloc: Global,
    tops: Tops,
    file: u32,
    source: &TypeDecl,
) -> Result<Done<Box<Decl>>, Refusal> {
    let Done { mut tops, made } = perform(alloc, tops, file, &ConTask { source })?;
    match add_con(alloc, &mut tops, source, &made) {
        Ok(()) => declared(alloc, tops, Decl::Con(Box::into_inner(made))),
        Err(_) => Err(memory(alloc)),
    }
}

/// `datatype x a .. = X of c | ..`, whose type has a symbol already.
#[derive(Drop)]
struct DatatypeTask<'a> {
    source: &'a plain_tree::Datatype,
    symbol: Sym,
}

/// The scope under a datatype's parameters, the first outermost.
fn under_parameters(
    alloc: Global,
    env: &Env,
    source: &plain_tree::Datatype,
) -> Result<Env, AllocError> {
    let mut scope = env.scope.share()?;
    for i in 0..source.parameters.items.len() {
        scope = scope.with_con(alloc, &source.parameters.items[i].text, &Kind::Types)?;
    }
    Ok(Env {
        scope,
        file: env.file,
    })
}

/// A constructor of a datatype, under its parameters.
fn constructor(
    alloc: Global,
    under: &Env,
    source: &DatatypeBuilder,
) -> Result<Constructor, ElabFault> {
    let holds = match &source.holds {
        None => None,
        Some(c) => Some(type_of(alloc, under, c, MOST_NESTED)?),
    };
    Ok(Constructor {
        place: place_of(under, source.name.at),
        name: symbol_of(under, &source.name)?,
        holds,
    })
}

impl<'a> Task for DatatypeTask<'a> {
    type Made = Box<Datatype>;

    fn make(&self, alloc: Global, env: &Env) -> Result<Box<Datatype>, ElabFault> {
        let source = self.source;
        let under = under_parameters(alloc, env, source)?;
        let mut constructors = Constructors::new(alloc);
        for i in 0..source.builders.items.len() {
            constructors.push(constructor(alloc, &under, &source.builders.items[i])?)?;
        }
        let name = symbol_of(env, &source.name)?;
        let parameters = symbols_of(alloc, env, &source.parameters)?;
        let built = Datatype {
            path: Symbols::new(alloc),
            place: place_of(env, source.at),
            module: Some(env.file),
            name,
            symbol: self.symbol,
            parameters,
            constructors,
        };
        Ok(on_heap(alloc, built)?)
    }
}

/// `datatype x a .. = X of c | ..`. Its constructors see the type itself.
pub fn of_datatype(
    alloc: Global,
    tops: Tops,
    file: u32,
    source: &plain_tree::Datatype,
) -> Result<Done<Box<Decl>>, Refusal> {
    let mut tops = tops;
    let parameters = source.parameters.items.len();
    let Ok(symbol) = tops.begin_datatype(&source.name.text, parameters) else {
        return Err(memory(alloc));
    };
    let task = DatatypeTask { source, symbol };
    let Done { mut tops, made } = perform(alloc, tops, file, &task)?;
    match tops.add_builders(&made) {
        Ok(()) => declared(alloc, tops, Decl::Datatype(Box::into_inner(made))),
        Err(_) => Err(memory(alloc)),
    }
}

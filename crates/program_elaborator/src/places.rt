//! Names at their places, and constructors of a kind.
use crate::folders::on_heap;
use crate::terms::Env;
use con_nodes::{MOST, left_beside};
use con_terms::{Con, Kind, Place, Sym, copy_con};
use core_terms::{Exp, Named, Symbols};
use name_scopes::ElabFault;
use plain_tree::{Word, Words};
use std::alloc::{AllocError, Global};

/// The symbol of a name.
pub fn symbol_of(env: &Env, word: &Word) -> Result<Sym, AllocError> {
    env.scope.symbol(word.text.as_str())
}

/// The symbols of names.
pub fn symbols_of(alloc: Global, env: &Env, words: &Words) -> Result<Symbols, AllocError> {
    let mut symbols = Symbols::new(alloc);
    for i in 0..words.items.len() {
        symbols.push(symbol_of(env, &words.items[i])?)?;
    }
    Ok(symbols)
}

/// A place of the file.
pub fn place_of(env: &Env, at: u32) -> Place {
    Place { file: env.file, at }
}

/// A value's name with its term and its type.
pub fn named(
    alloc: Global,
    env: &Env,
    word: &Word,
    written: bool,
    con: Con,
    exp: Box<Exp>,
) -> Result<Box<Named>, AllocError> {
    let name = symbol_of(env, word)?;
    let value = Named {
        place: place_of(env, word.at),
        name,
        written,
        con,
        exp: Box::into_inner(exp),
    };
    on_heap(alloc, value)
}

/// A copy of a type. One with 100,000 nodes or more counts as want of memory.
pub fn bounded_copy(alloc: Global, con: &Con) -> Result<Con, AllocError> {
    if left_beside(con, MOST) == 0 {
        return Err(AllocError);
    }
    copy_con(alloc, con)
}

/// A type that is written, where one is.
pub fn written_type(
    alloc: Global,
    env: &Env,
    c: &Option<plain_tree::Con>,
    room: u32,
) -> Result<Option<Con>, ElabFault> {
    match c {
        None => Ok(None),
        Some(c) => Ok(Some(type_of(alloc, env, c, room)?)),
    }
}

/// A type.
pub fn type_of(alloc: Global, env: &Env, c: &plain_tree::Con, room: u32) -> Result<Con, ElabFault> {
    let names = env.scope.names();
    let wanted = Kind::Types;
    let (con, _) = con_elaborator::con(alloc, &env.scope, names, env.file, c, Some(&wanted), room)?;
    Ok(con)
}

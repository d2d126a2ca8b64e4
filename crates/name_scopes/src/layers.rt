//! The names that binders give, the innermost first.
use crate::known::{KnownValue, ValueName, may_be_of_class};
use con_terms::{Con, Kind, Sym, copy_kind, has_room, shift};
use core_terms::Symbols;
use std::alloc::{AllocError, Global};
use std::rc::Rc;
use table_rows::Text;

/// How many binders may stand around a term. More count as want of memory, since letting go of them
/// takes stack.
pub const MOST: u32 = 10_000;

/// What a binder names.
#[derive(Drop)]
pub enum Entry {
    /// A variable, with its type as it is seen where it is bound.
    Value(Text, Con),
    /// A constructor variable, with its symbol and its kind.
    Variable(Text, Sym, Kind),
}

/// A variable by its name in the source and by its number, with its type.
#[derive(Drop)]
pub struct LocalValue {
    pub called: Text,
    pub name: ValueName,
    pub con: Con,
}

/// What was bound, the last first.
#[cycle(layers)]
#[derive(Drop)]
enum Tail {
    Empty,
    Over(Rc<Layer>),
}

/// What was bound last, and what was bound before.
#[cycle(layers)]
#[derive(Drop)]
struct Layer {
    entry: Entry,
    rest: Tail,
}

/// What was bound, and how much that is.
#[derive(Drop)]
pub struct Layers {
    count: u32,
    tail: Tail,
}

/// A constructor as it is seen from under so many binders more. One without room for that counts as
/// want of memory.
fn raised(alloc: Global, c: &Con, by: u32) -> Result<Con, AllocError> {
    if by >= 0x8000_0000 || !has_room(c) {
        return Err(AllocError);
    }
    shift(alloc, c, by, 0)
}

/// The same once more.
fn shared(tail: &Tail) -> Result<Tail, AllocError> {
    match tail {
        Tail::Empty => Ok(Tail::Empty),
        Tail::Over(layer) => Ok(Tail::Over(layer.clone()?)),
    }
}

impl Layers {
    /// Nothing bound.
    pub fn new() -> Layers {
        Layers {
            count: 0,
            tail: Tail::Empty,
        }
    }

    /// The same once more, which shares all that stands in it.
    pub fn share(&self) -> Result<Layers, AllocError> {
        Ok(Layers {
            count: self.count,
            tail: shared(&self.tail)?,
        })
    }

    /// With one more bound.
    pub fn with(&self, alloc: Global, entry: Entry) -> Result<Layers, AllocError> {
        if self.count >= MOST {
            return Err(AllocError);
        }
        let rest = shared(&self.tail)?;
        let layer = Rc::new(alloc, Layer { entry, rest }).map_err(AllocError::from)?;
        Ok(Layers {
            count: self.count + 1,
            tail: Tail::Over(layer),
        })
    }

    /// The innermost variable of a name, with its type as it is seen from here.
    pub fn value(&self, alloc: Global, name: &str) -> Result<Option<KnownValue>, AllocError> {
        let mut values: u32 = 0;
        let mut variables: u32 = 0;
        let mut tail = &self.tail;
        for _ in 0..self.count {
            let Tail::Over(layer) = tail else {
                return Ok(None);
            };
            match &layer.entry {
                Entry::Value(text, con) => {
                    if text.as_str() == name {
                        return Ok(Some(KnownValue {
                            name: ValueName::Local(values),
                            con: raised(alloc, con, variables)?,
                        }));
                    }
                    values = values.saturating_add(1);
                }
                Entry::Variable(_, _, _) => variables = variables.saturating_add(1),
            }
            tail = &layer.rest;
        }
        Ok(None)
    }

    /// The variables whose types may be those of instances, the innermost first.
    pub fn candidates(&self, alloc: Global) -> Result<Vec<LocalValue>, AllocError> {
        let mut found = Vec::new(alloc);
        let mut values: u32 = 0;
        let mut variables: u32 = 0;
        let mut tail = &self.tail;
        for _ in 0..self.count {
            let Tail::Over(layer) = tail else {
                return Ok(found);
            };
            match &layer.entry {
                Entry::Value(text, con) => {
                    if may_be_of_class(con) {
                        found.push(LocalValue {
                            called: text.copy(alloc)?,
                            name: ValueName::Local(values),
                            con: raised(alloc, con, variables)?,
                        })?;
                    }
                    values = values.saturating_add(1);
                }
                Entry::Variable(_, _, _) => variables = variables.saturating_add(1),
            }
            tail = &layer.rest;
        }
        Ok(found)
    }

    /// The innermost constructor variable of a name, with its kind.
    pub fn variable(&self, alloc: Global, name: &str) -> Result<Option<(u32, Kind)>, AllocError> {
        let mut variables: u32 = 0;
        let mut tail = &self.tail;
        for _ in 0..self.count {
            let Tail::Over(layer) = tail else {
                return Ok(None);
            };
            match &layer.entry {
                Entry::Value(_, _) => {}
                Entry::Variable(text, _, kind) => {
                    if text.as_str() == name {
                        return Ok(Some((variables, copy_kind(alloc, kind)?)));
                    }
                    variables = variables.saturating_add(1);
                }
            }
            tail = &layer.rest;
        }
        Ok(None)
    }

    /// What the constructor variables are called, the innermost first.
    pub fn called(&self, alloc: Global) -> Result<Symbols, AllocError> {
        let mut called = Symbols::new(alloc);
        let mut tail = &self.tail;
        for _ in 0..self.count {
            let Tail::Over(layer) = tail else {
                return Ok(called);
            };
            match &layer.entry {
                Entry::Value(_, _) => {}
                Entry::Variable(_, symbol, _) => called.push(*symbol)?,
            }
            tail = &layer.rest;
        }
        Ok(called)
    }
}

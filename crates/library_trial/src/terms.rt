//! Terms as deep as they are built.
use con_terms::Place;
use core_terms::{Exp, Form, Item, Items, MOST_NESTED, Sigil};
use std::alloc::{AllocError, Global};

/// The term `7` at this byte.
fn number(at: u32) -> Exp {
    Exp {
        place: Place { file: 0, at },
        added: false,
        form: Form::Int(7),
    }
}

/// A call with this argument.
fn call(alloc: Global, argument: Box<Exp>) -> Result<Box<Exp>, AllocError> {
    let mut items = Items::new(alloc);
    items.push(Item::Term(Box::into_inner(argument)))?;
    let head = Box::new(alloc, number(1))?;
    let term = Exp {
        place: Place { file: 0, at: 1 },
        added: false,
        form: Form::Call(head, Sigil::Plain, items),
    };
    Ok(Box::new(alloc, term)?)
}

/// A call in a call, so many times: as deep as terms are built.
fn nested(alloc: Global, levels: u32) -> Result<Box<Exp>, AllocError> {
    let mut term = Box::new(alloc, number(0))?;
    for _ in 0..levels {
        term = call(alloc, term)?;
    }
    Ok(term)
}

/// A term as deep as terms are built.
pub fn the_deepest_terms_are_let_go(alloc: Global) -> Result<bool, AllocError> {
    let term = nested(alloc, MOST_NESTED)?;
    Ok(term.place.at == 1)
}

//! Calls as they begin.
use con_terms::{Con, Pair, Pairs, Place, copy_con};
use core_terms::{Exp, Field, Fields, Form, Sigil};
use name_scopes::ElabFault;
use open_terms::{
    Call, Env, Head, Input, Outcome, RecField, Typed, done, node, on_heap, record_of_pairs,
};
use plain_tree::{Item, Items};
use std::alloc::{AllocError, Global};
use unknowns::Found;

/// What a call is applied to, in order.
pub fn inputs<'a>(
    alloc: Global,
    env: &Env,
    items: &'a Items,
) -> Result<Vec<Input<'a>>, AllocError> {
    let mut inputs = Vec::with_capacity(alloc, items.items.len())?;
    for i in 0..items.items.len() {
        let input = match &items.items[i] {
            Item::Term(e) => Input::Term(e),
            Item::Con(at, c) => Input::Con(env.place(*at), c),
            Item::Guard(at) => Input::Guard(env.place(*at)),
        };
        inputs.push(input)?;
    }
    Ok(inputs)
}

/// A call of an identifier.
#[inline(never)]
pub fn call_of<'a>(
    alloc: Global,
    env: &Env,
    place: Place,
    head: Head,
    inputs: Vec<Input<'a>>,
) -> Result<Box<Call<'a>>, AllocError> {
    let sigil = head.sigil;
    start(alloc, env, place, head, inputs, sigil)
}

/// A call of another term: nothing is inserted.
#[inline(never)]
pub fn call_of_term<'a>(
    alloc: Global,
    env: &Env,
    place: Place,
    exp: Box<Exp>,
    con: Con,
    inputs: Vec<Input<'a>>,
) -> Result<Box<Call<'a>>, AllocError> {
    let head = Head {
        exp,
        con,
        sigil: Sigil::Plain,
    };
    start(alloc, env, place, head, inputs, Sigil::AtAt)
}

/// A call before its walk.
fn start<'a>(
    alloc: Global,
    env: &Env,
    place: Place,
    head: Head,
    inputs: Vec<Input<'a>>,
    inserts: Sigil,
) -> Result<Box<Call<'a>>, AllocError> {
    let alone = inputs.is_empty();
    let Head { exp, con, sigil } = head;
    let rest = on_heap(alloc, con)?;
    let env = on_heap(alloc, env.share()?)?;
    let found = on_heap(alloc, Found::new())?;
    let call = Call {
        env,
        place,
        head: exp,
        sigil,
        inserts,
        alone,
        inputs,
        next: 0,
        steps: Vec::new(alloc),
        found,
        rest,
    };
    Ok(on_heap(alloc, call)?)
}

/// The two operands of an operator, of which the left one was elaborated before.
pub fn operands<'a>(
    alloc: Global,
    left: Place,
    ready: Outcome<'a>,
    right: &'a plain_tree::Exp,
) -> Result<Vec<Input<'a>>, AllocError> {
    let mut inputs = Vec::with_capacity(alloc, 2)?;
    inputs.push(Input::Ready(left, ready))?;
    inputs.push(Input::Term(right))?;
    Ok(inputs)
}

/// Puts a field that is known last in a record, and its type last in the record's.
fn put_field(
    alloc: Global,
    field: RecField<'_>,
    all: &mut Fields,
    pairs: &mut Pairs,
) -> Result<(), ElabFault> {
    let RecField { place, name, value } = field;
    match value {
        Outcome::Done(typed) => {
            let Typed { exp, con } = Box::into_inner(typed);
            pairs.push(Pair {
                name: copy_con(alloc, &name)?,
                value: con,
            })?;
            all.push(Field {
                place,
                name: Box::into_inner(name),
                value: Box::into_inner(exp),
            })?;
            Ok(())
        }
        Outcome::Later(_) => Err(ElabFault::Unsolved(place)),
    }
}

/// A record of fields that are known, with its type.
#[inline(never)]
pub fn record_of<'a>(
    alloc: Global,
    place: Place,
    fields: Vec<RecField<'a>>,
) -> Result<Outcome<'a>, ElabFault> {
    let mut all = Fields::new(alloc);
    let mut pairs = Pairs::new(alloc);
    for field in fields {
        put_field(alloc, field, &mut all, &mut pairs)?;
    }
    let con = record_of_pairs(alloc, pairs)?;
    Ok(done(alloc, node(alloc, place, Form::Rec(all))?, con)?)
}

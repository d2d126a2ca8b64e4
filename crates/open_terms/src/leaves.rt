//! Numbers and texts.
use crate::heads::node;
use crate::pending::{Outcome, done};
use con_terms::Place;
use core_terms::{Exp, Form};
use name_scopes::ElabFault;
use std::alloc::{AllocError, Global};
use table_rows::Text;
use type_makers::{int_type, string_type};

/// The number that digits stand for, behind `-` where the flag is true. Sources have none above 2^63 - 1.
pub fn number_of(negative: bool, digits: u64) -> i64 {
    let low = digits % 0x8000_0000_0000_0000;
    let value = low as i64;
    if negative {
        value.wrapping_neg()
    } else {
        value
    }
}

/// The term of a number.
fn number_node(alloc: Global, place: Place, digits: u64) -> Result<Box<Exp>, AllocError> {
    node(alloc, place, Form::Int(number_of(false, digits)))
}

/// The term of a text.
fn words_node(alloc: Global, place: Place, text: &Text) -> Result<Box<Exp>, AllocError> {
    node(alloc, place, Form::Words(text.copy(alloc)?))
}

/// A number.
pub fn number<'a>(alloc: Global, place: Place, digits: u64) -> Result<Outcome<'a>, ElabFault> {
    let exp = number_node(alloc, place, digits)?;
    Ok(done(alloc, exp, int_type())?)
}

/// A text.
pub fn words<'a>(alloc: Global, place: Place, text: &Text) -> Result<Outcome<'a>, ElabFault> {
    let exp = words_node(alloc, place, text)?;
    Ok(done(alloc, exp, string_type())?)
}

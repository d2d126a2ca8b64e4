//! Symbols and constructors: what the clauses do not say, that memory is enough, and how deep recursion goes.
use con_terms::{Con, Kind, SymTable, copy_con, fits, has_room, shift, subst};
use std::alloc::{AllocError, Global};

/// `$c`
fn record(alloc: Global, c: Box<Con>) -> Result<Box<Con>, AllocError> {
    Ok(Box::new(alloc, Con::Record(c))?)
}

/// `fn x :: Type => $y`, where `y` has this number.
fn lambda(alloc: Global, number: u32) -> Result<Box<Con>, AllocError> {
    let body = record(alloc, Box::new(alloc, Con::Var(number))?)?;
    let kind = Box::new(alloc, Kind::Types)?;
    Ok(Box::new(alloc, Con::Lambda(kind, body))?)
}

/// Whether two texts, one of them twice, are the only ones of a table then.
fn are_alone(table: &mut SymTable) -> Result<bool, AllocError> {
    let int = table.intern("int")?;
    let string = table.intern("string")?;
    let again = table.intern("int")?;
    Ok(
        int == again
            && int != string
            && table.count() == 2
            && table.find("string") == Some(string)
            && table.find("strin").is_none(),
    )
}

/// Two texts, one of them twice.
pub fn texts_and_symbols(alloc: Global) -> Result<bool, AllocError> {
    are_alone(&mut SymTable::new(alloc))
}

/// The number of the variable in `fn y => $x`.
fn number_within(c: &Con) -> Option<u32> {
    match c {
        Con::Lambda(_, inner) => match &**inner {
            Con::Record(inside) => match &**inside {
                Con::Var(number) => Some(*number),
                _ => None,
            },
            _ => None,
        },
        _ => None,
    }
}

/// The number of the variable in `fn y => $x` with an argument for x, if there is room for both.
fn number_with(alloc: Global, body: &Con, argument: &Con) -> Result<Option<u32>, AllocError> {
    if !has_room(body) || !has_room(argument) {
        return Ok(None);
    }
    Ok(number_within(&subst(alloc, body, argument)?))
}

/// `fn y => $x` with the free number 3 for x.
pub fn substitution_goes_under_binders(alloc: Global) -> Result<bool, AllocError> {
    let body = lambda(alloc, 1)?;
    Ok(number_with(alloc, &body, &Con::Var(3))? == Some(4))
}

/// Records in each other, so many.
fn records(alloc: Global, count: u32) -> Result<Box<Con>, AllocError> {
    let mut c = Box::new(alloc, Con::UnitCon)?;
    for _ in 0..count {
        c = record(alloc, c)?;
    }
    Ok(c)
}

/// Whether a constructor is so deep at most when it is moved.
fn is_moved(alloc: Global, c: &Con, depth: u32) -> Result<bool, AllocError> {
    if !has_room(c) {
        return Ok(false);
    }
    Ok(fits(&shift(alloc, c, 1, 0)?, depth))
}

/// Whether a copy of a constructor is so deep at most.
fn is_copied(alloc: Global, c: &Con, depth: u32) -> Result<bool, AllocError> {
    Ok(fits(&copy_con(alloc, c)?, depth))
}

/// A constructor as deep as may be.
fn deepest(alloc: Global) -> Result<bool, AllocError> {
    let c = records(alloc, 1999)?;
    let is_deep = fits(&c, 2000) && !fits(&c, 1999);
    Ok(is_deep && is_moved(alloc, &c, 2000)? && is_copied(alloc, &c, 2000)?)
}

/// A constructor with the greatest number.
fn outermost(alloc: Global) -> Result<bool, AllocError> {
    let c = record(alloc, Box::new(alloc, Con::Var(u32::MAX))?)?;
    Ok(!has_room(&c) && is_copied(alloc, &c, 2)?)
}

/// Constructors as deep as may be, and one with the greatest number.
pub fn deep_constructors(alloc: Global) -> Result<bool, AllocError> {
    Ok(deepest(alloc)? && outermost(alloc)?)
}

//! Constructors as deep as may be and one deeper, of each form: on the program's stack, and on those of threads.
use con_terms::{Con, Kind, Pair, Pairs, Sym};
use row_normal::normal::normal;
use row_normal::{DEPTH, Fuel, NormalFault};
use std::alloc::{AllocError, Global};
use std::thread::Threads;
use std::{io, thread};

/// A form in which constructors are put one into another.
#[derive(Clone, Copy)]
enum Nested {
    Records,
    Arrows,
    Lambdas,
    Applications,
    Concatenations,
    Fields,
}

/// Each form, with what becomes of it in a thread.
const FORMS: [(Nested, &str); 6] = [
    (Nested::Records, "waiting"),
    (Nested::Arrows, "waiting"),
    (Nested::Lambdas, "waiting"),
    (Nested::Applications, "waiting"),
    (Nested::Concatenations, "waiting"),
    (Nested::Fields, "waiting"),
];

/// The literal with one field.
fn field(alloc: Global, value: Box<Con>) -> Result<Con, AllocError> {
    let name = Con::Name(Sym { number: 1 });
    let mut fields = Pairs::new(alloc);
    let value = Box::into_inner(value);
    fields.push(Pair { name, value })?;
    Ok(Con::Row(Box::new(alloc, Kind::Types)?, fields))
}

/// A constructor put into another of one form.
fn wrapped(alloc: Global, form: Nested, c: Box<Con>) -> Result<Con, AllocError> {
    match form {
        Nested::Records => Ok(Con::Record(c)),
        Nested::Arrows => Ok(Con::Arrow(Box::new(alloc, Con::Var(2))?, c)),
        Nested::Lambdas => Ok(Con::Lambda(Box::new(alloc, Kind::Types)?, c)),
        Nested::Applications => Ok(Con::App(c, Box::new(alloc, Con::Var(2))?)),
        Nested::Concatenations => Ok(Con::Cat(Box::new(alloc, Con::Var(2))?, c)),
        Nested::Fields => field(alloc, c),
    }
}

/// A constructor that is so deep, of one form.
fn nest(alloc: Global, form: Nested, depth: u32) -> Result<Box<Con>, AllocError> {
    let mut c = Box::new(alloc, Con::Var(3))?;
    for _ in 1..depth {
        c = Box::new(alloc, wrapped(alloc, form, c)?)?;
    }
    Ok(c)
}

/// What becomes of the normal form of a constructor that is so deep, of one form, with 100,000 units.
fn outcome(alloc: Global, form: Nested, depth: u32) -> &'static str {
    let Ok(c) = nest(alloc, form, depth) else {
        return "no memory";
    };
    let mut fuel = Fuel { left: 100_000 };
    match normal(alloc, &c, &Kind::Types, &mut fuel) {
        Ok(_) => "a normal form",
        Err(NormalFault::TooLarge) => "too large",
        Err(NormalFault::Memory) => "no memory",
    }
}

/// Each form so deep, here.
fn tell_here<R: Print>(rt: &R, alloc: Global, depth: u32) -> io::Result<()> {
    for (form, _) in FORMS {
        println!(rt; "{} deep: {}", depth, outcome(alloc, form, depth))?;
    }
    Ok(())
}

/// Each form at the greatest depth, in threads.
fn tell_threads<R: Threads + Print + Sync>(rt: &R, alloc: Global) -> io::Result<()> {
    let mut forms = FORMS;
    thread::for_each_mut(
        rt,
        &mut forms,
        3,
        &|_, (form, told)| { *told = outcome(alloc, *form, DEPTH) },
    );
    for (_, told) in forms {
        println!(rt; "in a thread: {}", told)?;
    }
    Ok(())
}

/// Each form at the greatest depth and one deeper, here, and at the greatest depth in threads.
pub fn deepest_constructors<R: Threads + Print + Sync>(rt: &R, alloc: Global) -> io::Result<()> {
    tell_here(rt, alloc, DEPTH)?;
    tell_here(rt, alloc, DEPTH + 1)?;
    tell_threads(rt, alloc)
}

//! Constructors and kinds put together from parts, each of which is an error where memory ended.
//!
//! A part that is an error makes the whole one, so whoever puts a type together asks of no part
//! whether it was made.
ghost use Rattle.std.specs.Prelude.{◌≡◌, IfOk, Ok};
ghost use Rattle.con_terms.specs.Trees as tree;
ghost use Rattle.con_terms.specs.Trees.{Cn, Kd, Prs};
ghost use Rattle.con_terms.specs.View.{con_tree, kind_tree, pairs_tree};
ghost use Rattle.type_makers.specs.Made.{Makes, MakesKind, MakesPair, MakesPairs};

use con_terms::{Con, Kind, Pair, Pairs, Sym};
use std::alloc::{AllocError, Global};

/// Both parts, where both were made.
pub fn both<A: Drop, B: Drop>(
    first: Result<A, AllocError>,
    second: Result<B, AllocError>,
) -> Result<(A, B), AllocError>
    ensures { IfOk result (λ made. (first ≡ Ok made.0) × (second ≡ Ok made.1)) }
{
    match first {
        Err(error) => Err(error),
        Ok(first) => match second {
            Err(error) => Err(error),
            Ok(second) => Ok((first, second)),
        },
    }
}

/// A constructor in a box.
fn boxed(alloc: Global, c: Result<Con, AllocError>) -> Result<Box<Con>, AllocError>
    ensures { (t : Cn) → Makes c t → IfOk result (λ new. con_tree new.value ≡ t) }
{
    match c {
        Ok(c) => Ok(Box::new(alloc, c)?),
        Err(error) => Err(error),
    }
}

/// A kind in a box.
fn boxed_kind(alloc: Global, kind: Result<Kind, AllocError>) -> Result<Box<Kind>, AllocError>
    ensures { (k : Kd) → MakesKind kind k → IfOk result (λ new. kind_tree new.value ≡ k) }
{
    match kind {
        Ok(kind) => Ok(Box::new(alloc, kind)?),
        Err(error) => Err(error),
    }
}

/// What the binder that is so many binders further out binds.
pub fn var(number: u32) -> Result<Con, AllocError>
    ensures { Makes result (tree.var number) }
{
    Ok(Con::Var(number))
}

/// A basic name.
pub fn basic(s: Sym) -> Result<Con, AllocError>
    ensures { Makes result (tree.basic s.number) }
{
    Ok(Con::Basic(s))
}

/// The name of a field.
pub fn label(s: Sym) -> Result<Con, AllocError>
    ensures { Makes result (tree.name s.number) }
{
    Ok(Con::Name(s))
}

/// `()`
pub fn unit_con() -> Result<Con, AllocError>
    ensures { Makes result tree.unit_con }
{
    Ok(Con::UnitCon)
}

/// `Type`
pub fn types_kind() -> Result<Kind, AllocError>
    ensures { MakesKind result tree.types }
{
    Ok(Kind::Types)
}

/// `Unit`
pub fn units_kind() -> Result<Kind, AllocError>
    ensures { MakesKind result tree.units }
{
    Ok(Kind::Units)
}

/// `Name`
pub fn names_kind() -> Result<Kind, AllocError>
    ensures { MakesKind result tree.names }
{
    Ok(Kind::Names)
}

/// `from -> to`
pub fn arrow(
    alloc: Global,
    from: Result<Con, AllocError>,
    to: Result<Con, AllocError>,
) -> Result<Con, AllocError>
    ensures { (a b : Cn) → Makes from a → Makes to b → Makes result (tree.arrow a b) }
{
    match both(boxed(alloc, from), boxed(alloc, to)) {
        Ok((from, to)) => Ok(Con::Arrow(from, to)),
        Err(error) => Err(error),
    }
}

/// `x :: kind -> body`, or `x ::: kind -> body` where it is implicit
pub fn poly(
    alloc: Global,
    implicit: bool,
    kind: Result<Kind, AllocError>,
    body: Result<Con, AllocError>,
) -> Result<Con, AllocError>
    ensures { (k : Kd) (b : Cn) → MakesKind kind k → Makes body b → Makes result (tree.poly implicit k b) }
{
    match both(boxed_kind(alloc, kind), boxed(alloc, body)) {
        Ok((kind, body)) => Ok(Con::Poly(implicit, kind, body)),
        Err(error) => Err(error),
    }
}

/// `[left ~ right] => body`
pub fn guarded(
    alloc: Global,
    left: Result<Con, AllocError>,
    right: Result<Con, AllocError>,
    body: Result<Con, AllocError>,
) -> Result<Con, AllocError>
    ensures { (l r b : Cn) → Makes left l → Makes right r → Makes body b → Makes result (tree.guarded l r b) }
{
    let sides = both(boxed(alloc, left), boxed(alloc, right));
    match both(sides, boxed(alloc, body)) {
        Ok(((left, right), body)) => Ok(Con::Guarded(left, right, body)),
        Err(error) => Err(error),
    }
}

/// `$row`
pub fn record(alloc: Global, row: Result<Con, AllocError>) -> Result<Con, AllocError>
    ensures { (r : Cn) → Makes row r → Makes result (tree.record_of r) }
{
    match boxed(alloc, row) {
        Ok(row) => Ok(Con::Record(row)),
        Err(error) => Err(error),
    }
}

/// `function argument`
pub fn applied(
    alloc: Global,
    function: Result<Con, AllocError>,
    argument: Result<Con, AllocError>,
) -> Result<Con, AllocError>
    ensures { (f a : Cn) → Makes function f → Makes argument a → Makes result (tree.app f a) }
{
    match both(boxed(alloc, function), boxed(alloc, argument)) {
        Ok((function, argument)) => Ok(Con::App(function, argument)),
        Err(error) => Err(error),
    }
}

/// A basic name at one argument.
pub fn basic_at(alloc: Global, s: Sym, argument: Result<Con, AllocError>) -> Result<Con, AllocError>
    ensures { (a : Cn) → Makes argument a → Makes result (tree.app (tree.basic s.number) a) }
{
    applied(alloc, basic(s), argument)
}

/// `left ++ right`
pub fn joined(
    alloc: Global,
    left: Result<Con, AllocError>,
    right: Result<Con, AllocError>,
) -> Result<Con, AllocError>
    ensures { (l r : Cn) → Makes left l → Makes right r → Makes result (tree.cat l r) }
{
    match both(boxed(alloc, left), boxed(alloc, right)) {
        Ok((left, right)) => Ok(Con::Cat(left, right)),
        Err(error) => Err(error),
    }
}

/// `fn x :: kind => body`
pub fn lambda(
    alloc: Global,
    kind: Result<Kind, AllocError>,
    body: Result<Con, AllocError>,
) -> Result<Con, AllocError>
    ensures { (k : Kd) (b : Cn) → MakesKind kind k → Makes body b → Makes result (tree.lambda k b) }
{
    match both(boxed_kind(alloc, kind), boxed(alloc, body)) {
        Ok((kind, body)) => Ok(Con::Lambda(kind, body)),
        Err(error) => Err(error),
    }
}

/// `map`, which takes a function from the first kind to the second
pub fn map_of(
    alloc: Global,
    from: Result<Kind, AllocError>,
    to: Result<Kind, AllocError>,
) -> Result<Con, AllocError>
    ensures { (k l : Kd) → MakesKind from k → MakesKind to l → Makes result (tree.map_of k l) }
{
    match both(boxed_kind(alloc, from), boxed_kind(alloc, to)) {
        Ok((from, to)) => Ok(Con::Map(from, to)),
        Err(error) => Err(error),
    }
}

/// A row literal of these fields, whose values have this kind.
pub fn row(
    alloc: Global,
    kind: Result<Kind, AllocError>,
    fields: Result<Pairs, AllocError>,
) -> Result<Con, AllocError>
    ensures { (k : Kd) (ps : Prs) → MakesKind kind k → MakesPairs fields ps → Makes result (tree.row k ps) }
{
    match both(boxed_kind(alloc, kind), fields) {
        Ok((kind, fields)) => Ok(Con::Row(kind, fields)),
        Err(error) => Err(error),
    }
}

/// No fields.
fn no_fields(alloc: Global) -> Result<Pairs, AllocError>
    ensures { MakesPairs result tree.no_pairs }
{
    Ok(Pairs {
        items: Vec::new(alloc),
    })
}

/// `[]`, whose values would have this kind
pub fn empty_row(alloc: Global, kind: Result<Kind, AllocError>) -> Result<Con, AllocError>
    ensures { (k : Kd) → MakesKind kind k → Makes result (tree.row k tree.no_pairs) }
{
    row(alloc, kind, no_fields(alloc))
}

/// A field.
pub fn field(
    name: Result<Con, AllocError>,
    value: Result<Con, AllocError>,
) -> Result<Pair, AllocError>
    ensures { (n v : Cn) → Makes name n → Makes value v → MakesPair result (n, v) }
{
    match both(name, value) {
        Ok((name, value)) => Ok(Pair { name, value }),
        Err(error) => Err(error),
    }
}

/// One field alone.
fn one_field(alloc: Global, field: Result<Pair, AllocError>) -> Result<Pairs, AllocError>
    ensures { (p : Cn × Cn) → MakesPair field p → MakesPairs result (tree.pair p.0 p.1 tree.no_pairs) }
{
    match field {
        Ok(field) => Ok(Pairs {
            items: vec![in alloc; field]?,
        }),
        Err(error) => Err(error),
    }
}

/// `[name = value]`, where the value has this kind
pub fn field_row(
    alloc: Global,
    kind: Result<Kind, AllocError>,
    name: Result<Con, AllocError>,
    value: Result<Con, AllocError>,
) -> Result<Con, AllocError>
    ensures { (k : Kd) (n v : Cn) → MakesKind kind k → Makes name n → Makes value v
        → Makes result (tree.row k (tree.pair n v tree.no_pairs)) }
{
    row(alloc, kind, one_field(alloc, field(name, value)))
}

/// Two fields.
fn two_fields(
    alloc: Global,
    first: Result<Pair, AllocError>,
    second: Result<Pair, AllocError>,
) -> Result<Pairs, AllocError>
    ensures { (p q : Cn × Cn) → MakesPair first p → MakesPair second q
        → MakesPairs result (tree.pair p.0 p.1 (tree.pair q.0 q.1 tree.no_pairs)) }
{
    match both(first, second) {
        Ok((first, second)) => Ok(Pairs {
            items: vec![in alloc; first, second]?,
        }),
        Err(error) => Err(error),
    }
}

/// `[first = value, second = other]`, where the values have this kind
pub fn two_field_row(
    alloc: Global,
    kind: Result<Kind, AllocError>,
    first: Result<Pair, AllocError>,
    second: Result<Pair, AllocError>,
) -> Result<Con, AllocError>
    ensures { (k : Kd) (p q : Cn × Cn) → MakesKind kind k → MakesPair first p → MakesPair second q
        → Makes result (tree.row k (tree.pair p.0 p.1 (tree.pair q.0 q.1 tree.no_pairs))) }
{
    row(alloc, kind, two_fields(alloc, first, second))
}

/// `{kind}`
pub fn row_kind(alloc: Global, kind: Result<Kind, AllocError>) -> Result<Kind, AllocError>
    ensures { (k : Kd) → MakesKind kind k → MakesKind result (tree.row_of k) }
{
    match boxed_kind(alloc, kind) {
        Ok(kind) => Ok(Kind::Row(kind)),
        Err(error) => Err(error),
    }
}

/// `from -> to`
pub fn arrow_kind(
    alloc: Global,
    from: Result<Kind, AllocError>,
    to: Result<Kind, AllocError>,
) -> Result<Kind, AllocError>
    ensures { (k l : Kd) → MakesKind from k → MakesKind to l → MakesKind result (tree.to k l) }
{
    match both(boxed_kind(alloc, from), boxed_kind(alloc, to)) {
        Ok((from, to)) => Ok(Kind::Arrow(from, to)),
        Err(error) => Err(error),
    }
}

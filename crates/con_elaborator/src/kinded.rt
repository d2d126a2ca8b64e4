//! Constructors with their kinds, form by form. `room` is the number of levels that are left; none
//! left counts as want of memory.
ghost use Rattle.std.specs.Prelude.{◌≤◌, IfOk};

pub use crate::leaves::KindedCon;
use crate::leaves::{
    Here, boxed_kind, boxed_rows, con_on_heap, copy_maybe, folder_over, kind_on_heap, kinded,
    kinds_differ, labelled, map_over, named,
};
use con_nodes::MOST;
use con_terms::{Con, Cons, Kind, Kinds, Pair, Pairs, SymTable, copy_kind, same_kind};
use name_scopes::{ElabFault, KnownType, Scope};
use plain_tree::{Numbers, Path, con as plain};
use std::alloc::{AllocError, Global};
use table_rows::Text;
use type_makers::{empty_row, row_kind};

/// The constructor of the type level that a constructor of a source is, with its kind.
///
/// `wanted` is the kind that is wanted where it stands; kinds that are left out go by it. The places of
/// faults are in the file with this number. What its names stand for may have fewer than 100,000 nodes together: more
/// count as want of memory.
pub fn con(
    alloc: Global,
    scope: &Scope,
    names: &SymTable,
    file: u32,
    c: &plain::Con,
    wanted: Option<&Kind>,
    room: u32,
) -> Result<(Con, Kind), ElabFault> {
    let mut here = Here {
        alloc,
        names,
        file,
        left: MOST,
    };
    let KindedCon { con, kind } = elaborate(&mut here, scope, c, wanted, room)?;
    Ok((Box::into_inner(con), Box::into_inner(kind)))
}

/// A constructor, with one level fewer for its parts.
#[cycle(elaborate)]
fn elaborate(
    here: &mut Here<'_>,
    scope: &Scope,
    c: &plain::Con,
    wanted: Option<&Kind>,
    room: u32,
) -> Result<KindedCon, ElabFault> {
    if room == 0 {
        return Err(ElabFault::Memory);
    }
    let left = room - 1;
    match &c.form {
        plain::ConForm::Name(path) => named(here, scope, c.at, path, wanted),
        plain::ConForm::Wild => Err(ElabFault::Unsolved(here.place(c.at))),
        plain::ConForm::Label(label) => labelled(here, label),
        plain::ConForm::Arrow(from, to) => of_arrow(here, scope, from, to, left),
        plain::ConForm::Poly(implicit, name, kind, body) => {
            of_poly(here, scope, *implicit, name, kind, body, left)
        }
        plain::ConForm::Guarded(a, b, body) => of_guarded(here, scope, a, b, body, left),
        plain::ConForm::Lambda(name, kind, body) => {
            of_lambda(here, scope, name, kind, body, wanted, left)
        }
        plain::ConForm::Record(more, row) => of_record(here, scope, more.items.len(), row, left),
        plain::ConForm::Apply(function, arguments) => {
            of_apply(here, scope, function, arguments, left)
        }
        plain::ConForm::Concat(first, more) => of_concat(here, scope, first, more, wanted, left),
        plain::ConForm::Unit => Ok(kinded(here.alloc, Con::UnitCon, Kind::Units)?),
        plain::ConForm::Tuple(parts) => of_tuple(here, scope, parts, wanted, left),
        plain::ConForm::Kinded(part, kind) => of_kinded(here, scope, part, kind, left),
        plain::ConForm::Row(fields) => of_row(here, scope, fields, wanted, left),
        plain::ConForm::Proj(tuple, numbers) => of_proj(here, scope, tuple, numbers, left),
    }
}

/// A constructor of the kind `Type`.
fn of_type(alloc: Global, con: Con) -> Result<KindedCon, ElabFault> {
    Ok(kinded(alloc, con, Kind::Types)?)
}

/// `c -> d`
#[cycle(elaborate)]
#[inline(never)]
fn of_arrow(
    here: &mut Here<'_>,
    scope: &Scope,
    from: &plain::Con,
    to: &plain::Con,
    room: u32,
) -> Result<KindedCon, ElabFault> {
    let from = elaborate(here, scope, from, Some(&Kind::Types), room)?;
    let to = elaborate(here, scope, to, Some(&Kind::Types), room)?;
    of_type(here.alloc, Con::Arrow(from.con, to.con))
}

/// `x :: k -> c`, or `x ::: k -> c`
#[cycle(elaborate)]
#[inline(never)]
fn of_poly(
    here: &mut Here<'_>,
    scope: &Scope,
    implicit: bool,
    name: &Text,
    kind: &Kind,
    body: &plain::Con,
    room: u32,
) -> Result<KindedCon, ElabFault> {
    let under = scope.with_con(here.alloc, name, kind)?;
    let body = elaborate(here, &under, body, Some(&Kind::Types), room)?;
    let kind = kind_on_heap(here.alloc, copy_kind(here.alloc, kind)?)?;
    of_type(here.alloc, Con::Poly(implicit, kind, body.con))
}

/// `[c ~ d] => e`
#[cycle(elaborate)]
#[inline(never)]
fn of_guarded(
    here: &mut Here<'_>,
    scope: &Scope,
    left: &plain::Con,
    right: &plain::Con,
    body: &plain::Con,
    room: u32,
) -> Result<KindedCon, ElabFault> {
    let left = elaborate(here, scope, left, None, room)?;
    let right = elaborate(here, scope, right, None, room)?;
    let body = elaborate(here, scope, body, Some(&Kind::Types), room)?;
    of_type(here.alloc, Con::Guarded(left.con, right.con, body.con))
}

/// `fn x :: k => c`
#[cycle(elaborate)]
#[inline(never)]
fn of_lambda(
    here: &mut Here<'_>,
    scope: &Scope,
    name: &Text,
    kind: &Kind,
    body: &plain::Con,
    wanted: Option<&Kind>,
    room: u32,
) -> Result<KindedCon, ElabFault> {
    let under = scope.with_con(here.alloc, name, kind)?;
    let gives = match wanted {
        Some(Kind::Arrow(_, gives)) => Some(&**gives),
        _ => None,
    };
    let body = elaborate(here, &under, body, gives, room)?;
    Ok(function_of(here.alloc, kind, body)?)
}

/// The function of a constructor of a kind with this body.
fn function_of(alloc: Global, kind: &Kind, body: KindedCon) -> Result<KindedCon, AllocError> {
    let KindedCon { con, kind: gives } = body;
    let from = kind_on_heap(alloc, copy_kind(alloc, kind)?)?;
    let under = kind_on_heap(alloc, copy_kind(alloc, kind)?)?;
    let con = con_on_heap(alloc, Con::Lambda(under, con))?;
    let kind = kind_on_heap(alloc, Kind::Arrow(from, gives))?;
    Ok(KindedCon { con, kind })
}

/// What is left of a number of levels, where this many parts nest in one another.
fn room_for(room: u32, parts: usize) -> Result<u32, ElabFault>
    ensures { IfOk result (λ left. left ≤ room) }
{
    if parts > room as usize {
        return Err(ElabFault::Memory);
    }
    Ok(room - parts as u32)
}

/// `$c`, with so many `$` more
#[cycle(elaborate)]
#[inline(never)]
fn of_record(
    here: &mut Here<'_>,
    scope: &Scope,
    more: usize,
    row: &plain::Con,
    room: u32,
) -> Result<KindedCon, ElabFault> {
    let room = room_for(room, more)?;
    let types = row_kind(here.alloc, Kind::Types)?;
    let row = elaborate(here, scope, row, Some(&types), room)?;
    let mut built = con_on_heap(here.alloc, Con::Record(row.con))?;
    for _ in 0..more {
        built = con_on_heap(here.alloc, Con::Record(built))?;
    }
    let kind = kind_on_heap(here.alloc, Kind::Types)?;
    Ok(KindedCon { con: built, kind })
}

/// Whether a constructor is a name that stands for what has many kinds, as `folder` and `map`.
#[inline(never)]
fn has_many_kinds(here: &Here<'_>, scope: &Scope, c: &plain::Con) -> Result<Many, ElabFault> {
    match &c.form {
        plain::ConForm::Name(path) => many_named(here, scope, path),
        _ => Ok(Many::Neither),
    }
}

/// What has many kinds.
#[derive(Drop)]
enum Many {
    Folder,
    Map,
    Neither,
}

/// Whether a name stands for what has many kinds.
fn many_named(here: &Here<'_>, scope: &Scope, path: &Path) -> Result<Many, ElabFault> {
    match scope.type_named(here.alloc, path)? {
        Some(KnownType::Folder) => Ok(Many::Folder),
        Some(KnownType::Map) => Ok(Many::Map),
        _ => Ok(Many::Neither),
    }
}

/// `c d ..`
#[cycle(elaborate)]
#[inline(never)]
fn of_apply(
    here: &mut Here<'_>,
    scope: &Scope,
    function: &plain::Con,
    arguments: &plain::Cons,
    room: u32,
) -> Result<KindedCon, ElabFault> {
    let room = room_for(room, arguments.items.len())?;
    let Some(first) = arguments.items.first() else {
        return elaborate(here, scope, function, None, room);
    };
    let mut built = first_applied(here, scope, function, first, room)?;
    for i in 1..arguments.items.len() {
        built = with_argument(here, scope, built, &arguments.items[i], room)?;
    }
    Ok(built)
}

/// `c d`. Where `c` is `folder` or `map`, its kind goes by that of `d`.
#[cycle(elaborate)]
#[inline(never)]
fn first_applied(
    here: &mut Here<'_>,
    scope: &Scope,
    function: &plain::Con,
    argument: &plain::Con,
    room: u32,
) -> Result<KindedCon, ElabFault> {
    match has_many_kinds(here, scope, function)? {
        Many::Neither => {
            let function = elaborate(here, scope, function, None, room)?;
            with_argument(here, scope, function, argument, room)
        }
        Many::Folder => {
            let argument = elaborate(here, scope, argument, None, room)?;
            folder_of(here, scope, argument)
        }
        Many::Map => {
            let argument = elaborate(here, scope, argument, None, room)?;
            Ok(map_of(here.alloc, argument)?)
        }
    }
}

/// `folder r`
#[inline(never)]
fn folder_of(here: &Here<'_>, scope: &Scope, row: KindedCon) -> Result<KindedCon, ElabFault> {
    let KindedCon { con, kind } = row;
    let values = value_kind(here.alloc, Some(&*kind))?;
    let folder = folder_over(here, scope, values)?;
    of_type(here.alloc, Con::App(folder.con, con))
}

/// `map` between the kinds at the two ends of a kind of functions; between types where it isn't one.
fn map_between(alloc: Global, functions: &Kind) -> Result<KindedCon, AllocError> {
    match functions {
        Kind::Arrow(from, to) => map_over(alloc, from, to),
        _ => map_over(alloc, &Kind::Types, &Kind::Types),
    }
}

/// What a kind of functions gives, on the heap; `Type` where it isn't one.
fn given_kind(alloc: Global, functions: Box<Kind>) -> Result<Box<Kind>, AllocError> {
    match Box::into_inner(functions) {
        Kind::Arrow(_, to) => Ok(to),
        _ => kind_on_heap(alloc, Kind::Types),
    }
}

/// `map f`
#[inline(never)]
fn map_of(alloc: Global, function: KindedCon) -> Result<KindedCon, AllocError> {
    let KindedCon { con, kind } = function;
    let map = map_between(alloc, &kind)?;
    let con = con_on_heap(alloc, Con::App(map.con, con))?;
    let kind = given_kind(alloc, map.kind)?;
    Ok(KindedCon { con, kind })
}

/// What is applied to one argument more. What is no function has no kind then, and that is told.
#[cycle(elaborate)]
#[inline(never)]
fn with_argument(
    here: &mut Here<'_>,
    scope: &Scope,
    function: KindedCon,
    argument: &plain::Con,
    room: u32,
) -> Result<KindedCon, ElabFault> {
    let KindedCon { con, kind } = function;
    let given = elaborate(here, scope, argument, taken_kind(&kind), room)?;
    match Box::into_inner(kind) {
        Kind::Arrow(_, to) => {
            let con = con_on_heap(here.alloc, Con::App(con, given.con))?;
            Ok(KindedCon { con, kind: to })
        }
        other => Err(no_function(here, argument.at, given.kind, other)?),
    }
}

/// The kind of what functions of a kind take, where it is one of functions.
fn taken_kind(functions: &Kind) -> Option<&Kind> {
    match functions {
        Kind::Arrow(from, _) => Some(&**from),
        _ => None,
    }
}

/// The fault that what is applied to a constructor of this kind is no function.
fn no_function(
    here: &Here<'_>,
    at: u32,
    given: Box<Kind>,
    found: Kind,
) -> Result<ElabFault, AllocError> {
    let types = kind_on_heap(here.alloc, Kind::Types)?;
    kinds_differ(here, at, Kind::Arrow(given, types), found)
}

/// Whether a constructor is a row without fields, which may have many kinds.
fn is_empty_row(c: &plain::Con) -> bool {
    match &c.form {
        plain::ConForm::Row(fields) => fields.items.len() == 0,
        _ => false,
    }
}

/// The rows of a concatenation so far. None stands for one without fields whose kind isn't known yet.
#[derive(Drop)]
struct Joining {
    parts: Vec<Option<Box<Con>>>,
    kind: Option<Box<Kind>>,
}

/// `c ++ d ++ ..`. Rows without fields before the others have the kind of these.
#[cycle(elaborate)]
#[inline(never)]
fn of_concat(
    here: &mut Here<'_>,
    scope: &Scope,
    first: &plain::Con,
    more: &plain::Cons,
    wanted: Option<&Kind>,
    room: u32,
) -> Result<KindedCon, ElabFault> {
    let room = room_for(room, more.items.len())?;
    let start = Joining {
        parts: Vec::new(here.alloc),
        kind: copy_maybe(here.alloc, wanted)?,
    };
    let mut joining = with_part(here, scope, start, first, room)?;
    for i in 0..more.items.len() {
        joining = with_part(here, scope, joining, &more.items[i], room)?;
    }
    joined_parts(here.alloc, joining)
}

/// The rows of a concatenation with one more.
#[cycle(elaborate)]
#[inline(never)]
fn with_part(
    here: &mut Here<'_>,
    scope: &Scope,
    joining: Joining,
    part: &plain::Con,
    room: u32,
) -> Result<Joining, ElabFault> {
    let Joining { mut parts, kind } = joining;
    if kind.is_none() && is_empty_row(part) {
        parts.push(None).map_err(AllocError::from)?;
        return Ok(Joining { parts, kind });
    }
    let part = elaborate(here, scope, part, kind.as_deref(), room)?;
    parts.push(Some(part.con)).map_err(AllocError::from)?;
    Ok(Joining {
        parts,
        kind: Some(part.kind),
    })
}

/// Rows joined from left to right.
#[inline(never)]
fn joined_parts(alloc: Global, joining: Joining) -> Result<KindedCon, ElabFault> {
    let Joining { parts, kind } = joining;
    let kind = match kind {
        Some(kind) => kind,
        None => boxed_rows(alloc, &Kind::Types)?,
    };
    let mut built = None;
    for part in parts {
        built = Some(joined_to(alloc, built, part, &kind)?);
    }
    match built {
        Some(con) => Ok(KindedCon { con, kind }),
        None => Err(ElabFault::Memory),
    }
}

/// A row, where there is one, joined with a part of a concatenation whose rows have this kind.
fn joined_to(
    alloc: Global,
    left: Option<Box<Con>>,
    part: Option<Box<Con>>,
    kind: &Kind,
) -> Result<Box<Con>, AllocError> {
    let row = part_row(alloc, part, kind)?;
    match left {
        Some(left) => con_on_heap(alloc, Con::Cat(left, row)),
        None => Ok(row),
    }
}

/// A part of a concatenation whose rows have this kind; one without fields, where it is none.
fn part_row(alloc: Global, part: Option<Box<Con>>, kind: &Kind) -> Result<Box<Con>, AllocError> {
    match part {
        Some(row) => Ok(row),
        None => {
            let row = empty_row(alloc, value_kind(alloc, Some(kind))?)?;
            con_on_heap(alloc, row)
        }
    }
}

/// The kind of the values of rows of a kind; `Type` where it isn't known.
fn value_kind(alloc: Global, rows: Option<&Kind>) -> Result<Kind, AllocError> {
    match rows {
        Some(Kind::Row(kind)) => copy_kind(alloc, kind),
        _ => Ok(Kind::Types),
    }
}

/// `(c, d, ..)`
#[cycle(elaborate)]
#[inline(never)]
fn of_tuple(
    here: &mut Here<'_>,
    scope: &Scope,
    parts: &plain::Cons,
    wanted: Option<&Kind>,
    room: u32,
) -> Result<KindedCon, ElabFault> {
    let mut cons = Cons::new(here.alloc);
    let mut kinds = Kinds::new(here.alloc);
    for i in 0..parts.items.len() {
        let part = elaborate(here, scope, &parts.items[i], component(wanted, i), room)?;
        push_part(&mut cons, &mut kinds, part)?;
    }
    Ok(kinded(here.alloc, Con::Tuple(cons), Kind::Tuple(kinds))?)
}

/// Puts a component and its kind last.
fn push_part(cons: &mut Cons, kinds: &mut Kinds, part: KindedCon) -> Result<(), AllocError> {
    let KindedCon { con, kind } = part;
    cons.push(Box::into_inner(con))?;
    kinds.push(Box::into_inner(kind))
}

/// The kind that is wanted of a component, where one is.
fn component(wanted: Option<&Kind>, place: usize) -> Option<&Kind> {
    match wanted {
        Some(Kind::Tuple(kinds)) => kinds.items.get(place),
        _ => None,
    }
}

/// `(c :: k)`. The kind doesn't stand in what is built, so that another is found is told here.
#[cycle(elaborate)]
#[inline(never)]
fn of_kinded(
    here: &mut Here<'_>,
    scope: &Scope,
    part: &plain::Con,
    kind: &Kind,
    room: u32,
) -> Result<KindedCon, ElabFault> {
    let built = elaborate(here, scope, part, Some(kind), room)?;
    if same_kind(&built.kind, kind) {
        Ok(built)
    } else {
        let wanted = copy_kind(here.alloc, kind)?;
        Err(kinds_differ(here, part.at, wanted, Box::into_inner(built.kind))?)
    }
}

/// `[c = d, ..]`. Its values have the kind that is wanted, else that of the first one.
#[cycle(elaborate)]
#[inline(never)]
fn of_row(
    here: &mut Here<'_>,
    scope: &Scope,
    fields: &plain::ConFields,
    wanted: Option<&Kind>,
    room: u32,
) -> Result<KindedCon, ElabFault> {
    let mut kind = match wanted {
        Some(Kind::Row(kind)) => Some(boxed_kind(here.alloc, kind)?),
        _ => None,
    };
    let mut pairs = Pairs::new(here.alloc);
    for i in 0..fields.items.len() {
        let field = &fields.items[i];
        let KindedCon { con: name, kind: _ } = elaborate(
            here,
            scope,
            &field.name,
            Some(&Kind::Names),
            room,
        )?;
        let KindedCon {
            con: value,
            kind: found,
        } = elaborate(here, scope, &field.value, kind.as_deref(), room)?;
        kind = kept_kind(kind, found);
        push_field(&mut pairs, name, value)?;
    }
    row_of(here.alloc, kind, pairs)
}

/// Puts a field last.
fn push_field(pairs: &mut Pairs, name: Box<Con>, value: Box<Con>) -> Result<(), AllocError> {
    pairs.push(Pair {
        name: Box::into_inner(name),
        value: Box::into_inner(value),
    })
}

/// The kind that was known before, else the one that is found.
fn kept_kind(known: Option<Box<Kind>>, found: Box<Kind>) -> Option<Box<Kind>> {
    match known {
        Some(kind) => Some(kind),
        None => Some(found),
    }
}

/// A row of fields, whose values have a kind.
#[inline(never)]
fn row_of(alloc: Global, kind: Option<Box<Kind>>, pairs: Pairs) -> Result<KindedCon, ElabFault> {
    let values = match kind {
        Some(kind) => kind,
        None => kind_on_heap(alloc, Kind::Types)?,
    };
    let kind = boxed_rows(alloc, &values)?;
    let con = con_on_heap(alloc, Con::Row(values, pairs))?;
    Ok(KindedCon { con, kind })
}

/// `c.1.2`
#[cycle(elaborate)]
#[inline(never)]
fn of_proj(
    here: &mut Here<'_>,
    scope: &Scope,
    tuple: &plain::Con,
    numbers: &Numbers,
    room: u32,
) -> Result<KindedCon, ElabFault> {
    let room = room_for(room, numbers.items.len())?;
    let mut built = elaborate(here, scope, tuple, None, room)?;
    for i in 0..numbers.items.len() {
        built = component_of(here, tuple.at, built, numbers.items[i])?;
    }
    Ok(built)
}

/// A component of a tuple; the first has the number 1. What has none has no kind then, and that is told.
#[inline(never)]
fn component_of(
    here: &Here<'_>,
    at: u32,
    tuple: KindedCon,
    number: u64,
) -> Result<KindedCon, ElabFault> {
    let KindedCon { con, kind } = tuple;
    match place_of(&kind, number) {
        Some(place) => Ok(projected(here.alloc, con, place, &kind)?),
        None => Err(no_component(here, at, kind)?),
    }
}

/// The place of a component in a tuple of this kind, counted from 0, where it has one with this number.
fn place_of(kind: &Kind, number: u64) -> Option<u32> {
    match kind {
        Kind::Tuple(kinds) => {
            if number == 0 || number > kinds.len() as u64 || number > u32::MAX as u64 {
                return None;
            }
            Some((number - 1) as u32)
        }
        _ => None,
    }
}

/// The component at this place of a tuple of this kind.
fn projected(
    alloc: Global,
    tuple: Box<Con>,
    place: u32,
    kind: &Kind,
) -> Result<KindedCon, AllocError> {
    let con = con_on_heap(alloc, Con::Proj(tuple, place))?;
    let kind = kind_at(alloc, kind, place)?;
    Ok(KindedCon { con, kind })
}

/// The kind of the component at this place of a tuple of this kind, on the heap.
fn kind_at(alloc: Global, kind: &Kind, place: u32) -> Result<Box<Kind>, AllocError> {
    match kind {
        Kind::Tuple(kinds) => match kinds.items.get(place as usize) {
            Some(kind) => boxed_kind(alloc, kind),
            None => kind_on_heap(alloc, Kind::Types),
        },
        _ => kind_on_heap(alloc, Kind::Types),
    }
}

/// The fault that a constructor of a kind is no tuple with so many components.
fn no_component(here: &Here<'_>, at: u32, found: Box<Kind>) -> Result<ElabFault, AllocError> {
    let wanted = longer(here.alloc, &found)?;
    kinds_differ(here, at, wanted, Box::into_inner(found))
}

/// The kind of tuples of the kinds of a tuple's kind and one more, which is `Type`; of no more, where it isn't one.
fn longer(alloc: Global, kind: &Kind) -> Result<Kind, AllocError> {
    let mut more = Kinds::new(alloc);
    if let Kind::Tuple(kinds) = kind {
        for i in 0..kinds.len() {
            more.push(copy_kind(alloc, kinds.at(i))?)?;
        }
    }
    more.push(Kind::Types)?;
    Ok(Kind::Tuple(more))
}

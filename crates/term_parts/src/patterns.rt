//! Patterns, matched with a type.
use con_nodes::{MOST, left_with_all, nodes};
use con_terms::{Con, Cons, Kind, Pair, Pairs, Place, Sym, copy_con};
use core_terms::{Pat, PatField, PatFields, PatForm};
use name_scopes::{ElabFault, KnownBuilder};
use open_terms::{
    Env, any_record, field_index, head_of, mismatch, missing_field, normal_of, not_wanted,
    number_of, on_heap, record_of_pairs, record_pieces, reduced_name, unbound, value_at,
};
use plain_tree::Builder;
use std::alloc::{AllocError, Global};
use table_rows::Text;
use type_faults::Fault;
use type_makers::{applied, arrow, held_at, int_type, string_type, unit_type};

/// A variable of a pattern, with its type.
#[derive(Drop)]
pub struct Bound<'a> {
    pub name: &'a Text,
    pub con: Con,
}

/// The scope with these variables, the last innermost.
pub fn with_bound(alloc: Global, env: &Env, bound: Vec<Bound<'_>>) -> Result<Env, AllocError> {
    let mut env = env.share()?;
    for variable in bound {
        let Bound { name, con } = variable;
        env = env.with_value(alloc, name, con)?;
    }
    Ok(env)
}

/// A constructor of a datatype by its name in a pattern.
fn builder(
    alloc: Global,
    env: &Env,
    at: Place,
    builder: &Builder,
) -> Result<KnownBuilder, ElabFault> {
    match builder {
        Builder::Basis(b) => Ok(env.scope.basis_builder(alloc, *b)?),
        Builder::Named(path) => match env.scope.builder(alloc, path)? {
            Some(known) => Ok(known),
            None => Err(unbound(alloc, at, path)?),
        },
    }
}

/// What is applied, and what to, last; none where nothing is.
fn taken_apart(c: Con) -> Option<(Con, Con)> {
    match c {
        Con::App(function, argument) => {
            Some((Box::into_inner(function), Box::into_inner(argument)))
        }
        _ => None,
    }
}

/// What is applied to so many, and these, the last first; none where it isn't applied to so many.
fn turned_arguments(
    alloc: Global,
    t: Con,
    count: u32,
) -> Result<Option<(Con, Vec<Con>)>, AllocError> {
    let mut turned = Vec::new(alloc);
    let mut rest = t;
    for _ in 0..count {
        match taken_apart(rest) {
            None => return Ok(None),
            Some((function, argument)) => {
                turned.push(argument)?;
                rest = function;
            }
        }
    }
    Ok(Some((rest, turned)))
}

/// Constructors from the last to the first.
fn turned_back(alloc: Global, turned: Vec<Con>) -> Result<Cons, AllocError> {
    let mut turned = turned;
    let mut items = Vec::new(alloc);
    'turns: while let Some(argument) = turned.pop() {
        items.push(argument)?;
    }
    Ok(Cons { items })
}

/// Whether this is the symbol of a datatype.
fn is_datatype(c: &Con, datatype: Sym) -> bool {
    match c {
        Con::Basic(s) => *s == datatype,
        _ => false,
    }
}

/// The arguments of a datatype's type; none where the type is of another form.
fn arguments(alloc: Global, known: &KnownBuilder, t: &Con) -> Result<Option<Cons>, AllocError> {
    let head = match head_of(alloc, t)? {
        None => return Ok(None),
        Some(head) => head,
    };
    match turned_arguments(alloc, head, known.parameters)? {
        None => Ok(None),
        Some((function, turned)) => {
            if !is_datatype(&function, known.datatype) {
                return Ok(None);
            }
            Ok(Some(turned_back(alloc, turned)?))
        }
    }
}

/// A datatype's type, of which the arguments aren't told.
fn untold(alloc: Global, known: &KnownBuilder) -> Result<Con, AllocError> {
    let mut con = Con::Basic(known.datatype);
    for _ in 0..known.parameters {
        con = applied(alloc, con, Con::UnitCon)?;
    }
    Ok(con)
}

/// How many nodes come in the place of a parameter at most: as many as the largest argument of a datatype has.
fn largest_argument(arguments: &Cons) -> u32 {
    let mut largest = 1;
    for i in 0..arguments.items.len() {
        let count = nodes(&arguments.items[i]);
        if largest < count {
            largest = count;
        }
    }
    largest
}

/// What a constructor of a datatype holds, at the datatype's arguments. 100,000 nodes or more count as want of memory.
fn bounded_held(alloc: Global, arguments: &Cons, held: &Con) -> Result<Con, AllocError> {
    let largest = largest_argument(arguments);
    if left_with_all(held, largest, MOST) == 0 {
        return Err(AllocError);
    }
    held_at(alloc, arguments, held)
}

/// The type of what a constructor of a datatype holds, matched with a type.
#[inline(never)]
fn held(
    alloc: Global,
    env: &Env,
    at: Place,
    known: &KnownBuilder,
    t: &Con,
) -> Result<Con, ElabFault> {
    match arguments(alloc, known, t)? {
        None => {
            let found = untold(alloc, known)?;
            Err(not_wanted(alloc, env, at, t, found)?)
        }
        Some(arguments) => match &known.holds {
            Some(held) => Ok(bounded_held(alloc, &arguments, held)?),
            None => match normal_of(alloc, t)? {
                None => Err(ElabFault::Told(Fault::TooLarge(at))),
                Some(found) => {
                    let wanted = arrow(alloc, Con::UnitCon, copy_con(alloc, &found)?)?;
                    Err(mismatch(alloc, env, at, wanted, found)?)
                }
            },
        },
    }
}

/// A pattern of this form.
fn made(alloc: Global, place: Place, form: PatForm) -> Result<Box<Pat>, AllocError> {
    on_heap(alloc, Pat { place, form })
}

/// A pattern matched with a type, whose variables come behind those that are bound. It nests at most `room` deep.
#[cycle(pattern)]
pub fn pattern<'a>(
    alloc: Global,
    env: &Env,
    p: &'a plain_tree::Pat,
    t: &Con,
    bound: &mut Vec<Bound<'a>>,
    room: u32,
) -> Result<Box<Pat>, ElabFault> {
    if room == 0 {
        return Err(ElabFault::Memory);
    }
    let place = env.place(p.at);
    match &p.form {
        plain_tree::PatForm::Any => Ok(made(alloc, place, PatForm::Any)?),
        plain_tree::PatForm::Bind(name) => Ok(variable(alloc, env, place, name, t, bound)?),
        plain_tree::PatForm::Int(negative, digits) => {
            Ok(made(alloc, place, PatForm::Int(number_of(*negative, *digits)))?)
        }
        plain_tree::PatForm::Words(text) => {
            Ok(made(alloc, place, PatForm::Words(text.copy(alloc)?))?)
        }
        plain_tree::PatForm::Bare(name) => {
            let known = builder(alloc, env, place, name)?;
            Ok(built(alloc, place, &known, None)?)
        }
        plain_tree::PatForm::Holding(name, inner) => {
            holding(alloc, env, place, name, inner, t, bound, room - 1)
        }
        plain_tree::PatForm::Rec(fields, more) => {
            let fields = record_fields(alloc, env, place, fields, t, bound, room - 1)?;
            Ok(made(alloc, place, PatForm::Rec(fields, *more))?)
        }
        plain_tree::PatForm::Typed(inner, c) => {
            annotated(alloc, env, place, inner, c, bound, room - 1)
        }
    }
}

/// A constructor of a datatype, and what it holds.
fn built(
    alloc: Global,
    place: Place,
    known: &KnownBuilder,
    holds: Option<Box<Pat>>,
) -> Result<Box<Pat>, AllocError> {
    made(
        alloc,
        place,
        PatForm::Build(known.datatype, known.index, holds),
    )
}

/// A variable.
fn variable<'a>(
    alloc: Global,
    env: &Env,
    place: Place,
    name: &'a Text,
    t: &Con,
    bound: &mut Vec<Bound<'a>>,
) -> Result<Box<Pat>, AllocError> {
    let symbol = env.symbol(name)?;
    let con = copy_con(alloc, t)?;
    bound.push(Bound { name, con })?;
    let con = copy_con(alloc, t)?;
    made(alloc, place, PatForm::Bind(symbol, con))
}

/// A constructor of a datatype with what it holds.
#[cycle(pattern)]
#[inline(never)]
fn holding<'a>(
    alloc: Global,
    env: &Env,
    place: Place,
    name: &Builder,
    inner: &'a plain_tree::Pat,
    t: &Con,
    bound: &mut Vec<Bound<'a>>,
    room: u32,
) -> Result<Box<Pat>, ElabFault> {
    let known = builder(alloc, env, place, name)?;
    let con = held(alloc, env, place, &known, t)?;
    let pat = pattern(alloc, env, inner, &con, bound, room)?;
    Ok(built(alloc, place, &known, Some(pat))?)
}

/// A pattern with its type.
#[cycle(pattern)]
#[inline(never)]
fn annotated<'a>(
    alloc: Global,
    env: &Env,
    place: Place,
    inner: &'a plain_tree::Pat,
    c: &plain_tree::Con,
    bound: &mut Vec<Bound<'a>>,
    room: u32,
) -> Result<Box<Pat>, ElabFault> {
    let con = env.con(alloc, c, &Kind::Types, room)?;
    let pat = pattern(alloc, env, inner, &con, bound, room)?;
    Ok(made(alloc, place, PatForm::Typed(pat, con))?)
}

/// The pieces of a record type that patterns of fields are matched with.
fn pieces_of(alloc: Global, env: &Env, place: Place, t: &Con) -> Result<Cons, ElabFault> {
    match record_pieces(alloc, t)? {
        Some(pieces) => Ok(pieces),
        None => {
            let found = any_record(alloc)?;
            Err(not_wanted(alloc, env, place, t, found)?)
        }
    }
}

/// The type of a field of this name, taken out of the pieces.
fn taken(
    alloc: Global,
    env: &Env,
    at: Place,
    pieces: &mut Cons,
    name: &Con,
) -> Result<Con, ElabFault> {
    let reduced = reduced_name(alloc, name)?;
    match field_index(pieces, &reduced) {
        None => {
            let left = Cons::new(alloc);
            let left = std::mem::replace(pieces, left);
            Err(missing_field(alloc, env, at, left, &reduced)?)
        }
        Some(i) => match value_at(alloc, pieces, i)? {
            None => Err(ElabFault::Memory),
            Some(con) => {
                drop_piece(pieces, i);
                Ok(con)
            }
        },
    }
}

/// Leaves a piece out.
fn drop_piece(pieces: &mut Cons, i: usize) {
    if i < pieces.items.len() {
        let _piece = pieces.items.remove(i);
    }
}

/// The patterns of a record's fields.
#[cycle(pattern)]
#[inline(never)]
fn record_fields<'a>(
    alloc: Global,
    env: &Env,
    place: Place,
    fields: &'a plain_tree::PatFields,
    t: &Con,
    bound: &mut Vec<Bound<'a>>,
    room: u32,
) -> Result<PatFields, ElabFault> {
    let mut pieces = pieces_of(alloc, env, place, t)?;
    let mut found = PatFields::new(alloc);
    for i in 0..fields.items.len() {
        let field = &fields.items[i];
        let at = env.place(field.at);
        let name = env.con(alloc, &field.name, &Kind::Names, room)?;
        let con = taken(alloc, env, at, &mut pieces, &name)?;
        let pat = pattern(alloc, env, &field.pat, &con, bound, room)?;
        found.push(PatField {
            place: at,
            name,
            pat: Box::into_inner(pat),
        })?;
    }
    Ok(found)
}

/// The type that a pattern tells itself: one that is written, those of numbers and texts, and records of these.
#[cycle(own_type)]
pub fn own_type(
    alloc: Global,
    env: &Env,
    p: &plain_tree::Pat,
    room: u32,
) -> Result<Option<Con>, ElabFault> {
    if room == 0 {
        return Err(ElabFault::Memory);
    }
    match &p.form {
        plain_tree::PatForm::Int(_, _) => Ok(Some(int_type())),
        plain_tree::PatForm::Words(_) => Ok(Some(string_type())),
        plain_tree::PatForm::Typed(_, c) => { Ok(Some(env.con(alloc, c, &Kind::Types, room - 1)?)) }
        plain_tree::PatForm::Rec(fields, false) => own_record(alloc, env, fields, room - 1),
        _ => Ok(None),
    }
}

/// The type that patterns of fields tell themselves.
#[cycle(own_type)]
#[inline(never)]
fn own_record(
    alloc: Global,
    env: &Env,
    fields: &plain_tree::PatFields,
    room: u32,
) -> Result<Option<Con>, ElabFault> {
    if fields.items.is_empty() {
        return Ok(Some(unit_type(alloc)?));
    }
    let mut pairs = Pairs::new(alloc);
    for i in 0..fields.items.len() {
        let field = &fields.items[i];
        match own_type(alloc, env, &field.pat, room)? {
            None => return Ok(None),
            Some(value) => {
                let name = env.con(alloc, &field.name, &Kind::Names, room)?;
                pairs.push(Pair { name, value })?;
            }
        }
    }
    Ok(Some(record_of_pairs(alloc, pairs)?))
}

//! Declarations of `let`, and terms with a written type.
use crate::frames;
use crate::frames::{FrameAfter, ask_inside};
use con_terms::{Con, Kind, Place, Sym, copy_con};
use core_terms::{Exp, Local, Locals, Named, NamedList};
use name_scopes::ElabFault;
use open_terms::{Env, Frame, Outcome, Typed, Want, add, boxed_copy, on_heap};
use std::alloc::{AllocError, Global};
use std::mem::replace;
use term_parts::{
    Becomes, Progress, Sought, ascribed, ask, below, raised, settled, signature_of, term,
};

/// A `let` with its declarations so far.
#[derive(Drop)]
pub struct Letting<'a> {
    /// What is in scope behind them.
    pub env: Env,
    pub want: Want,
    pub place: Place,
    pub locals: &'a plain_tree::Locals,
    pub body: &'a plain_tree::Exp,
    pub built: Locals,
}

/// A declaration of names that may be used in each other's terms.
#[derive(Drop)]
pub struct Grouping<'a> {
    pub group: &'a plain_tree::NamedList,
    /// The types of the names, as far as they are written.
    pub types: Vec<Option<Box<Con>>>,
    /// What is in scope in the terms.
    pub inside: Env,
    /// What is in scope behind the names so far.
    pub behind: Env,
    pub built: NamedList,
}

/// How a `let`, or a term with a written type, goes on with the part that it asked for.
#[derive(Drop)]
pub enum LetAfter<'a> {
    /// The term of `val`, whose type may be written.
    Val(Box<Letting<'a>>, &'a plain_tree::Named, Option<Box<Con>>),
    /// A term of `val rec`.
    ValRec(Box<Letting<'a>>, Box<Grouping<'a>>),
    /// The term of `(e : t)`, with its place and type.
    Typed(Place, Box<Con>),
    /// What stands inside of frames.
    Frame(FrameAfter<'a>),
}

impl<'a> Becomes<LetAfter<'a>> for FrameAfter<'a> {
    fn becomes(self) -> LetAfter<'a> {
        LetAfter::Frame(self)
    }
}

/// Goes on with what a part gave. Where it is refused, so is the whole.
pub fn go_on<'a>(
    alloc: Global,
    after: LetAfter<'a>,
    given: Result<Outcome<'a>, ElabFault>,
    room: u32,
) -> Result<Progress<'a, LetAfter<'a>>, ElabFault> {
    let outcome = given?;
    match after {
        LetAfter::Val(letting, source, con) => with_val(alloc, letting, source, con, outcome, room),
        LetAfter::ValRec(letting, grouping) => with_named(alloc, letting, grouping, outcome, room),
        LetAfter::Typed(place, con) => with_type(alloc, place, con, outcome),
        LetAfter::Frame(after) => raised(alloc, frames::go_on(alloc, after, Ok(outcome), room)?),
    }
}

/// What never ends counts as want of memory. What it holds is let go here, where that is proved, and not by its caller.
pub fn endless(_progress: Progress<'_, LetAfter<'_>>) -> ElabFault {
    ElabFault::Memory
}

/// `let .. in e end`
pub fn of_let<'a>(
    alloc: Global,
    sought: Box<Sought<'a>>,
    locals: &'a plain_tree::Locals,
    body: &'a plain_tree::Exp,
    room: u32,
) -> Result<Progress<'a, LetAfter<'a>>, ElabFault> {
    let Sought { env, want, source } = Box::into_inner(sought);
    let place = env.place(source.at);
    let letting = Letting {
        env,
        want,
        place,
        locals,
        body,
        built: Locals::new(alloc),
    };
    next_local(alloc, on_heap(alloc, letting)?, room)
}

/// The declaration that comes next, or the body.
fn next_local<'a>(
    alloc: Global,
    letting: Box<Letting<'a>>,
    room: u32,
) -> Result<Progress<'a, LetAfter<'a>>, ElabFault> {
    let mut letting = letting;
    let locals = letting.locals;
    for i in letting.built.items.len()..locals.items.len() {
        match &locals.items[i] {
            plain_tree::Local::Val(_, source) => return ask_val(alloc, letting, source, room),
            plain_tree::Local::ValRec(_, group) => match group.items.first() {
                None => put_group(&mut letting.built, NamedList::new(alloc))?,
                Some(source) => {
                    let grouping = grouped(alloc, &letting.env, group, below(room))?;
                    return ask_named(alloc, letting, grouping, source, room);
                }
            },
        }
    }
    ask_body(alloc, letting, room)
}

/// Asks for the body of a `let`.
fn ask_body<'a>(
    alloc: Global,
    letting: Box<Letting<'a>>,
    room: u32,
) -> Result<Progress<'a, LetAfter<'a>>, ElabFault> {
    let Letting {
        env,
        want,
        place,
        locals: _,
        body,
        built,
    } = Box::into_inner(letting);
    let part = term(alloc, env, want, body)?;
    raised(
        alloc,
        ask_inside(alloc, Frame::Let(place, built), part, room)?,
    )
}

/// A type that is written, if one is.
fn written_type(
    alloc: Global,
    env: &Env,
    con: &Option<plain_tree::Con>,
    room: u32,
) -> Result<Option<Box<Con>>, ElabFault> {
    match con {
        None => Ok(None),
        Some(c) => {
            let con = env.con(alloc, c, &Kind::Types, room)?;
            Ok(Some(on_heap(alloc, con)?))
        }
    }
}

/// What is wanted of a term whose type is this, if it is told.
fn want_of(alloc: Global, con: &Option<Box<Con>>) -> Result<Want, AllocError> {
    match con {
        None => Ok(Want::Choose),
        Some(c) => Ok(Want::Whole(boxed_copy(alloc, c)?)),
    }
}

/// A name with its term, before it is put among others.
#[derive(Drop)]
struct KnownName {
    place: Place,
    name: Sym,
    written: bool,
    con: Box<Con>,
    exp: Box<Exp>,
}

/// A name with its term.
fn with_name(
    env: &Env,
    name: &plain_tree::Word,
    written: bool,
    con: Box<Con>,
    exp: Box<Exp>,
) -> Result<KnownName, AllocError> {
    Ok(KnownName {
        place: env.place(name.at),
        name: env.symbol(&name.text)?,
        written,
        con,
        exp,
    })
}

/// A name with its term as the explicit language has it.
fn named(known: KnownName) -> Named {
    let KnownName {
        place,
        name,
        written,
        con,
        exp,
    } = known;
    Named {
        place,
        name,
        written,
        con: Box::into_inner(con),
        exp: Box::into_inner(exp),
    }
}

/// Puts `val x = e` last.
fn put_val(built: &mut Locals, known: KnownName) -> Result<(), AllocError> {
    built.push(Local::Val(named(known)))
}

/// Puts names last that are declared together.
fn put_group(built: &mut Locals, group: NamedList) -> Result<(), AllocError> {
    built.push(Local::ValRec(group))
}

/// Puts a name last among those that are declared together.
fn put_name(built: &mut NamedList, known: KnownName) -> Result<(), AllocError> {
    built.push(named(known))
}

/// Asks for the term of `val x = e`.
fn ask_val<'a>(
    alloc: Global,
    letting: Box<Letting<'a>>,
    source: &'a plain_tree::Named,
    room: u32,
) -> Result<Progress<'a, LetAfter<'a>>, ElabFault> {
    let level = below(room);
    let written = written_type(alloc, &letting.env, &source.con, level)?;
    let want = want_of(alloc, &written)?;
    let part = term(alloc, letting.env.share()?, want, &source.exp)?;
    ask(alloc, LetAfter::Val(letting, source, written), part, level)
}

/// A `let` with `val x = e`.
fn with_val<'a>(
    alloc: Global,
    letting: Box<Letting<'a>>,
    source: &'a plain_tree::Named,
    written: Option<Box<Con>>,
    outcome: Outcome<'a>,
    room: u32,
) -> Result<Progress<'a, LetAfter<'a>>, ElabFault> {
    let mut letting = letting;
    let Typed { exp, con } = Box::into_inner(settled(outcome)?);
    let is_written = written.is_some();
    let con = or_found(alloc, written, con)?;
    let inner = letting
        .env
        .with_value(alloc, &source.name.text, copy_con(alloc, &con)?)?;
    let known = with_name(&letting.env, &source.name, is_written, con, exp)?;
    letting.env = inner;
    put_val(&mut letting.built, known)?;
    next_local(alloc, letting, room)
}

/// The type that is told, else the one that was found.
fn or_found(alloc: Global, told: Option<Box<Con>>, found: Con) -> Result<Box<Con>, AllocError> {
    match told {
        None => on_heap(alloc, found),
        Some(con) => Ok(con),
    }
}

/// The type of a term as far as it is written, on the heap.
fn boxed_signature(
    alloc: Global,
    env: &Env,
    e: &plain_tree::Exp,
    room: u32,
) -> Result<Option<Box<Con>>, ElabFault> {
    match signature_of(alloc, env, e, room)? {
        None => Ok(None),
        Some(con) => Ok(Some(on_heap(alloc, con)?)),
    }
}

/// The types of names that are declared together, as far as they are written.
fn group_types(
    alloc: Global,
    env: &Env,
    group: &plain_tree::NamedList,
    room: u32,
) -> Result<Vec<Option<Box<Con>>>, ElabFault> {
    let mut types = Vec::new(alloc);
    for i in 0..group.items.len() {
        let source = &group.items[i];
        let con = match written_type(alloc, env, &source.con, room)? {
            Some(c) => Some(c),
            None => boxed_signature(alloc, env, &source.exp, room)?,
        };
        add(&mut types, con)?;
    }
    Ok(types)
}

/// The scope of names that are declared together; `()` stands for a type that is open.
fn group_scope(
    alloc: Global,
    env: &Env,
    group: &plain_tree::NamedList,
    types: &Vec<Option<Box<Con>>>,
) -> Result<Env, AllocError> {
    let mut inner = env.share()?;
    for i in 0..group.items.len() {
        let con = match types.get(i) {
            Some(Some(c)) => copy_con(alloc, c)?,
            _ => Con::UnitCon,
        };
        inner = inner.with_value(alloc, &group.items[i].name.text, con)?;
    }
    Ok(inner)
}

/// Names that are declared together, before their terms.
fn grouped<'a>(
    alloc: Global,
    env: &Env,
    group: &'a plain_tree::NamedList,
    room: u32,
) -> Result<Box<Grouping<'a>>, ElabFault> {
    let types = group_types(alloc, env, group, room)?;
    let inside = group_scope(alloc, env, group, &types)?;
    let grouping = Grouping {
        group,
        types,
        inside,
        behind: env.share()?,
        built: NamedList::new(alloc),
    };
    Ok(on_heap(alloc, grouping)?)
}

/// What is wanted of the term that stands there.
fn want_at(alloc: Global, types: &Vec<Option<Box<Con>>>, i: usize) -> Result<Want, AllocError> {
    match types.get(i) {
        None => Ok(Want::Choose),
        Some(con) => want_of(alloc, con),
    }
}

/// A type out of a list.
fn taken(types: &mut Vec<Option<Box<Con>>>, i: usize) -> Option<Box<Con>> {
    match types.get_mut(i) {
        Some(con) => replace(con, None),
        None => None,
    }
}

/// Asks for a term of `val rec x : t = e and ..`.
fn ask_named<'a>(
    alloc: Global,
    letting: Box<Letting<'a>>,
    grouping: Box<Grouping<'a>>,
    source: &'a plain_tree::Named,
    room: u32,
) -> Result<Progress<'a, LetAfter<'a>>, ElabFault> {
    let want = want_at(alloc, &grouping.types, grouping.built.items.len())?;
    let part = term(alloc, grouping.inside.share()?, want, &source.exp)?;
    ask(
        alloc,
        LetAfter::ValRec(letting, grouping),
        part,
        below(room),
    )
}

/// A `let` with one term more of `val rec`.
fn with_named<'a>(
    alloc: Global,
    letting: Box<Letting<'a>>,
    grouping: Box<Grouping<'a>>,
    outcome: Outcome<'a>,
    room: u32,
) -> Result<Progress<'a, LetAfter<'a>>, ElabFault> {
    let group = grouping.group;
    let grouping = with_term(alloc, &letting.env, grouping, settled(outcome)?)?;
    match group.items.get(grouping.built.items.len()) {
        Some(source) => ask_named(alloc, letting, grouping, source, room),
        None => {
            let mut letting = letting;
            let Grouping { behind, built, .. } = Box::into_inner(grouping);
            letting.env = behind;
            put_group(&mut letting.built, built)?;
            next_local(alloc, letting, room)
        }
    }
}

/// Names that are declared together, with one term more.
fn with_term<'a>(
    alloc: Global,
    env: &Env,
    grouping: Box<Grouping<'a>>,
    typed: Box<Typed>,
) -> Result<Box<Grouping<'a>>, ElabFault> {
    let mut grouping = grouping;
    let i = grouping.built.items.len();
    let group = grouping.group;
    let Some(source) = group.items.get(i) else {
        return Err(ElabFault::Memory);
    };
    let Typed { exp, con } = Box::into_inner(typed);
    let con = or_found(alloc, taken(&mut grouping.types, i), con)?;
    let behind = grouping
        .behind
        .with_value(alloc, &source.name.text, copy_con(alloc, &con)?)?;
    grouping.behind = behind;
    let known = with_name(env, &source.name, source.con.is_some(), con, exp)?;
    put_name(&mut grouping.built, known)?;
    Ok(grouping)
}

/// `(e : t)`
pub fn of_typed<'a>(
    alloc: Global,
    sought: Box<Sought<'a>>,
    inner: &'a plain_tree::Exp,
    c: &plain_tree::Con,
    room: u32,
) -> Result<Progress<'a, LetAfter<'a>>, ElabFault> {
    let Sought {
        env,
        want: _,
        source,
    } = Box::into_inner(sought);
    let level = below(room);
    let place = env.place(source.at);
    let con = on_heap(alloc, env.con(alloc, c, &Kind::Types, level)?)?;
    let want = Want::Whole(boxed_copy(alloc, &con)?);
    let part = term(alloc, env, want, inner)?;
    ask(alloc, LetAfter::Typed(place, con), part, level)
}

/// `(e : t)`, whose term is elaborated.
fn with_type<'a>(
    alloc: Global,
    place: Place,
    con: Box<Con>,
    outcome: Outcome<'a>,
) -> Result<Progress<'a, LetAfter<'a>>, ElabFault> {
    let Typed { exp, con: _ } = Box::into_inner(settled(outcome)?);
    let typed = ascribed(alloc, place, exp, Box::into_inner(con))?;
    Ok(Progress::Ended(Outcome::Done(typed)))
}

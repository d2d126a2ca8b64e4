//! What types in normal form tell of their values.
ghost use Rattle.std.specs.Prelude.{◌≡◌, ◌++◌, ◌∷◌, IfOk, OnOk, map, option_map};
ghost use Rattle.con_terms.specs.Trees.{con_list, pair_list};
ghost use Rattle.con_terms.specs.View.{con_tree, cons_tree, pair_tree, pairs_tree};
ghost use Rattle.core_terms.specs.Datatypes as meant;
ghost use Rattle.core_terms.specs.View.{datatype_view};
ghost use Rattle.core_typing.specs.Seen.{named_fields, seen as seen_in, seen_at, seen_basic as basic_seen};
ghost use Rattle.match_cover.specs.Spines as spine;
ghost use Rattle.match_cover.specs.View.{part_view, seen_view};

use con_terms::{Con, Cons, Pair, Pairs, Sym, copy_con};
use core_terms::Datatype;
use std::alloc::{AllocError, Global};
use type_makers::{held_at, symbols};

/// How many nodes a type may have that is put together from a datatype's declaration and its arguments.
const NODES: u32 = 50_000;

/// A part of a record: a field's name, and its type.
#[derive(Drop)]
pub struct Part {
    pub name: Con,
    pub con: Con,
}

/// What a type in normal form tells of its values.
#[derive(Drop)]
pub enum Seen<'a> {
    Number,
    Words,
    /// A datatype at arguments.
    Data(&'a Datatype, Cons),
    Record(Vec<Part>),
    Nothing,
}

/// What is applied in the end.
#[cycle(head_of)]
fn head_of(c: &Con) -> &Con
    ensures { con_tree result.now ≡ spine.head_of (con_tree c.now) }
{
    match c {
        Con::App(f, _) => head_of(f),
        other => other,
    }
}

/// What it is applied to, the first first.
#[cycle(add_arguments)]
fn add_arguments(alloc: Global, c: &Con, args: &mut Cons) -> Result<(), AllocError>
    ensures { OnOk result
        (con_list (cons_tree args.new) ≡ con_list (cons_tree args.old) ++ spine.arguments_of (con_tree c.now)) }
{
    match c {
        Con::App(f, a) => {
            add_arguments(alloc, f, args)?;
            args.push(copy_con(alloc, a)?)
        }
        _ => Ok(()),
    }
}

/// The datatype with a symbol.
fn datatype_of(datatypes: &Vec<Datatype>, s: Sym) -> Option<&Datatype>
    ensures { option_map (λ d. datatype_view d.now) result
        ≡ meant.datatype_of (map datatype_view datatypes.now.items) s.number }
{
    for i in 0..datatypes.len() {
        if datatypes[i].symbol.number == s.number {
            return Some(&datatypes[i]);
        }
    }
    None
}

/// What a basic type at arguments tells.
fn seen_basic<'a>(datatypes: &'a Vec<Datatype>, s: Sym, args: Cons) -> Seen<'a>
    ensures { seen_view result ≡
        basic_seen (map datatype_view datatypes.now.items) s.number (con_list (cons_tree args)) }
{
    if s.number == symbols::INT.number {
        return Seen::Number;
    }
    if s.number == symbols::STRING.number {
        return Seen::Words;
    }
    match datatype_of(datatypes, s) {
        None => Seen::Nothing,
        Some(d) => {
            if args.len() == d.parameters.len() {
                Seen::Data(d, args)
            } else {
                Seen::Nothing
            }
        }
    }
}

/// A copy of a field of a row.
fn part_of(alloc: Global, pair: &Pair) -> Result<Part, AllocError>
    ensures { IfOk result (λ part. part_view part ≡ pair_tree pair.now) }
{
    let name = copy_con(alloc, &pair.name)?;
    let con = copy_con(alloc, &pair.value)?;
    Ok(Part { name, con })
}

/// Adds the fields of a row literal.
fn add_pairs(alloc: Global, ps: &Pairs, parts: &mut Vec<Part>) -> Result<(), AllocError>
    ensures { OnOk result (map part_view parts.new.items ≡
        map part_view parts.old.items ++ pair_list (pairs_tree ps.now)) }
{
    for i in 0..ps.len() {
        parts.push(part_of(alloc, ps.at(i))?)?;
    }
    Ok(())
}

/// Adds the fields of a row in normal form.
#[cycle(add_fields)]
#[tactic(auto, using(crate::proofs::Fields::named_listed))]
fn add_fields(alloc: Global, c: &Con, parts: &mut Vec<Part>) -> Result<(), AllocError>
    ensures { OnOk result (map part_view parts.new.items ≡
        map part_view parts.old.items ++ named_fields (con_tree c.now)) }
{
    match c {
        Con::Row(_, ps) => add_pairs(alloc, ps, parts),
        Con::Cat(a, b) => {
            add_fields(alloc, a, parts)?;
            add_fields(alloc, b, parts)
        }
        _ => Ok(()),
    }
}

/// The fields of a row in normal form.
fn fields_of(alloc: Global, c: &Con) -> Result<Vec<Part>, AllocError>
    ensures { IfOk result (λ parts. map part_view parts.items ≡ named_fields (con_tree c.now)) }
{
    let mut parts = Vec::new(alloc);
    add_fields(alloc, c, &mut parts)?;
    Ok(parts)
}

/// What a basic type at what a type applies it to tells.
fn seen_applied<'a>(
    alloc: Global,
    datatypes: &'a Vec<Datatype>,
    s: Sym,
    n: &Con,
) -> Result<Seen<'a>, AllocError>
    ensures { IfOk result (λ w. seen_view w ≡
        basic_seen (map datatype_view datatypes.now.items) s.number (spine.arguments_of (con_tree n.now))) }
{
    let mut args = Cons::new(alloc);
    add_arguments(alloc, n, &mut args)?;
    Ok(seen_basic(datatypes, s, args))
}

/// What a type tells that applies this in the end.
fn seen_by_head<'a>(
    alloc: Global,
    datatypes: &'a Vec<Datatype>,
    head: &Con,
    n: &Con,
) -> Result<Seen<'a>, AllocError>
    ensures { IfOk result (λ w. seen_view w ≡ seen_at (map datatype_view datatypes.now.items) (con_tree head.now)
        (spine.arguments_of (con_tree n.now))) }
{
    match head {
        Con::Basic(s) => seen_applied(alloc, datatypes, *s, n),
        Con::Record(r) => Ok(Seen::Record(fields_of(alloc, r)?)),
        Con::App(_, _) => Err(AllocError),
        Con::Var(_) | Con::UnitCon | Con::Name(_) | Con::Map(_, _) => Ok(Seen::Nothing),
        Con::Arrow(_, _) | Con::Poly(_, _, _) | Con::Guarded(_, _, _) => Ok(Seen::Nothing),
        Con::Lambda(_, _) | Con::Row(_, _) | Con::Cat(_, _) => Ok(Seen::Nothing),
        Con::Tuple(_) | Con::Proj(_, _) => Ok(Seen::Nothing),
    }
}

/// What a type in normal form tells of its values.
#[tactic(auto, using(crate::proofs::Spines::whole_seen))]
pub fn see<'a>(alloc: Global, datatypes: &'a Vec<Datatype>, n: &Con) -> Result<Seen<'a>, AllocError>
    ensures { IfOk result
        (λ w. seen_view w ≡ seen_in (map datatype_view datatypes.now.items) (con_tree n.now)) }
{
    seen_by_head(alloc, datatypes, head_of(n), n)
}

/// The nodes that are left of these behind those of a constructor; none where there are fewer.
#[cycle(nodes_left)]
fn nodes_left(c: &Con, left: u32) -> u32 {
    if left == 0 {
        return 0;
    }
    match c {
        Con::Var(_) | Con::Basic(_) | Con::UnitCon | Con::Name(_) | Con::Map(_, _) => left - 1,
        Con::Arrow(a, b) | Con::App(a, b) | Con::Cat(a, b) => {
            nodes_left(b, nodes_left(a, left - 1))
        }
        Con::Guarded(a, b, t) => nodes_left(t, nodes_left(b, nodes_left(a, left - 1))),
        Con::Poly(_, _, a) | Con::Record(a) | Con::Lambda(_, a) | Con::Proj(a, _) => {
            nodes_left(a, left - 1)
        }
        Con::Row(_, ps) => nodes_left_of_pairs(ps, left - 1),
        Con::Tuple(cs) => nodes_left_of(cs, left - 1),
    }
}

/// The same for each of some constructors.
#[cycle(nodes_left)]
fn nodes_left_of(cs: &Cons, left: u32) -> u32 {
    let mut rest = left;
    for i in 0..cs.items.len() {
        rest = nodes_left(&cs.items[i], rest);
    }
    rest
}

/// The same for the fields of a row literal.
#[cycle(nodes_left)]
fn nodes_left_of_pairs(ps: &Pairs, left: u32) -> u32 {
    let mut rest = left;
    for i in 0..ps.items.len() {
        rest = nodes_left_of_pair(&ps.items[i], rest);
    }
    rest
}

/// The same for a field.
#[cycle(nodes_left)]
fn nodes_left_of_pair(p: &Pair, left: u32) -> u32 {
    nodes_left(&p.value, nodes_left(&p.name, left))
}

/// Whether a constructor with arguments put in would be too large to be looked at.
fn is_vast(args: &Cons, held: &Con) -> bool {
    let mut behind = NODES;
    for i in 0..args.items.len() {
        behind = nodes_left(&args.items[i], behind);
    }
    let of_arguments = (NODES.saturating_sub(behind)) as u64 + 1;
    let of_held = (NODES.saturating_sub(nodes_left(held, NODES))) as u64;
    of_arguments.saturating_mul(of_held) > NODES as u64
}

/// What a constructor holds, at a datatype's arguments. A type that is too large to be looked at counts as want of
/// memory.
pub fn held_type(alloc: Global, args: &Cons, held: &Con) -> Result<Con, AllocError>
    ensures { IfOk result (λ new. con_tree new ≡
        meant.held_at (con_list (cons_tree args.now)) (con_tree held.now)) }
{
    if is_vast(args, held) {
        return Err(AllocError);
    }
    held_at(alloc, args, held)
}

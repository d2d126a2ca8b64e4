//! The datatypes that links carry, and the types that are built of them.
ghost use Rattle.std.specs.Prelude.{◌≡◌, ◌<◌, ℕ, get_or, Bool, false, length, Some, IfOk, map, vec_len};
ghost use Rattle.std.specs.Bool.{Decides};
ghost use Rattle.con_terms.specs.Trees.{con_list};
ghost use Rattle.con_terms.specs.View.{con_tree, cons_tree, pair_tree, pairs_tree};
ghost use Rattle.core_terms.specs.View.{constructor_view, datatype_view, maybe_con};
ghost use Rattle.core_typing.specs.Carried.{Carried};
ghost use Rattle.core_typing.specs.Seen.{seen};
ghost use Rattle.carried_types.specs.Built as computed;
ghost use Rattle.carried_types.specs.Carriers.{AllMarked, AreCarriers, MarkedAnew, SameMarks};
ghost use Rattle.carried_types.specs.Filling as filling;
ghost use Rattle.carried_types.specs.View.{carriers_view};

use con_terms::{Con, Cons, Kind, Pair, Pairs, Sym, same_kind};
use core_terms::{Constructor, Constructors, Datatype};
use judgements::{is_own_form, normal_of};
use match_cover::{Seen, see};
use std::alloc::{AllocError, Global};
use type_makers::symbols;

/// How deep types may be nested.
const NESTED: u32 = 2000;

/// For each datatype of a list whether a link carries its values, at arguments that are carried.
#[derive(Drop)]
pub struct Carriers {
    pub carried: Vec<bool>,
}

/// The place of the first datatype with a symbol.
fn place_of(datatypes: &Vec<Datatype>, s: Sym) -> Option<usize>
    ensures { result ≡ computed.place_of (map datatype_view datatypes.now.items) s.number }
{
    for i in 0..datatypes.len() {
        if datatypes[i].symbol.number == s.number {
            return Some(i);
        }
    }
    None
}

/// The mark at a place.
fn mark_at(carriers: &Carriers, i: usize) -> bool
    ensures { result ≡ get_or (carriers_view carriers.now) i false }
{
    if i < carriers.carried.len() {
        carriers.carried[i]
    } else {
        false
    }
}

/// Whether the datatype with a symbol is one of those.
fn is_carrier(datatypes: &Vec<Datatype>, carriers: &Carriers, s: Sym) -> bool
    ensures { result ≡ computed.is_carrier
        (map datatype_view datatypes.now.items)
        (carriers_view carriers.now)
        s.number }
{
    match place_of(datatypes, s) {
        None => false,
        Some(i) => mark_at(carriers, i),
    }
}

/// Whether a type is built of ints, strings, records and these datatypes, and of the parameters with the numbers below
/// `parameters`. A type that is its own normal form isn't copied.
#[cycle(is_built)]
#[tactic(auto, using(crate::proofs::Loops::built_nowhere, crate::proofs::Loops::built_own, crate::proofs::Loops::built_within))]
fn is_built(
    alloc: Global,
    datatypes: &Vec<Datatype>,
    carriers: &Carriers,
    parameters: usize,
    t: &Con,
    room: u32,
) -> Result<bool, AllocError>
    ensures { IfOk result (λ r. computed.built
        room
        (map datatype_view datatypes.now.items)
        (carriers_view carriers.now)
        parameters
        (con_tree t.now) ≡ Some r) }
{
    if room == 0 {
        return Err(AllocError);
    }
    if is_own_form(t) {
        return is_built_normal(alloc, datatypes, carriers, parameters, t, room - 1);
    }
    match normal_of(alloc, t)? {
        None => Ok(false),
        Some(n) => is_built_normal(alloc, datatypes, carriers, parameters, &n, room - 1),
    }
}

/// The same for a type in normal form.
#[cycle(is_built)]
fn is_built_normal(
    alloc: Global,
    datatypes: &Vec<Datatype>,
    carriers: &Carriers,
    parameters: usize,
    n: &Con,
    room: u32,
) -> Result<bool, AllocError>
    ensures { IfOk result (λ r. computed.normal_by
        (computed.built room (map datatype_view datatypes.now.items) (carriers_view carriers.now) parameters)
        (map datatype_view datatypes.now.items)
        (carriers_view carriers.now)
        parameters
        (con_tree n.now) ≡ Some r) }
{
    match n {
        Con::Var(i) => Ok((*i as usize) < parameters),
        Con::Record(r) => is_built_row(alloc, datatypes, carriers, parameters, r, room),
        other => is_built_seen(alloc, datatypes, carriers, parameters, other, room),
    }
}

/// The same for a record of a row.
#[cycle(is_built)]
fn is_built_row(
    alloc: Global,
    datatypes: &Vec<Datatype>,
    carriers: &Carriers,
    parameters: usize,
    r: &Con,
    room: u32,
) -> Result<bool, AllocError>
    ensures { IfOk result (λ b. computed.row_by
        (computed.built room (map datatype_view datatypes.now.items) (carriers_view carriers.now) parameters)
        (con_tree r.now) ≡ Some b) }
{
    match r {
        Con::Row(k, ps) => {
            if same_kind(k, &Kind::Types) {
                are_built_fields(alloc, datatypes, carriers, parameters, ps, room)
            } else {
                Ok(false)
            }
        }
        _ => Ok(false),
    }
}

/// The same for what a type in normal form tells.
#[cycle(is_built)]
fn is_built_seen(
    alloc: Global,
    datatypes: &Vec<Datatype>,
    carriers: &Carriers,
    parameters: usize,
    n: &Con,
    room: u32,
) -> Result<bool, AllocError>
    ensures { IfOk result (λ r. computed.seen_by
        (computed.built room (map datatype_view datatypes.now.items) (carriers_view carriers.now) parameters)
        (map datatype_view datatypes.now.items)
        (carriers_view carriers.now)
        (seen (map datatype_view datatypes.now.items) (con_tree n.now)) ≡ Some r) }
{
    match see(alloc, datatypes, n)? {
        Seen::Number => Ok(true),
        Seen::Words => Ok(true),
        Seen::Data(d, args) => {
            if is_carrier(datatypes, carriers, d.symbol) {
                are_built(alloc, datatypes, carriers, parameters, &args, room)
            } else {
                Ok(false)
            }
        }
        Seen::Record(_) => Ok(false),
        Seen::Nothing => Ok(false),
    }
}

/// The same for each of some types.
#[cycle(is_built)]
fn are_built(
    alloc: Global,
    datatypes: &Vec<Datatype>,
    carriers: &Carriers,
    parameters: usize,
    ts: &Cons,
    room: u32,
) -> Result<bool, AllocError>
    ensures { IfOk result (λ r. computed.all_by
        (computed.built room (map datatype_view datatypes.now.items) (carriers_view carriers.now) parameters)
        (con_list (cons_tree ts.now)) ≡ Some r) }
{
    for i in 0..ts.items.len() {
        if !is_built(alloc, datatypes, carriers, parameters, &ts.items[i], room)? {
            return Ok(false);
        }
    }
    Ok(true)
}

/// Whether a constructor is a literal name.
fn is_name(c: &Con) -> bool
    ensures { result ≡ computed.is_name (con_tree c.now) }
{
    match c {
        Con::Name(_) => true,
        _ => false,
    }
}

/// Whether a field has a literal name, and its type is so built.
#[cycle(is_built)]
fn is_built_field(
    alloc: Global,
    datatypes: &Vec<Datatype>,
    carriers: &Carriers,
    parameters: usize,
    p: &Pair,
    room: u32,
) -> Result<bool, AllocError>
    ensures { IfOk result (λ r. computed.field_by
        (computed.built room (map datatype_view datatypes.now.items) (carriers_view carriers.now) parameters)
        (pair_tree p.now).0
        (pair_tree p.now).1 ≡ Some r) }
{
    if is_name(&p.name) {
        is_built(alloc, datatypes, carriers, parameters, &p.value, room)
    } else {
        Ok(false)
    }
}

/// The same for the fields of a row literal, whose names are literals.
#[cycle(is_built)]
fn are_built_fields(
    alloc: Global,
    datatypes: &Vec<Datatype>,
    carriers: &Carriers,
    parameters: usize,
    ps: &Pairs,
    room: u32,
) -> Result<bool, AllocError>
    ensures { IfOk result (λ r. computed.fields_by
        (computed.built room (map datatype_view datatypes.now.items) (carriers_view carriers.now) parameters)
        (pairs_tree ps.now) ≡ Some r) }
{
    for i in 0..ps.items.len() {
        if !is_built_field(alloc, datatypes, carriers, parameters, &ps.items[i], room)? {
            return Ok(false);
        }
    }
    Ok(true)
}

/// Whether what a constructor holds is so built.
fn is_held(
    alloc: Global,
    datatypes: &Vec<Datatype>,
    carriers: &Carriers,
    parameters: usize,
    c: &Constructor,
) -> Result<bool, AllocError>
    ensures { IfOk result (λ r. computed.held_by
        (computed.built
        computed.nested
        (map datatype_view datatypes.now.items)
        (carriers_view carriers.now)
        parameters)
        (maybe_con c.now.holds) ≡ Some r) }
{
    match &c.holds {
        None => Ok(true),
        Some(held) => is_built(alloc, datatypes, carriers, parameters, held, NESTED),
    }
}

/// Whether what each of some constructors holds is so built.
fn are_held(
    alloc: Global,
    datatypes: &Vec<Datatype>,
    carriers: &Carriers,
    parameters: usize,
    constructors: &Constructors,
) -> Result<bool, AllocError>
    ensures { IfOk result (λ r. computed.holds_by
        (computed.built
        computed.nested
        (map datatype_view datatypes.now.items)
        (carriers_view carriers.now)
        parameters)
        (map constructor_view constructors.now.items.items) ≡ Some r) }
{
    for j in 0..constructors.items.len() {
        let c = &constructors.items[j];
        if !is_held(alloc, datatypes, carriers, parameters, c)? {
            return Ok(false);
        }
    }
    Ok(true)
}

/// Whether a datatype stays marked: what each of its constructors holds is built of what was marked.
fn stays(
    alloc: Global,
    datatypes: &Vec<Datatype>,
    before: &Carriers,
    was: bool,
    d: &Datatype,
) -> Result<bool, AllocError>
    ensures { IfOk result (λ r. computed.stays
        (map datatype_view datatypes.now.items)
        (carriers_view before.now)
        was
        (datatype_view d.now) ≡ Some r) }
{
    if was {
        are_held(
            alloc,
            datatypes,
            before,
            d.parameters.len(),
            &d.constructors,
        )
    } else {
        Ok(false)
    }
}

/// Without the datatypes that hold something else than these carry. Whether there were such is the second answer.
fn without_others(
    alloc: Global,
    datatypes: &Vec<Datatype>,
    before: &Carriers,
) -> Result<(Carriers, bool), AllocError>
    ensures anew { IfOk result (λ r. MarkedAnew
        (map datatype_view datatypes.now.items)
        (carriers_view before.now)
        (length (map datatype_view datatypes.now.items))
        (carriers_view r.0)) }
    ensures same { IfOk result (λ r. r.1 ≡ false → SameMarks
        (length (map datatype_view datatypes.now.items))
        (carriers_view before.now)
        (carriers_view r.0)) }
{
    let mut carried = Vec::with_capacity(alloc, datatypes.len())?;
    let mut fewer = false;
    for i in 0..datatypes.len() {
        let was = mark_at(before, i);
        let stays = stays(alloc, datatypes, before, was, &datatypes[i])?;
        if was != stays {
            fewer = true;
        }
        carried.push(stays)?;
    }
    Ok((Carriers { carried }, fewer))
}

/// So many marks.
fn all_marked(alloc: Global, count: usize) -> Result<Carriers, AllocError>
    ensures { IfOk result (λ c. AllMarked count (carriers_view c)) }
{
    let mut carried = Vec::with_capacity(alloc, count)?;
    for i in 0..count {
        carried.push(true)?;
    }
    Ok(Carriers { carried })
}

/// The greatest set of these datatypes of which each holds only what the set carries.
///
/// Each round but the last takes a datatype away, so that there are no more rounds than datatypes, and one.
pub fn carriers_of(alloc: Global, datatypes: &Vec<Datatype>) -> Result<Carriers, AllocError>
    ensures { IfOk result (λ c. AreCarriers (map datatype_view datatypes.now.items) (carriers_view c)) }
{
    let mut now = all_marked(alloc, datatypes.len())?;
    for _ in 0..datatypes.len() + 1 {
        let (next, fewer) = without_others(alloc, datatypes, &now)?;
        if !fewer {
            return Ok(now);
        }
        now = next;
    }
    Err(AllocError)
}

/// Whether a link can carry a type's values.
pub fn can_carry(
    alloc: Global,
    datatypes: &Vec<Datatype>,
    carriers: &Carriers,
    t: &Con,
) -> Result<bool, AllocError>
    ensures exact { IfOk result (λ r. r ≡ computed.can_carry
        (map datatype_view datatypes.now.items)
        (carriers_view carriers.now)
        (con_tree t.now)) }
    ensures decides { IfOk result (λ r.
        AreCarriers (map datatype_view datatypes.now.items) (carriers_view carriers.now)
        → Decides r (Carried (map datatype_view datatypes.now.items) (con_tree t.now))) }
{
    is_built(alloc, datatypes, carriers, 0, t, NESTED)
}

/// Whether a type is string or bool.
fn is_filled(t: &Con) -> bool
    ensures { result ≡ filling.is_filled (con_tree t.now) }
{
    match t {
        Con::Basic(s) => {
            if s.number == symbols::STRING.number {
                true
            } else {
                s.number == symbols::BOOL.number
            }
        }
        _ => false,
    }
}

/// Whether a field has a literal name, and the type string or bool.
fn is_field_filled(p: &Pair) -> bool
    ensures { result ≡ filling.field_filled (pair_tree p.now).0 (pair_tree p.now).1 }
{
    if is_name(&p.name) {
        is_filled(&p.value)
    } else {
        false
    }
}

/// Whether each field has a literal name, and the type string or bool.
fn are_filled(ps: &Pairs) -> bool
    ensures { result ≡ filling.are_filled (pairs_tree ps.now) }
{
    for i in 0..ps.items.len() {
        if !is_field_filled(&ps.items[i]) {
            return false;
        }
    }
    true
}

/// Whether a row has fields of strings and bools alone.
fn is_row_filled(r: &Con) -> bool
    ensures { result ≡ filling.row_filled (con_tree r.now) }
{
    match r {
        Con::Row(k, ps) => {
            if same_kind(k, &Kind::Types) {
                are_filled(ps)
            } else {
                false
            }
        }
        _ => false,
    }
}

/// Whether a form can fill a type's values: a record of strings and bools.
pub fn can_fill(alloc: Global, t: &Con) -> Result<bool, AllocError>
    ensures { IfOk result (λ r. r ≡ filling.can_fill (con_tree t.now)) }
{
    match normal_of(alloc, t)? {
        Some(Con::Record(r)) => Ok(is_row_filled(&r)),
        _ => Ok(false),
    }
}

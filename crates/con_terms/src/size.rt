//! How large a constructor is.

ghost use Rattle.std.specs.Prelude.{◌≡◌, ◌<◌, ◌≤◌, ◌+◌, ◌^◌, ◌↔◌, IsTrue};
ghost use Rattle.con_terms.specs.Size.{HasRoom, depth, depth_all, depth_pairs, kind_depth, kinds_depth, nest, nest_all, nest_pairs, top, top_all, top_pairs};
ghost use Rattle.con_terms.specs.View.{con_tree, cons_tree, kind_tree, kinds_tree, pair_tree, pairs_tree};

use crate::con::{Con, Cons, Pair, Pairs};
use crate::kind::{Kind, Kinds};

/// What binder numbers and the nesting of binders stay below, where a constructor has room.
pub const BINDERS: u32 = 1 << 31;

/// Whether a constructor has room for a shift or a substitution.
pub fn has_room(c: &Con) -> bool
    ensures { IsTrue result ↔ HasRoom (con_tree c.now) }
{
    is_small(c, BINDERS - 1)
}

/// Whether all numbers are small and binders nest at most `room` deep.
#[cycle(is_small)]
fn is_small(c: &Con, room: u32) -> bool
    ensures { IsTrue result ↔ ((top (con_tree c.now) < 2 ^ 31) × (nest (con_tree c.now) ≤ room)) }
{
    match c {
        Con::Var(i) => *i < BINDERS,
        Con::Basic(_) | Con::UnitCon | Con::Name(_) | Con::Map(_, _) => true,
        Con::Arrow(a, b) => is_small(a, room) && is_small(b, room),
        Con::Poly(_, _, b) => room > 0 && is_small(b, room - 1),
        Con::Guarded(a, b, t) => is_small(a, room) && is_small(b, room) && is_small(t, room),
        Con::Record(a) => is_small(a, room),
        Con::App(a, b) => is_small(a, room) && is_small(b, room),
        Con::Lambda(_, b) => room > 0 && is_small(b, room - 1),
        Con::Row(_, ps) => are_small_pairs(ps, room),
        Con::Cat(a, b) => is_small(a, room) && is_small(b, room),
        Con::Tuple(cs) => are_small(cs, room),
        Con::Proj(a, _) => is_small(a, room),
    }
}

/// Whether each constructor is small.
#[cycle(is_small)]
fn are_small(cs: &Cons, room: u32) -> bool
    ensures { IsTrue result ↔ ((top_all (cons_tree cs.now) < 2 ^ 31) × (nest_all (cons_tree cs.now) ≤ room)) }
{
    for i in 0..cs.items.len() {
        if !is_small(&cs.items[i], room) {
            return false;
        }
    }
    true
}

/// Whether each field is small.
#[cycle(is_small)]
fn are_small_pairs(ps: &Pairs, room: u32) -> bool
    ensures { IsTrue result ↔ ((top_pairs (pairs_tree ps.now) < 2 ^ 31) × (nest_pairs (pairs_tree ps.now) ≤ room)) }
{
    for i in 0..ps.items.len() {
        if !is_small_pair(&ps.items[i], room) {
            return false;
        }
    }
    true
}

/// Whether a field is small.
#[cycle(is_small)]
fn is_small_pair(p: &Pair, room: u32) -> bool
    ensures { IsTrue result
        ↔ ((top (pair_tree p.now).0 < 2 ^ 31) × (nest (pair_tree p.now).0 ≤ room) × (top (pair_tree p.now).1 < 2 ^ 31)
        × (nest (pair_tree p.now).1 ≤ room)) }
{
    is_small(&p.name, room) && is_small(&p.value, room)
}

/// Whether a constructor is at most `room` deep.
#[cycle(fits)]
pub fn fits(c: &Con, room: u32) -> bool
    ensures { IsTrue result ↔ (depth (con_tree c.now) ≤ room) }
{
    if room == 0 {
        return false;
    }
    let room = room - 1;
    match c {
        Con::Var(_) | Con::Basic(_) | Con::UnitCon | Con::Name(_) => true,
        Con::Arrow(a, b) => fits(a, room) && fits(b, room),
        Con::Poly(_, k, b) => kind_fits(k, room) && fits(b, room),
        Con::Guarded(a, b, t) => fits(a, room) && fits(b, room) && fits(t, room),
        Con::Record(a) => fits(a, room),
        Con::App(a, b) => fits(a, room) && fits(b, room),
        Con::Lambda(k, b) => kind_fits(k, room) && fits(b, room),
        Con::Row(k, ps) => kind_fits(k, room) && pairs_fit(ps, room),
        Con::Cat(a, b) => fits(a, room) && fits(b, room),
        Con::Map(k, l) => kind_fits(k, room) && kind_fits(l, room),
        Con::Tuple(cs) => all_fit(cs, room),
        Con::Proj(a, _) => fits(a, room),
    }
}

/// Whether each constructor is at most `room` deep.
#[cycle(fits)]
fn all_fit(cs: &Cons, room: u32) -> bool
    ensures { IsTrue result ↔ (depth_all (cons_tree cs.now) ≤ room) }
{
    for i in 0..cs.items.len() {
        if !fits(&cs.items[i], room) {
            return false;
        }
    }
    true
}

/// Whether each field is at most `room` deep.
#[cycle(fits)]
fn pairs_fit(ps: &Pairs, room: u32) -> bool
    ensures { IsTrue result ↔ (depth_pairs (pairs_tree ps.now) ≤ room) }
{
    for i in 0..ps.items.len() {
        if !pair_fits(&ps.items[i], room) {
            return false;
        }
    }
    true
}

/// Whether a field is at most `room` deep.
#[cycle(fits)]
fn pair_fits(p: &Pair, room: u32) -> bool
    ensures { IsTrue result ↔ ((depth (pair_tree p.now).0 ≤ room) × (depth (pair_tree p.now).1 ≤ room)) }
{
    fits(&p.name, room) && fits(&p.value, room)
}

/// Whether a kind is at most `room` deep.
#[cycle(kind_fits)]
fn kind_fits(k: &Kind, room: u32) -> bool
    ensures { IsTrue result ↔ (kind_depth (kind_tree k.now) ≤ room) }
{
    if room == 0 {
        return false;
    }
    let room = room - 1;
    match k {
        Kind::Types | Kind::Units | Kind::Names => true,
        Kind::Row(k) => kind_fits(k, room),
        Kind::Arrow(k, l) => kind_fits(k, room) && kind_fits(l, room),
        Kind::Tuple(ks) => kinds_fit(ks, room),
    }
}

/// Whether each kind is at most `room` deep.
#[cycle(kind_fits)]
fn kinds_fit(ks: &Kinds, room: u32) -> bool
    ensures { IsTrue result ↔ (kinds_depth (kinds_tree ks.now) ≤ room) }
{
    for i in 0..ks.items.len() {
        if !kind_fits(&ks.items[i], room) {
            return false;
        }
    }
    true
}

//! Whether an unknown is left in a constructor for which nothing was found.

ghost use Rattle.std.specs.Prelude.{◌≡◌, ◌+◌, ◌&&◌, ◌<◌, ◌^◌, IfOk};
ghost use Rattle.con_terms.specs.Size.{nest, nest_all, nest_pairs};
ghost use Rattle.con_terms.specs.View.{con_tree, cons_tree, pair_tree, pairs_tree};
ghost use Rattle.unknowns.specs.Unknowns.{known as no_open, known_all, known_pairs};
ghost use Rattle.unknowns.specs.View.{found_tree};

use crate::store::Found;
use con_terms::{Con, Cons, Pair, Pairs, has_room};
use std::alloc::AllocError;

/// Whether no unknown is left in a pattern for which nothing was found. A pattern without room for a shift counts as
/// want of memory.
pub fn is_known(found: &Found, pattern: &Con) -> Result<bool, AllocError>
    ensures { IfOk result (λ b. b ≡ no_open (found_tree found.now) (con_tree pattern.now) 0) }
{
    if !has_room(pattern) {
        return Err(AllocError);
    }
    Ok(known(found, pattern, 0))
}

/// Whether no open unknown is left in a constructor, under so many binders.
#[cycle(known)]
fn known(found: &Found, c: &Con, depth: u32) -> bool
    requires { depth + nest (con_tree c.now) < 2 ^ 32 }
    ensures { result ≡ no_open (found_tree found.now) (con_tree c.now) depth }
{
    match c {
        Con::Var(i) => *i < depth || !found.is_open(*i - depth),
        Con::Basic(_) | Con::UnitCon | Con::Name(_) | Con::Map(_, _) => true,
        Con::Arrow(a, b) => known(found, a, depth) && known(found, b, depth),
        Con::Poly(_, _, b) => known(found, b, depth + 1),
        Con::Guarded(a, b, t) => {
            known(found, a, depth) && known(found, b, depth) && known(found, t, depth)
        }
        Con::Record(a) => known(found, a, depth),
        Con::App(f, a) => known(found, f, depth) && known(found, a, depth),
        Con::Lambda(_, b) => known(found, b, depth + 1),
        Con::Row(_, ps) => pairs_known(found, ps, depth),
        Con::Cat(a, b) => known(found, a, depth) && known(found, b, depth),
        Con::Tuple(cs) => all_known(found, cs, depth),
        Con::Proj(a, _) => known(found, a, depth),
    }
}

/// Whether no open unknown is left in any of the constructors.
#[cycle(known)]
fn all_known(found: &Found, cs: &Cons, depth: u32) -> bool
    requires { depth + nest_all (cons_tree cs.now) < 2 ^ 32 }
    ensures { result ≡ known_all (found_tree found.now) (cons_tree cs.now) depth }
{
    for i in 0..cs.items.len() {
        if !known(found, &cs.items[i], depth) {
            return false;
        }
    }
    true
}

/// Whether no open unknown is left in any of the fields.
#[cycle(known)]
fn pairs_known(found: &Found, ps: &Pairs, depth: u32) -> bool
    requires { depth + nest_pairs (pairs_tree ps.now) < 2 ^ 32 }
    ensures { result ≡ known_pairs (found_tree found.now) (pairs_tree ps.now) depth }
{
    for i in 0..ps.items.len() {
        if !pair_known(found, &ps.items[i], depth) {
            return false;
        }
    }
    true
}

/// Whether no open unknown is left in a field.
#[cycle(known)]
fn pair_known(found: &Found, p: &Pair, depth: u32) -> bool
    requires name { depth + nest (pair_tree p.now).0 < 2 ^ 32 }
    requires value { depth + nest (pair_tree p.now).1 < 2 ^ 32 }
    ensures { result
        ≡ (no_open (found_tree found.now) (pair_tree p.now).0 depth
        && no_open (found_tree found.now) (pair_tree p.now).1 depth) }
{
    known(found, &p.name, depth) && known(found, &p.value, depth)
}

//! Whether two rows are apart.

ghost use Rattle.std.specs.Prelude.{◌≡◌, ◌∷◌, [], IfErr, IfOk};
ghost use Rattle.con_terms.specs.Apart.{Apart, both_literal, name_pieces, pieces};
ghost use Rattle.con_terms.specs.View.{con_tree, pairs_tree};
ghost use Rattle.disjoint_prover.specs.Separation.{among, first_of, first_touch, is_mapping, pairs_of, separated_by, separated_by_some, separates, with_each};
ghost use Rattle.disjoint_prover.specs.Touching.{AllKeptApart, Touches};
ghost use Rattle.disjoint_prover.specs.View.{Gives, IfTouch, guard_list, sides_tree};
ghost use Rattle.row_normal.specs.View.{normal_tree};

use crate::fault::{DisjointFault, Pieces};
use crate::guards::{Guards, Sides};
use con_terms::{Con, Pairs, copy_con};
use row_normal::{Normal, same_con};
use std::alloc::Global;

/// Whether two rows are apart, under these guards.
///
/// Touch tells the first pair of their pieces that is neither two different names nor on the two sides of a guard.
pub fn disjoint(
    alloc: Global,
    g: &Guards,
    left: &Normal,
    right: &Normal,
) -> Result<(), DisjointFault>
    ensures apart { IfOk result (λ _. Apart (guard_list g.now) (normal_tree left.now) (normal_tree right.now)) }
    ensures kept { IfOk result
        (λ _. AllKeptApart (guard_list g.now) (pieces (normal_tree left.now)) (pieces (normal_tree right.now))) }
    ensures touch { IfErr result
        (λ fault. IfTouch fault (Touches (guard_list g.now) (normal_tree left.now) (normal_tree right.now))) }
    ensures exact { Gives result (first_touch (guard_list g.now) (normal_tree left.now) (normal_tree right.now)) }
{
    check(alloc, g, left.con(), right.con())
}

/// Each piece of the left row against each of the right one.
#[cycle(check)]
fn check(alloc: Global, g: &Guards, left: &Con, right: &Con) -> Result<(), DisjointFault>
    ensures { Gives result (first_touch (guard_list g.now) (con_tree left.now) (con_tree right.now)) }
{
    match left {
        Con::Row(_, ps) => check_names(alloc, g, ps, right),
        Con::Cat(a, b) => {
            check(alloc, g, a, right)?;
            check(alloc, g, b, right)
        }
        Con::App(f, r) => {
            if is_map(f) {
                check(alloc, g, r, right)
            } else {
                check_piece(alloc, g, left, right)
            }
        }
        _ => check_piece(alloc, g, left, right),
    }
}

/// Each name of a literal against each piece of the right row.
#[cycle(check)]
fn check_names(alloc: Global, g: &Guards, ps: &Pairs, right: &Con) -> Result<(), DisjointFault>
    ensures { Gives result
        (first_of (guard_list g.now) (pairs_of (name_pieces (pairs_tree ps.now)) (pieces (con_tree right.now)))) }
{
    for i in 0..ps.items.len() {
        check(alloc, g, &ps.items[i].name, right)?;
    }
    Ok(())
}

/// One piece against each of the right row.
#[cycle(check_piece)]
fn check_piece(alloc: Global, g: &Guards, piece: &Con, right: &Con) -> Result<(), DisjointFault>
    ensures { Gives result
        (first_of (guard_list g.now) (with_each (con_tree piece.now) (pieces (con_tree right.now)))) }
{
    match right {
        Con::Row(_, ps) => check_each(alloc, g, piece, ps),
        Con::Cat(a, b) => {
            check_piece(alloc, g, piece, a)?;
            check_piece(alloc, g, piece, b)
        }
        Con::App(f, r) => {
            if is_map(f) {
                check_piece(alloc, g, piece, r)
            } else {
                check_two(alloc, g, piece, right)
            }
        }
        _ => check_two(alloc, g, piece, right),
    }
}

/// One piece against each name of a literal.
#[cycle(check_piece)]
fn check_each(alloc: Global, g: &Guards, piece: &Con, ps: &Pairs) -> Result<(), DisjointFault>
    ensures { Gives result
        (first_of (guard_list g.now) (with_each (con_tree piece.now) (name_pieces (pairs_tree ps.now)))) }
{
    for i in 0..ps.items.len() {
        check_piece(alloc, g, piece, &ps.items[i].name)?;
    }
    Ok(())
}

/// One piece against another.
fn check_two(alloc: Global, g: &Guards, left: &Con, right: &Con) -> Result<(), DisjointFault>
    ensures { Gives result (first_of (guard_list g.now) ((con_tree left.now, con_tree right.now) ∷ [])) }
{
    if is_separated(g, left, right) {
        return Ok(());
    }
    let left = copy_con(alloc, left)?;
    let right = copy_con(alloc, right)?;
    Err(DisjointFault::Touch(Pieces { left, right }))
}

/// Whether the rules separate two pieces.
fn is_separated(g: &Guards, left: &Con, right: &Con) -> bool
    ensures { result ≡ separates (guard_list g.now) (con_tree left.now) (con_tree right.now) }
{
    (are_names(left, right) && !same_con(left, right)) || are_guarded(g, left, right)
}

/// Whether both pieces are literal names.
fn are_names(left: &Con, right: &Con) -> bool
    ensures { result ≡ both_literal (con_tree left.now) (con_tree right.now) }
{
    match left {
        Con::Name(_) => matches!(right, Con::Name(_)),
        _ => false,
    }
}

/// Whether some guard has the two pieces on its two sides.
fn are_guarded(g: &Guards, left: &Con, right: &Con) -> bool
    ensures { result ≡ separated_by_some (guard_list g.now) (con_tree left.now) (con_tree right.now) }
{
    for i in 0..g.sides.len() {
        if is_guarded_by(&g.sides[i], left, right) {
            return true;
        }
    }
    false
}

/// Whether a guard has the two pieces on its two sides, in either order.
fn is_guarded_by(s: &Sides, left: &Con, right: &Con) -> bool
    ensures { result ≡ separated_by (sides_tree s.now) (con_tree left.now) (con_tree right.now) }
{
    (has_piece(&s.left, left) && has_piece(&s.right, right))
        || (has_piece(&s.left, right) && has_piece(&s.right, left))
}

/// Whether a row has a piece.
#[cycle(has_piece)]
fn has_piece(row: &Con, piece: &Con) -> bool
    ensures { result ≡ among (con_tree piece.now) (pieces (con_tree row.now)) }
{
    match row {
        Con::Row(_, ps) => has_name(ps, piece),
        Con::Cat(a, b) => has_piece(a, piece) || has_piece(b, piece),
        Con::App(f, r) => {
            if is_map(f) {
                has_piece(r, piece)
            } else {
                same_con(row, piece)
            }
        }
        _ => same_con(row, piece),
    }
}

/// Whether a literal has a name.
#[cycle(has_piece)]
fn has_name(ps: &Pairs, piece: &Con) -> bool
    ensures { result ≡ among (con_tree piece.now) (name_pieces (pairs_tree ps.now)) }
{
    for i in 0..ps.items.len() {
        if has_piece(&ps.items[i].name, piece) {
            return true;
        }
    }
    false
}

/// Whether this is a map with its function, which only wants a row.
fn is_map(f: &Con) -> bool
    ensures { result ≡ is_mapping (con_tree f.now) }
{
    match f {
        Con::App(m, _) => matches!(**m, Con::Map(_, _)),
        _ => false,
    }
}

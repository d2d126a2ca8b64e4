//! Rows as lists of their pieces.

ghost use Rattle.std.specs.Prelude.{◌≡◌, ◌++◌, ◌∷◌, [], map, IfOk, OnOk};
ghost use Rattle.con_terms.specs.Equal.{Equal};
ghost use Rattle.con_terms.specs.Trees.{Kd, con_list};
ghost use Rattle.con_terms.specs.View.{con_tree, cons_tree, kind_tree, pairs_tree};
ghost use Rattle.row_normal.specs.Ordered.{glued, joined, ordered};
ghost use Rattle.row_normal.specs.Pieces.{IsInOrder, written_fields, written_pieces};

use crate::glue::{concatenated, with_literals_joined};
use crate::order::single;
use con_terms::{Con, Cons, Kind, Pairs};
use std::alloc::{AllocError, Global};

/// The pieces of a row, as written: each field of a literal is one, as a literal of its own.
///
/// A row whose pieces are in order, as those of a normal form are, has them in this order.
pub fn pieces(alloc: Global, row: Con) -> Result<Cons, AllocError>
    ensures written { IfOk result (λ ps. con_list (cons_tree ps) ≡ written_pieces (con_tree row)) }
    ensures equal { IfOk result (λ ps. (k : Kd) → Equal (con_tree row) (joined k (con_list (cons_tree ps)))) }
    ensures order { IfOk result
        (λ ps. ordered (con_tree row) ≡ con_tree row → IsInOrder (con_tree row) (con_list (cons_tree ps))) }
{
    let mut items = Vec::new(alloc);
    add_pieces(alloc, row, &mut items)?;
    Ok(Cons { items })
}

/// The row that has these pieces, as written: they are joined by `++`. With none it is the empty literal of this kind.
pub fn row_of_pieces(alloc: Global, kind: Kind, pieces: Cons) -> Result<Con, AllocError>
    ensures { IfOk result (λ c. con_tree c ≡ joined (kind_tree kind) (con_list (cons_tree pieces))) }
{
    concatenated(alloc, kind, pieces.items)
}

/// The row that has these pieces, the leading fields with literal names and one kind as one literal. Of pieces in order
/// this is the row in order.
pub fn row_of_pieces_in_order(alloc: Global, kind: Kind, pieces: Cons) -> Result<Con, AllocError>
    ensures { IfOk result (λ c. con_tree c ≡ joined (kind_tree kind) (glued (con_list (cons_tree pieces)))) }
{
    let literals = with_literals_joined(alloc, pieces.items)?;
    concatenated(alloc, kind, literals)
}

/// Adds the pieces of a row, as written.
#[cycle(add_pieces)]
fn add_pieces(alloc: Global, c: Con, pieces: &mut Vec<Con>) -> Result<(), AllocError>
    ensures { OnOk result
        (map con_tree pieces.new.items ≡ map con_tree pieces.old.items ++ written_pieces (con_tree c)) }
{
    match c {
        Con::Row(k, fields) => add_fields(alloc, fields, &k, pieces),
        Con::Cat(a, b) => {
            add_pieces(alloc, Box::into_inner(a), pieces)?;
            add_pieces(alloc, Box::into_inner(b), pieces)
        }
        other => Ok(pieces.push(other)?),
    }
}

/// Adds each field of a literal as a literal of its own.
fn add_fields(
    alloc: Global,
    fields: Pairs,
    k: &Kind,
    pieces: &mut Vec<Con>,
) -> Result<(), AllocError>
    ensures { OnOk result
        (map con_tree pieces.new.items
        ≡ map con_tree pieces.old.items ++ written_fields (kind_tree k.now) (pairs_tree fields)) }
{
    for field in fields.items {
        pieces.push(single(alloc, k, field)?)?;
    }
    Ok(())
}

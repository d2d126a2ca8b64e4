//! Rows with their pieces in order.

ghost use Rattle.std.specs.Prelude.{◌≡◌, ◌++◌, ◌∷◌, [], map, IfOk, OnOk};
ghost use Rattle.con_terms.specs.Trees.{Prs, cat, no_pairs, pair, row};
ghost use Rattle.con_terms.specs.View.{con_tree, cons_tree, kind_tree, pair_tree, pairs_tree};
ghost use Rattle.row_normal.specs.Glue.{piece_tree};
ghost use Rattle.row_normal.specs.Ordered.{field_pieces as fields_apart, first_kind as leading_kind, glued, joined, ordered as in_its_order, ordered_all, ordered_pieces, sorted};
ghost use Rattle.row_normal.specs.Pieces.{written_fields};
ghost use Rattle.row_normal.specs.Settled.{ordered_pairs, rise};

use crate::build::{kind_box, put};
use crate::glue::in_order;
use crate::piece::Piece;
use crate::settled::names_rise;
use con_terms::{Con, Cons, Kind, Pair, Pairs, copy_kind};
use std::alloc::{AllocError, Global};
use std::mem;

/// Puts the pieces of each row of a constructor in order.
#[cycle(ordered)]
pub fn ordered(alloc: Global, c: &mut Con) -> Result<(), AllocError>
    ensures { OnOk result (con_tree c.new ≡ in_its_order (con_tree c.old)) }
{
    match c {
        Con::Arrow(a, b) => ordered_both(alloc, a, b),
        Con::Poly(_, _, b) => ordered_box(alloc, b),
        Con::Guarded(a, b, t) => ordered_three(alloc, a, b, t),
        Con::Record(a) => ordered_box(alloc, a),
        Con::App(f, a) => ordered_both(alloc, f, a),
        Con::Lambda(_, b) => ordered_box(alloc, b),
        Con::Row(k, fields) => put(ordered_row(alloc, k, fields), c),
        Con::Cat(a, b) => put(ordered_cat(alloc, a, b), c),
        Con::Tuple(cs) => ordered_each(alloc, cs),
        Con::Proj(a, _) => ordered_box(alloc, a),
        _ => Ok(()),
    }
}

/// Puts the rows of a constructor on the heap in order.
#[cycle(ordered)]
fn ordered_box(alloc: Global, c: &mut Box<Con>) -> Result<(), AllocError>
    ensures { OnOk result (con_tree c.new.value ≡ in_its_order (con_tree c.old.value)) }
{
    ordered(alloc, c)
}

/// Puts the rows of two constructors on the heap in order.
#[cycle(ordered)]
fn ordered_both(alloc: Global, a: &mut Box<Con>, b: &mut Box<Con>) -> Result<(), AllocError>
    ensures first { OnOk result (con_tree a.new.value ≡ in_its_order (con_tree a.old.value)) }
    ensures second { OnOk result (con_tree b.new.value ≡ in_its_order (con_tree b.old.value)) }
{
    ordered(alloc, a)?;
    ordered(alloc, b)
}

/// Puts the rows of three constructors on the heap in order.
#[cycle(ordered)]
fn ordered_three(
    alloc: Global,
    a: &mut Box<Con>,
    b: &mut Box<Con>,
    t: &mut Box<Con>,
) -> Result<(), AllocError>
    ensures first { OnOk result (con_tree a.new.value ≡ in_its_order (con_tree a.old.value)) }
    ensures second { OnOk result (con_tree b.new.value ≡ in_its_order (con_tree b.old.value)) }
    ensures third { OnOk result (con_tree t.new.value ≡ in_its_order (con_tree t.old.value)) }
{
    ordered(alloc, a)?;
    ordered(alloc, b)?;
    ordered(alloc, t)
}

/// Puts the rows of each constructor in order.
#[cycle(ordered)]
fn ordered_each(alloc: Global, cs: &mut Cons) -> Result<(), AllocError>
    ensures { OnOk result (cons_tree cs.new ≡ ordered_all (cons_tree cs.old)) }
{
    for i in 0..cs.items.len() {
        ordered(alloc, &mut cs.items[i])?;
    }
    Ok(())
}

/// Puts the rows of each field in order. The fields stay where they are.
#[cycle(ordered)]
fn ordered_fields(alloc: Global, fields: &mut Pairs) -> Result<(), AllocError>
    ensures { OnOk result (pairs_tree fields.new ≡ ordered_pairs (pairs_tree fields.old)) }
{
    for i in 0..fields.items.len() {
        ordered_field(alloc, &mut fields.items[i])?;
    }
    Ok(())
}

/// Puts the rows of a field's name and value in order.
#[cycle(ordered)]
fn ordered_field(alloc: Global, field: &mut Pair) -> Result<(), AllocError>
    ensures name { OnOk result ((pair_tree field.new).0 ≡ in_its_order (pair_tree field.old).0) }
    ensures value { OnOk result ((pair_tree field.new).1 ≡ in_its_order (pair_tree field.old).1) }
{
    ordered(alloc, &mut field.name)?;
    ordered(alloc, &mut field.value)
}

/// The literal of this kind with these fields, as a row in order. The fields are taken.
#[cycle(ordered)]
fn ordered_row(alloc: Global, k: &Kind, fields: &mut Pairs) -> Result<Con, AllocError>
    ensures { IfOk result (λ c. con_tree c ≡ in_its_order (row (kind_tree k.now) (pairs_tree fields.old))) }
{
    let rises = names_rise(fields);
    ordered_fields(alloc, fields)?;
    let all = mem::replace(fields, Pairs::new(alloc));
    literal_in_order(alloc, k, all, rises)
}

/// The row `a ++ b` in order. Its pieces are taken.
#[cycle(ordered)]
fn ordered_cat(alloc: Global, a: &mut Box<Con>, b: &mut Box<Con>) -> Result<Con, AllocError>
    ensures { IfOk result (λ c. con_tree c ≡ in_its_order (cat (con_tree a.old.value) (con_tree b.old.value))) }
{
    let kind = first_kind(alloc, a)?;
    let mut pieces = Vec::new(alloc);
    cat_pieces(alloc, a, b, &mut pieces)?;
    in_order(alloc, kind, pieces)
}

/// Takes the pieces of both sides of `++`, as written.
#[cycle(ordered)]
fn cat_pieces(
    alloc: Global,
    a: &mut Box<Con>,
    b: &mut Box<Con>,
    pieces: &mut Vec<Piece>,
) -> Result<(), AllocError>
    ensures { OnOk result
        (map piece_tree pieces.new.items
        ≡ map piece_tree pieces.old.items ++ ordered_pieces (con_tree a.old.value)
        ++ ordered_pieces (con_tree b.old.value)) }
{
    row_pieces(alloc, a, pieces)?;
    row_pieces(alloc, b, pieces)
}

/// Takes the pieces of a row, as written.
#[cycle(ordered)]
fn row_pieces(alloc: Global, c: &mut Con, pieces: &mut Vec<Piece>) -> Result<(), AllocError>
    ensures { OnOk result
        (map piece_tree pieces.new.items ≡ map piece_tree pieces.old.items ++ ordered_pieces (con_tree c.old)) }
{
    match c {
        Con::Row(k, fields) => literal_pieces(alloc, fields, k, pieces),
        Con::Cat(a, b) => cat_pieces(alloc, a, b, pieces),
        _ => own_piece(alloc, c, pieces),
    }
}

/// Takes a constructor as a piece.
#[cycle(ordered)]
fn own_piece(alloc: Global, c: &mut Con, pieces: &mut Vec<Piece>) -> Result<(), AllocError>
    ensures { OnOk result
        (map piece_tree pieces.new.items ≡ map piece_tree pieces.old.items ++ in_its_order (con_tree c.old) ∷ []) }
{
    ordered(alloc, c)?;
    add_piece(alloc, mem::replace(c, Con::UnitCon), pieces)
}

/// Takes each field of a literal as a literal of its own.
#[cycle(ordered)]
fn literal_pieces(
    alloc: Global,
    fields: &mut Pairs,
    k: &Kind,
    pieces: &mut Vec<Piece>,
) -> Result<(), AllocError>
    ensures { OnOk result
        (map piece_tree pieces.new.items
        ≡ map piece_tree pieces.old.items ++ fields_apart (kind_tree k.now) (pairs_tree fields.old)) }
{
    ordered_fields(alloc, fields)?;
    let all = mem::replace(fields, Pairs::new(alloc));
    field_pieces(alloc, all, k, pieces)
}

/// The literal of this kind with these fields, of which each is in order, as a row in order.
fn literal_in_order(alloc: Global, k: &Kind, fields: Pairs, rises: bool) -> Result<Con, AllocError>
    ensures { (ps : Prs) → pairs_tree fields ≡ ordered_pairs ps → rises ≡ rise ps 0
        → IfOk result (λ c. con_tree c ≡ in_its_order (row (kind_tree k.now) ps)) }
{
    if rises {
        literal(alloc, k, fields)
    } else {
        fields_in_order(alloc, k, fields)
    }
}

/// The fields as pieces in order.
fn fields_in_order(alloc: Global, k: &Kind, fields: Pairs) -> Result<Con, AllocError>
    ensures { IfOk result
        (λ c. con_tree c
        ≡ joined (kind_tree k.now) (glued (sorted (written_fields (kind_tree k.now) (pairs_tree fields))))) }
{
    let mut pieces = Vec::with_capacity(alloc, fields.items.len())?;
    field_pieces(alloc, fields, k, &mut pieces)?;
    in_order(alloc, copy_kind(alloc, k)?, pieces)
}

/// Adds each field as a literal of its own.
fn field_pieces(
    alloc: Global,
    fields: Pairs,
    k: &Kind,
    pieces: &mut Vec<Piece>,
) -> Result<(), AllocError>
    ensures { OnOk result
        (map piece_tree pieces.new.items
        ≡ map piece_tree pieces.old.items ++ written_fields (kind_tree k.now) (pairs_tree fields)) }
{
    for field in fields.items {
        field_piece(alloc, field, k, pieces)?;
    }
    Ok(())
}

/// Adds a field as a literal of its own.
fn field_piece(
    alloc: Global,
    field: Pair,
    k: &Kind,
    pieces: &mut Vec<Piece>,
) -> Result<(), AllocError>
    ensures { OnOk result
        (map piece_tree pieces.new.items
        ≡ map piece_tree pieces.old.items
        ++ row (kind_tree k.now) (pair (pair_tree field).0 (pair_tree field).1 no_pairs) ∷ []) }
{
    add_piece(alloc, single(alloc, k, field)?, pieces)
}

/// A field as a literal of its own.
pub fn single(alloc: Global, k: &Kind, field: Pair) -> Result<Con, AllocError>
    ensures { IfOk result
        (λ c. con_tree c ≡ row (kind_tree k.now) (pair (pair_tree field).0 (pair_tree field).1 no_pairs)) }
{
    literal(alloc, k, only(alloc, field)?)
}

/// A field alone.
fn only(alloc: Global, field: Pair) -> Result<Pairs, AllocError>
    ensures { IfOk result (λ ps. pairs_tree ps ≡ pair (pair_tree field).0 (pair_tree field).1 no_pairs) }
{
    let mut items = Vec::new(alloc);
    items.push(field)?;
    Ok(Pairs { items })
}

/// The literal of this kind with these fields.
fn literal(alloc: Global, k: &Kind, fields: Pairs) -> Result<Con, AllocError>
    ensures { IfOk result (λ c. con_tree c ≡ row (kind_tree k.now) (pairs_tree fields)) }
{
    Ok(Con::Row(kind_box(alloc, k)?, fields))
}

/// Adds a piece.
fn add_piece(alloc: Global, con: Con, pieces: &mut Vec<Piece>) -> Result<(), AllocError>
    ensures { OnOk result (map piece_tree pieces.new.items ≡ map piece_tree pieces.old.items ++ con_tree con ∷ []) }
{
    Ok(pieces.push(Piece::new(alloc, con)?)?)
}

/// The kind of the first piece, where that is a literal.
fn first_kind(alloc: Global, c: &Con) -> Result<Kind, AllocError>
    ensures { IfOk result (λ k. kind_tree k ≡ leading_kind (con_tree c.now)) }
{
    match c {
        Con::Row(k, _) => copy_kind(alloc, k),
        Con::Cat(a, _) => first_kind(alloc, a),
        _ => Ok(Kind::Types),
    }
}

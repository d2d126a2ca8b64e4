//! The pieces of a row in order, as one constructor.

ghost use Rattle.std.specs.Prelude.{◌≡◌, ◌&&◌, ◌∷◌, [], List, map, is_some, IfOk};
ghost use Rattle.con_terms.specs.Trees.{Cn, cat, no_pairs, row};
ghost use Rattle.con_terms.specs.Same.{kd_eq};
ghost use Rattle.con_terms.specs.View.{con_tree, kind_tree, pairs_tree};
ghost use Rattle.row_normal.specs.Glue.{joined_then, literal_of, literal_then, pairs_then, piece_tree};
ghost use Rattle.row_normal.specs.Ordered.{glued, joined as joined_by, sorted};

use crate::build::{self, boxed};
use crate::code::literal_name;
use crate::piece::Piece;
use con_terms::{Con, Kind, Pairs, same_kind};
use std::alloc::{AllocError, Global};

/// The pieces joined so far.
#[derive(Drop)]
pub enum Joined {
    Nothing,
    /// The leading fields, which have literal names and one kind.
    Literal(Box<Kind>, Pairs),
    Pieces(Vec<Con>),
}

/// The pieces in order, joined by `++`, or the empty literal of this kind.
pub fn in_order(alloc: Global, kind: Kind, pieces: Vec<Piece>) -> Result<Con, AllocError>
    ensures { IfOk result
        (λ c. con_tree c ≡ joined_by (kind_tree kind) (glued (sorted (map piece_tree pieces.items)))) }
{
    let mut pieces = pieces;
    pieces.sort_by(|a, b| a.key.as_slice().cmp(b.key.as_slice()))?;
    let joined = joined_literals(alloc, pieces)?;
    concatenated(alloc, kind, joined)
}

/// The pieces joined by `++`, or the empty literal of this kind.
pub fn concatenated(alloc: Global, kind: Kind, pieces: Vec<Con>) -> Result<Con, AllocError>
    ensures { IfOk result (λ c. con_tree c ≡ joined_by (kind_tree kind) (map con_tree pieces.items)) }
{
    let mut pieces = pieces;
    let mut whole = match pieces.pop() {
        Some(last) => last,
        None => {
            let items = Vec::new(alloc);
            return Ok(Con::Row(Box::new(alloc, kind)?, Pairs { items }));
        }
    };
    'joins: while let Some(piece) = pieces.pop() {
        whole = cat_of(alloc, piece, whole)?;
    }
    Ok(whole)
}

/// `a ++ b`
fn cat_of(alloc: Global, a: Con, b: Con) -> Result<Con, AllocError>
    ensures { IfOk result (λ c. con_tree c ≡ cat (con_tree a) (con_tree b)) }
{
    build::cat_of(boxed(alloc, Ok(a)), boxed(alloc, Ok(b)))
}

/// The pieces, of which leading fields with literal names and one kind are one literal.
fn joined_literals(alloc: Global, pieces: Vec<Piece>) -> Result<Vec<Con>, AllocError>
    ensures { IfOk result (λ cs. map con_tree cs.items ≡ glued (map piece_tree pieces.items)) }
{
    let mut joined = Joined::Nothing;
    for piece in pieces {
        let Piece { key: _, con } = piece;
        joined = with_piece(alloc, joined, con)?;
    }
    in_list(alloc, joined)
}

/// The pieces, of which leading fields with literal names and one kind are one literal.
pub fn with_literals_joined(alloc: Global, pieces: Vec<Con>) -> Result<Vec<Con>, AllocError>
    ensures { IfOk result (λ cs. map con_tree cs.items ≡ glued (map con_tree pieces.items)) }
{
    let mut joined = Joined::Nothing;
    for con in pieces {
        joined = with_piece(alloc, joined, con)?;
    }
    in_list(alloc, joined)
}

/// What is joined with one more piece.
fn with_piece(alloc: Global, joined: Joined, con: Con) -> Result<Joined, AllocError>
    ensures { IfOk result (λ j. (rest : List Cn) → joined_then j rest ≡ joined_then joined (con_tree con ∷ rest)) }
{
    match joined {
        Joined::Nothing => first_piece(alloc, con),
        Joined::Literal(k, fields) => after_literal(alloc, k, fields, con),
        Joined::Pieces(pieces) => {
            let mut pieces = pieces;
            pieces.push(con)?;
            Ok(Joined::Pieces(pieces))
        }
    }
}

/// What is joined after the first piece.
fn first_piece(alloc: Global, con: Con) -> Result<Joined, AllocError>
    ensures { IfOk result (λ j. (rest : List Cn) → joined_then j rest ≡ glued (con_tree con ∷ rest)) }
{
    match con {
        Con::Row(k, fields) => {
            if literal_name(&fields).is_some() {
                Ok(Joined::Literal(k, fields))
            } else {
                alone(alloc, Con::Row(k, fields))
            }
        }
        other => alone(alloc, other),
    }
}

/// What is joined where a piece begins no literal.
fn alone(alloc: Global, con: Con) -> Result<Joined, AllocError>
    ensures { IfOk result (λ j. (rest : List Cn) → joined_then j rest ≡ con_tree con ∷ rest) }
{
    let mut pieces = Vec::new(alloc);
    pieces.push(con)?;
    Ok(Joined::Pieces(pieces))
}

/// Adds a piece to the literal, or ends the literal.
fn after_literal(alloc: Global, k: Box<Kind>, fields: Pairs, con: Con) -> Result<Joined, AllocError>
    ensures { IfOk result
        (λ j. (rest : List Cn)
        → joined_then j rest ≡ literal_then (kind_tree k.value) (pairs_tree fields) (con_tree con ∷ rest)) }
{
    match con {
        Con::Row(l, more) => literal_and_row(alloc, k, fields, l, more),
        other => both(alloc, literal(k, fields), other),
    }
}

/// Adds the only field of a literal to those before it, or ends the literal.
fn literal_and_row(
    alloc: Global,
    k: Box<Kind>,
    fields: Pairs,
    l: Box<Kind>,
    more: Pairs,
) -> Result<Joined, AllocError>
    ensures { IfOk result
        (λ j. (rest : List Cn)
        → joined_then j rest
        ≡ literal_then (kind_tree k.value) (pairs_tree fields) (row (kind_tree l.value) (pairs_tree more) ∷ rest)) }
{
    if goes_on(&k, &l, &more) {
        Ok(Joined::Literal(k, fields_then(fields, more)?))
    } else {
        both(alloc, literal(k, fields), row_of(l, more))
    }
}

/// Whether a literal of the kind `k` takes these fields of the kind `l` up.
fn goes_on(k: &Kind, l: &Kind, more: &Pairs) -> bool
    ensures { result ≡ (is_some (literal_of (pairs_tree more.now)) && kd_eq (kind_tree k.now) (kind_tree l.now)) }
{
    literal_name(more).is_some() && same_kind(k, l)
}

/// The literal, after which no more fields come.
fn literal(k: Box<Kind>, fields: Pairs) -> Con
    ensures { con_tree result ≡ row (kind_tree k.value) (pairs_then (pairs_tree fields) no_pairs) }
{
    row_of(k, fields)
}

/// The literal of this kind with these fields.
fn row_of(k: Box<Kind>, fields: Pairs) -> Con
    ensures { con_tree result ≡ row (kind_tree k.value) (pairs_tree fields) }
{
    Con::Row(k, fields)
}

/// Two pieces that are not joined to one.
fn both(alloc: Global, first: Con, second: Con) -> Result<Joined, AllocError>
    ensures { IfOk result (λ j. (rest : List Cn) → joined_then j rest ≡ con_tree first ∷ con_tree second ∷ rest) }
{
    let mut pieces = Vec::new(alloc);
    pieces.push(first)?;
    pieces.push(second)?;
    Ok(Joined::Pieces(pieces))
}

/// These fields, and then the others.
fn fields_then(fields: Pairs, more: Pairs) -> Result<Pairs, AllocError>
    ensures { IfOk result (λ ps. pairs_tree ps ≡ pairs_then (pairs_tree fields) (pairs_tree more)) }
{
    let mut items = fields.items;
    let mut others = more.items;
    items.append(&mut others)?;
    Ok(Pairs { items })
}

/// The pieces as a list.
fn in_list(alloc: Global, joined: Joined) -> Result<Vec<Con>, AllocError>
    ensures { IfOk result (λ cs. map con_tree cs.items ≡ joined_then joined []) }
{
    match joined {
        Joined::Nothing => Ok(Vec::new(alloc)),
        Joined::Literal(k, fields) => {
            let mut pieces = Vec::new(alloc);
            pieces.push(literal(k, fields))?;
            Ok(pieces)
        }
        Joined::Pieces(pieces) => Ok(pieces),
    }
}

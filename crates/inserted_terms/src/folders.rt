//! Folders: the fields of a row in the written order; and rows whose fields aren't known.
ghost use Rattle.std.specs.Prelude.{◌≡◌, ◌&&◌, true, None, Some, map, IfOk, IfSome, IsTrue};
ghost use Rattle.std.specs.List.{Contains};
ghost use Rattle.con_terms.specs.Trees.{app, con_list};
ghost use Rattle.con_terms.specs.View.{con_tree, cons_tree, kind_tree, pair_tree, pairs_tree};
ghost use Rattle.con_terms.specs.declared.place.Place.{Place};
ghost use Rattle.core_terms.specs.Trees.{folder, node, top};
ghost use Rattle.core_terms.specs.View.{folder_view};
ghost use Rattle.guided_terms.specs.Forms as forms;
ghost use Rattle.guided_terms.specs.Implied as implied;
ghost use Rattle.inserted_terms.specs.Folders as rows;
ghost use Rattle.inserted_terms.specs.Lacking.{Lacks, no_folder_here};
ghost use Rattle.inserted_terms.specs.View.{at_view, fields_left};
ghost use Rattle.row_normal.specs.SameTree.{cn_eq};

use crate::at::At;
use crate::types::{head_of, steps_of};
use con_terms::{Con, Cons, Kind, Pair, Pairs, Sym, same_kind};
use core_terms::Program;
use row_normal::pieces::pieces;
use row_normal::same_con;
use std::alloc::{AllocError, Global};

/// Whether two fields have one name and one value.
fn same_pair(p: &Pair, q: &Pair) -> bool
    ensures { result ≡ (cn_eq (pair_tree p.now).0 (pair_tree q.now).0
        && cn_eq (pair_tree p.now).1 (pair_tree q.now).1) }
{
    same_con(&p.name, &q.name) && same_con(&p.value, &q.value)
}

/// Where fields go on behind these, which stand in them from a place on; none where these don't stand there.
#[tactic(auto, using(crate::proofs::Fields::left_begin, crate::proofs::Fields::left_end))]
fn past_fields(ps: &Pairs, fields: &Pairs, place: usize) -> Option<usize>
    ensures { IfSome result
        (λ k. fields_left fields.now place ≡ rows.beside (pairs_tree ps.now) (fields_left fields.now k)) }
{
    let mut next = place;
    for i in 0..ps.items.len() {
        if next >= fields.items.len() {
            return None;
        }
        let one = &ps.items[i];
        let other = &fields.items[next];
        if !same_pair(one, other) {
            return None;
        }
        next += 1;
    }
    Some(next)
}

/// Where fields go on behind those of a literal; none where this is no literal, or they aren't its.
fn past_piece(piece: &Con, fields: &Pairs, place: usize) -> Option<usize>
    ensures { IfSome result (λ k. rows.IsLiteral (con_tree piece.now) (fields_left fields.now place)
        (fields_left fields.now k)) }
{
    match piece {
        Con::Row(_, ps) => past_fields(ps, fields, place),
        _ => None,
    }
}

/// Whether pieces are literals that have just these fields, in the written order.
#[tactic(auto, using(crate::proofs::Fields::pieces_begin, crate::proofs::Fields::pieces_more, crate::proofs::Fields::pieces_end))]
fn have_fields(pieces: &Cons, fields: &Pairs) -> bool
    ensures { IsTrue result
        → forms.literal_fields (con_list (cons_tree pieces.now)) ≡ Some (pairs_tree fields.now) }
{
    let mut next: usize = 0;
    for i in 0..pieces.items.len() {
        match past_piece(&pieces.items[i], fields, next) {
            None => return false,
            Some(behind) => next = behind,
        }
    }
    next >= fields.items.len()
}

/// Whether a row is put together of literals that have just these fields, in the written order.
#[tactic(auto, using(crate::proofs::Fields::row_fields))]
fn is_row_of(alloc: Global, row: &Con, fields: &Pairs) -> Result<bool, AllocError>
    ensures { IfOk result (λ b. IsTrue b → rows.fields_of (con_tree row.now) ≡ Some (pairs_tree fields.now)) }
{
    match steps_of(alloc, row)? {
        None => Ok(false),
        Some(row) => Ok(have_fields(&pieces(alloc, row)?, fields)),
    }
}

/// Whether this symbol is that of the type of folders over rows of a kind.
fn is_folder_type(program: &Program, kind: &Kind, s: Sym) -> bool
    ensures { IsTrue result
        → Contains (map folder_view program.now.folders.items.items) (kind_tree kind.now, s.number) }
{
    let folders = program.folders.items.as_slice();
    for i in 0..folders.len() {
        if folders[i].symbol.number == s.number && same_kind(&folders[i].kind, kind) {
            return true;
        }
    }
    false
}

/// Whether these are the fields of the row of a folder's type, which is put together of these two parts.
fn are_folder_parts(
    alloc: Global,
    h: &At<'_>,
    f: &Con,
    row: &Con,
    kind: &Kind,
    fields: &Pairs,
) -> Result<bool, AllocError>
    ensures { IfOk result (λ b. IsTrue b → rows.IsFolderAt (at_view h.now) (app (con_tree f.now) (con_tree row.now))
        (kind_tree kind.now) (pairs_tree fields.now)) }
{
    match f {
        Con::Basic(s) => {
            if !is_folder_type(h.program, kind, *s) {
                return Ok(false);
            }
            is_row_of(alloc, row, fields)
        }
        _ => Ok(false),
    }
}

/// Whether a type is that of folders of a row with these fields.
fn is_folder_at(
    alloc: Global,
    h: &At<'_>,
    c: &Con,
    kind: &Kind,
    fields: &Pairs,
) -> Result<bool, AllocError>
    ensures { IfOk result (λ b. IsTrue b → rows.IsFolderAt (at_view h.now) (con_tree c.now) (kind_tree kind.now)
        (pairs_tree fields.now)) }
{
    match c {
        Con::App(f, row) => are_folder_parts(alloc, h, f, row, kind, fields),
        _ => Ok(false),
    }
}

/// Whether an inserted folder is the one of this type.
pub fn is_folder_of(
    alloc: Global,
    h: &At<'_>,
    t: &Con,
    kind: &Kind,
    fields: &Pairs,
) -> Result<bool, AllocError>
    ensures { IfOk result
        (λ b. IsTrue b → (p : Place) → implied.Inserts (at_view h.now) (con_tree t.now)
        (node p true (folder (kind_tree kind.now) (pairs_tree fields.now)))) }
{
    match head_of(alloc, t)? {
        None => Ok(false),
        Some(head) => is_folder_at(alloc, h, &head, kind, fields),
    }
}

/// Whether a piece is a literal.
fn is_literal(piece: &Con) -> bool
    ensures { result ≡ rows.is_row (con_tree piece.now) }
{
    matches!(piece, Con::Row(_, _))
}

/// Whether some piece is no literal.
#[tactic(auto, using(crate::proofs::Fields::open_begin, crate::proofs::Fields::open_more, crate::proofs::Fields::open_here))]
fn is_one_open(pieces: &Cons) -> bool
    ensures { IsTrue result → forms.literal_fields (con_list (cons_tree pieces.now)) ≡ None }
{
    for i in 0..pieces.items.len() {
        if !is_literal(&pieces.items[i]) {
            return true;
        }
    }
    false
}

/// Whether a row isn't put together of literals alone, or is too large to be known.
#[tactic(auto, using(crate::proofs::Fields::open_row, crate::proofs::Fields::large_row))]
fn is_open(alloc: Global, row: &Con) -> Result<bool, AllocError>
    ensures { IfOk result (λ b. IsTrue b → rows.fields_of (con_tree row.now) ≡ None) }
{
    match steps_of(alloc, row)? {
        None => Ok(true),
        Some(row) => Ok(is_one_open(&pieces(alloc, row)?)),
    }
}

/// The kind for whose rows this symbol is that of the type of folders.
fn kind_of_folders(program: &Program, s: Sym) -> Option<&Kind>
    ensures { IfSome result
        (λ k. Contains (map folder_view program.now.folders.items.items) (kind_tree k.now, s.number)) }
{
    let folders = program.folders.items.as_slice();
    for i in 0..folders.len() {
        if folders[i].symbol.number == s.number {
            return Some(&folders[i].kind);
        }
    }
    None
}

/// Whether these are the parts of a type of folders of a row that isn't known.
fn are_open_parts(alloc: Global, h: &At<'_>, f: &Con, row: &Con) -> Result<bool, AllocError>
    ensures { IfOk result
        (λ b. IsTrue b → rows.IsOpenFolder (at_view h.now) (app (con_tree f.now) (con_tree row.now))) }
{
    match f {
        Con::Basic(s) => match kind_of_folders(h.program, *s) {
            None => Ok(false),
            Some(_) => is_open(alloc, row),
        },
        _ => Ok(false),
    }
}

/// Whether a type is that of folders of a row that isn't known.
fn is_open_at(alloc: Global, h: &At<'_>, c: &Con) -> Result<bool, AllocError>
    ensures { IfOk result (λ b. IsTrue b → rows.IsOpenFolder (at_view h.now) (con_tree c.now)) }
{
    match c {
        Con::App(f, row) => are_open_parts(alloc, h, f, row),
        _ => Ok(false),
    }
}

/// Whether a type is that of folders of a row that isn't known, so that this gap stands for it.
pub(crate) fn lacks_folder(alloc: Global, h: &At<'_>, t: &Con, gap: u32) -> Result<bool, AllocError>
    requires { gap ≡ no_folder_here }
    ensures { IfOk result
        (λ b. IsTrue b → (p : Place) → Lacks (at_view h.now) (con_tree t.now) (node p true (top gap))) }
{
    match head_of(alloc, t)? {
        None => Ok(false),
        Some(head) => is_open_at(alloc, h, &head),
    }
}

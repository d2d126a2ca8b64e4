//! Columns of a matrix of patterns.
ghost use Rattle.std.specs.Prelude.{◌≡◌, ◌∷◌, [], IfOk, map};
ghost use Rattle.con_terms.specs.View.{con_tree};
ghost use Rattle.match_cover.specs.Misses.{columns_at as columns_in};
ghost use Rattle.match_cover.specs.View.{columns_view, part_view};

use crate::seen::Part;
use con_terms::{Con, copy_con};
use std::alloc::{AllocError, Global};
use std::rc::Rc;

/// Columns: how deep their values are looked at, and the values' types.
#[cycle(columns)]
#[derive(Drop)]
pub enum Columns {
    End,
    More(u32, Rc<Con>, Rc<Columns>),
}

/// A column before others.
pub fn column_before(
    alloc: Global,
    depth: u32,
    con: Con,
    rest: &Rc<Columns>,
) -> Result<Rc<Columns>, AllocError>
    ensures { IfOk result (λ new. columns_view new.value ≡ (depth, con_tree con) ∷ columns_view rest.now.value) }
{
    let con = Rc::new(alloc, con).map_err(AllocError::from)?;
    let cols = Columns::More(depth, con, rest.clone()?);
    Ok(Rc::new(alloc, cols).map_err(AllocError::from)?)
}

/// The only column of a match.
pub fn one_column(alloc: Global, depth: u32, con: &Con) -> Result<Rc<Columns>, AllocError>
    ensures { IfOk result (λ new. columns_view new.value ≡ (depth, con_tree con.now) ∷ []) }
{
    let con = copy_con(alloc, con)?;
    let end = Rc::new(alloc, Columns::End).map_err(AllocError::from)?;
    column_before(alloc, depth, con, &end)
}

/// The fields of a record as columns, before others.
#[tactic(auto, using(crate::proofs::ColumnsOn::columns_on))]
pub fn columns_at(
    alloc: Global,
    depth: u32,
    fields: &Vec<Part>,
    rest: &Rc<Columns>,
) -> Result<Rc<Columns>, AllocError>
    ensures { IfOk result (λ new. columns_view new.value ≡
        columns_in depth (map part_view fields.now.items) (columns_view rest.now.value)) }
{
    let mut built = rest.clone()?;
    let mut left = fields.len();
    while left > 0 {
        left -= 1;
        let con = copy_con(alloc, &fields[left].con)?;
        built = column_before(alloc, depth, con, &built)?;
    }
    Ok(built)
}

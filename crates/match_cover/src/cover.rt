//! Whether patterns take every value of a type.
ghost use Rattle.std.specs.Prelude.{◌≡◌, ◌++◌, ◌∷◌, [], IfErr, IfOk, List, None, OnOk, map, max};
ghost use Rattle.con_terms.specs.View.{con_tree};
ghost use Rattle.core_terms.specs.Trees.{Pt};
ghost use Rattle.core_terms.specs.View.{datatype_view, decls_view, pat_tree, pats_view};
ghost use Rattle.core_typing.specs.Cover.{Covers};
ghost use Rattle.core_typing.specs.Declarations.{CoversBefore, datatypes_before as before};
ghost use Rattle.match_cover.specs.Laws.{Asks, Missed, Refused, TellsFirst};
ghost use Rattle.match_cover.specs.Levels.{large_among as large_in};
ghost use Rattle.match_cover.specs.Tests.{test_of as asked_by};
ghost use Rattle.match_cover.specs.View.{maybe_shape, out_view, row_view, rows_view};
ghost use Rattle.match_cover.specs.Why.{IsFirst, IsWhy, why_not};

use crate::columns::one_column;
use crate::declared::datatypes_before;
use crate::fault::CoverFault;
use crate::first::Work;
use crate::levels::large_among;
use crate::miss::misses;
use crate::rows::{Row, Rows, no_columns, one_test, row_before};
use crate::shapes::Shapes;
use crate::test::{pattern_depth, test_of};
use con_terms::{Con, copy_con};
use core_terms::{Datatype, Decls, MOST_NESTED, Pat, Pats};
use std::alloc::{AllocError, Global};
use std::rc::Rc;
use type_faults::Shape;

/// How many columns may stand one after another.
const COLUMNS: u32 = 3000;

/// How many steps of looking one match may take.
const STEPS: u32 = 1_000_000;

/// Patterns, as what they ask. Contracts speak of the list of patterns that it was made of.
#[derive(Drop)]
pub struct Asked {
    rows: Rows,
    depth: u32,
}

impl Asked {
    /// No pattern.
    pub fn new(alloc: Global) -> Asked
        ensures { Asks [] (rows_view result.rows) result.depth }
    {
        Asked {
            rows: Rows {
                items: Vec::new(alloc),
            },
            depth: 0,
        }
    }

    /// Puts a pattern behind the others.
    pub fn add(&mut self, alloc: Global, p: &Pat) -> Result<(), AllocError>
        ensures { OnOk result ((ps : List Pt) → Asks ps (rows_view self.old.rows) self.old.depth
            → Asks (ps ++ pat_tree p.now ∷ []) (rows_view self.new.rows) self.new.depth) }
    {
        let depth = pattern_depth(p, MOST_NESTED)?;
        let row = row_of(alloc, p)?;
        self.rows.items.push(row)?;
        if self.depth < depth {
            self.depth = depth;
        }
        Ok(())
    }
}

/// The row of a pattern, whose only column has one test.
fn row_of(alloc: Global, p: &Pat) -> Result<Rc<Row>, AllocError>
    ensures { IfOk result (λ r. row_view r.value ≡ (asked_by (pat_tree p.now) ∷ []) ∷ []) }
{
    let cell = one_test(alloc, test_of(alloc, p, MOST_NESTED)?)?;
    row_before(alloc, cell, no_columns(alloc)?)
}

/// Whether the type, or that of a part that patterns of this depth look at, is too large.
fn is_large(
    alloc: Global,
    datatypes: &Vec<Datatype>,
    depth: u32,
    t: &Con,
) -> Result<bool, AllocError>
    ensures { IfOk result (λ r. r ≡
        large_in (map datatype_view datatypes.now.items) (max 1 depth) (con_tree t.now ∷ [])) }
{
    let mut types = Vec::new(alloc);
    types.push(copy_con(alloc, t)?)?;
    let levels = if depth == 0 { 1 } else { depth };
    large_among(alloc, datatypes, types, levels)
}

/// The shape of the first column, where shapes are missed.
fn first_of(missed: Option<Shapes>) -> Result<Option<Shape>, AllocError>
    ensures { IfOk result (λ o. TellsFirst (out_view missed) (maybe_shape o)) }
{
    match missed {
        None => Ok(None),
        Some(Shapes::More(s, _)) => Ok(Some(Box::into_inner(s))),
        Some(Shapes::End) => Err(AllocError),
    }
}

/// The first shape of a type that none of the patterns takes.
fn first_missed(
    alloc: Global,
    datatypes: &Vec<Datatype>,
    asked: &Asked,
    t: &Con,
) -> Result<Option<Shape>, AllocError>
    ensures missed { (ps : List Pt) → Asks ps (rows_view asked.now.rows) asked.now.depth
        → IfOk result (λ o. Missed (map datatype_view datatypes.now.items) ps (con_tree t.now) (maybe_shape o)) }
    ensures computed { (ps : List Pt) → Asks ps (rows_view asked.now.rows) asked.now.depth
        → IfOk result (λ o. IsFirst (map datatype_view datatypes.now.items) ps (con_tree t.now) (maybe_shape o)) }
{
    let cols = one_column(alloc, asked.depth, t)?;
    let mut work = Work { left: STEPS };
    let missed = misses(alloc, datatypes, &cols, &asked.rows, COLUMNS, &mut work)?;
    let first = first_of(missed)?;
    Ok(first)
}

/// Whether patterns take every value of a type, where these datatypes are declared.
#[tactic(auto, using(crate::proofs::Asking::is_large, crate::proofs::Asking::is_small, crate::proofs::Asking::covers_all, crate::proofs::Reasons::large_told, crate::proofs::Reasons::first_told))]
pub fn covers_asked(
    alloc: Global,
    datatypes: &Vec<Datatype>,
    asked: &Asked,
    t: &Con,
) -> Result<(), CoverFault>
    ensures covers { (ps : List Pt) → Asks ps (rows_view asked.now.rows) asked.now.depth
        → OnOk result (Covers (map datatype_view datatypes.now.items) ps (con_tree t.now)) }
    ensures refused { (ps : List Pt) → Asks ps (rows_view asked.now.rows) asked.now.depth
        → IfErr result (Refused (map datatype_view datatypes.now.items) ps (con_tree t.now)) }
    ensures silent { (ps : List Pt) → Asks ps (rows_view asked.now.rows) asked.now.depth
        → OnOk result (why_not (map datatype_view datatypes.now.items) ps (con_tree t.now) ≡ None) }
    ensures told { (ps : List Pt) → Asks ps (rows_view asked.now.rows) asked.now.depth
        → IfErr result (IsWhy (map datatype_view datatypes.now.items) ps (con_tree t.now)) }
{
    if is_large(alloc, datatypes, asked.depth, t)? {
        return Err(CoverFault::TooLarge);
    }
    match first_missed(alloc, datatypes, asked, t)? {
        None => Ok(()),
        Some(s) => Err(CoverFault::Missed(s)),
    }
}

/// What patterns ask.
fn asked_of(alloc: Global, ps: &Pats) -> Result<Asked, AllocError>
    ensures { IfOk result (λ a. Asks (pats_view ps.now) (rows_view a.rows) a.depth) }
{
    let mut asked = Asked::new(alloc);
    for i in 0..ps.items.len() {
        asked.add(alloc, &ps.items[i])?;
    }
    Ok(asked)
}

/// Whether patterns take every value of a type, where so many of the declarations count.
pub fn covers(
    alloc: Global,
    ds: &Decls,
    counted: usize,
    ps: &Pats,
    t: &Con,
) -> Result<(), CoverFault>
    ensures covers { OnOk result (CoversBefore (decls_view ds.now) counted (pats_view ps.now) (con_tree t.now)) }
    ensures refused { IfErr result
        (Refused (before counted (decls_view ds.now)) (pats_view ps.now) (con_tree t.now)) }
{
    let datatypes = datatypes_before(alloc, ds, counted)?;
    let asked = asked_of(alloc, ps)?;
    covers_asked(alloc, &datatypes, &asked, t)
}

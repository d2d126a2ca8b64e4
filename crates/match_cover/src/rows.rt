//! Rows of tests, and what is left of them where a shape of the first column is known.
ghost use Rattle.std.specs.Prelude.{◌≡◌, ◌∷◌, [], Some, None, if◌then◌else◌, map, option_map, IfOk};
ghost use Rattle.con_terms.specs.View.{con_tree};
ghost use Rattle.core_typing.specs.Cover as cover;
ghost use Rattle.core_terms.specs.View.{maybe_con};
ghost use Rattle.match_cover.specs.Rows as meant;
ghost use Rattle.match_cover.specs.Tests as asked;
ghost use Rattle.match_cover.specs.View.{cell_at, cell_view, maybe_cell, maybe_row, maybe_shared, maybe_tests, part_view, row_view, rows_view, test_tree, tests_tree};
ghost use Rattle.type_faults.specs.View.{shape_tree, shapes_tree};

use crate::seen::Part;
use crate::test::{Test, Tests};
use con_terms::{Con, Sym, copy_con};
use row_normal::same_con;
use std::alloc::{AllocError, Global};
use std::rc::Rc;
use table_rows::Text;
use type_faults::{Shape, ShapeFields};

/// Tests of one value, which is to pass all of them.
#[cycle(cell)]
#[derive(Drop)]
pub enum Cell {
    End,
    More(Rc<Test>, Rc<Cell>),
}

/// Tests of several values, one column each.
#[cycle(row)]
#[derive(Drop)]
pub enum Row {
    End,
    More(Rc<Cell>, Rc<Row>),
}

/// Rows in order.
#[derive(Drop)]
pub struct Rows {
    pub items: Vec<Rc<Row>>,
}

/// Something that is owned by several.
fn owned<T: Drop>(alloc: Global, value: T) -> Result<Rc<T>, AllocError>
    ensures { IfOk result (λ new. new.value ≡ value) }
{
    Ok(Rc::new(alloc, value).map_err(AllocError::from)?)
}

/// Whether a shape is this number.
fn is_number(z: i64, s: &Shape) -> bool
    ensures { result ≡ asked.passes (asked.a_number z) (shape_tree s.now) }
{
    match s {
        Shape::Leaf | Shape::Words(_) | Shape::Bare(_, _) => false,
        Shape::Holding(_, _, _) | Shape::Record(_) => false,
        Shape::Number(y) => z == *y,
    }
}

/// Whether a shape is this text.
fn is_text(t: &Text, s: &Shape) -> bool
    ensures { result ≡ asked.passes (asked.a_text t.now) (shape_tree s.now) }
{
    match s {
        Shape::Leaf | Shape::Number(_) | Shape::Bare(_, _) => false,
        Shape::Holding(_, _, _) | Shape::Record(_) => false,
        Shape::Words(w) => t.as_bytes() == w.as_bytes(),
    }
}

/// Whether a shape is this constructor, which holds nothing.
fn is_bare(d: Sym, j: u32, s: &Shape) -> bool
    ensures { result ≡ asked.passes (asked.a_bare d.number j) (shape_tree s.now) }
{
    match s {
        Shape::Leaf | Shape::Number(_) | Shape::Words(_) => false,
        Shape::Holding(_, _, _) | Shape::Record(_) => false,
        Shape::Bare(e, i) => d.number == e.number && j == *i,
    }
}

/// The shape of the field with a name, where there is one.
#[tactic(auto, using(crate::proofs::ShapeFields::shapes_tree_is, crate::proofs::ShapeFields::field_here, crate::proofs::ShapeFields::field_later, crate::proofs::ShapeFields::field_nowhere))]
fn field_at<'a>(fs: &'a ShapeFields, x: &Con) -> Option<&'a Shape>
    ensures { asked.or_leaf (option_map (λ s. shape_tree s.now) result)
        ≡ cover.shape_at (shapes_tree fs.now) (con_tree x.now) }
{
    for i in 0..fs.items.len() {
        if same_con(&fs.items[i].name, x) {
            return Some(&fs.items[i].shape);
        }
    }
    None
}

/// Whether a value of a shape passes a test.
#[cycle(passes)]
fn passes(t: &Test, s: &Shape) -> bool
    ensures { result ≡ asked.passes (test_tree t.now) (shape_tree s.now) }
{
    match t {
        Test::Anything => true,
        Test::Number(z) => is_number(*z, s),
        Test::Words(t) => is_text(t, s),
        Test::Bare(d, j) => is_bare(*d, *j, s),
        Test::Holding(d, j, t) => match s {
            Shape::Leaf | Shape::Number(_) | Shape::Words(_) => false,
            Shape::Bare(_, _) | Shape::Record(_) => false,
            Shape::Holding(e, i, h) => d.number == e.number && *j == *i && passes(t, h),
        },
        Test::Fields(ts) => match s {
            Shape::Leaf | Shape::Number(_) | Shape::Words(_) => false,
            Shape::Bare(_, _) | Shape::Holding(_, _, _) => false,
            Shape::Record(fs) => fields_pass(ts, fs),
        },
    }
}

/// Whether fields pass tests.
#[cycle(passes)]
fn fields_pass(ts: &Tests, fs: &ShapeFields) -> bool
    ensures { result ≡ asked.fields_pass (tests_tree ts.now) (shapes_tree fs.now) }
{
    match ts {
        Tests::End => true,
        Tests::More(n, t, more) => field_passes(n, t, fs) && fields_pass(more, fs),
    }
}

/// Whether the field with a name passes a test.
#[cycle(passes)]
fn field_passes(n: &Option<Con>, t: &Test, fs: &ShapeFields) -> bool
    ensures { result ≡ asked.passes (test_tree t.now)
        (cover.shape_named (shapes_tree fs.now) (maybe_con n.now)) }
{
    match n {
        None => passes(t, &Shape::Leaf),
        Some(x) => match field_at(fs, x) {
            None => passes(t, &Shape::Leaf),
            Some(s) => passes(t, s),
        },
    }
}

/// Whether a shape passes all tests of a cell.
#[cycle(cell_passes)]
fn cell_passes(c: &Cell, s: &Shape) -> bool
    ensures { result ≡ meant.cell_passes (cell_view c.now) (shape_tree s.now) }
{
    match c {
        Cell::End => true,
        Cell::More(t, more) => passes(t, s) && cell_passes(more, s),
    }
}

/// The same rows once more.
pub fn shared(alloc: Global, rows: &Rows) -> Result<Rows, AllocError>
    ensures { IfOk result (λ new. rows_view new ≡ rows_view rows.now) }
{
    let mut items = Vec::with_capacity(alloc, rows.items.len())?;
    for i in 0..rows.items.len() {
        items.push(rows.items[i].clone()?)?;
    }
    Ok(Rows { items })
}

/// Whether a test asks nothing.
fn asks_nothing(t: &Test) -> bool
    ensures { result ≡ meant.asks_nothing (test_tree t.now) }
{
    matches!(t, Test::Anything)
}

/// Whether a cell asks nothing.
#[cycle(is_free)]
fn is_free(c: &Cell) -> bool
    ensures { result ≡ meant.is_free (cell_view c.now) }
{
    match c {
        Cell::End => true,
        Cell::More(t, more) => asks_nothing(t) && is_free(more),
    }
}

/// Whether a row asks nothing.
#[cycle(row_is_free)]
fn row_is_free(r: &Row) -> bool
    ensures { result ≡ meant.row_is_free (row_view r.now) }
{
    match r {
        Row::End => true,
        Row::More(c, more) => is_free(c) && row_is_free(more),
    }
}

/// Whether one of the rows asks nothing.
pub fn one_is_free(rows: &Rows) -> bool
    ensures { result ≡ meant.one_is_free (rows_view rows.now) }
{
    for i in 0..rows.items.len() {
        if row_is_free(&rows.items[i]) {
            return true;
        }
    }
    false
}

/// Whether a row asks nothing of its first column.
fn head_is_free(r: &Row) -> bool
    ensures { result ≡ meant.head_is_free (row_view r.now) }
{
    match r {
        Row::End => true,
        Row::More(c, _) => is_free(c),
    }
}

/// Whether no row asks anything of the first column.
pub fn heads_are_free(rows: &Rows) -> bool
    ensures { result ≡ meant.heads_are_free (rows_view rows.now) }
{
    for i in 0..rows.items.len() {
        if !head_is_free(&rows.items[i]) {
            return false;
        }
    }
    true
}

/// Whether a shape of the first column passes a row.
fn head_passes(r: &Row, s: &Shape) -> bool
    ensures { (if result then Some (row_view r.now) else None) ≡ meant.kept_at (shape_tree s.now) (row_view r.now) }
{
    match r {
        Row::End => true,
        Row::More(c, _) => cell_passes(c, s),
    }
}

/// The rows whose first column a shape passes.
pub fn kept(alloc: Global, s: &Shape, rows: &Rows) -> Result<Rows, AllocError>
    ensures { IfOk result (λ new. rows_view new ≡ meant.kept (shape_tree s.now) (rows_view rows.now)) }
{
    let mut items = Vec::new(alloc);
    for i in 0..rows.items.len() {
        if head_passes(&rows.items[i], s) {
            items.push(rows.items[i].clone()?)?;
        }
    }
    Ok(Rows { items })
}

/// A row without its first column.
fn tail_of(alloc: Global, r: &Row) -> Result<Rc<Row>, AllocError>
    ensures { IfOk result (λ new. Some (row_view new.value) ≡ meant.tail_of (row_view r.now)) }
{
    match r {
        Row::End => owned(alloc, Row::End),
        Row::More(_, more) => Ok(more.clone()?),
    }
}

/// The rows without their first column.
pub fn tails(alloc: Global, rows: &Rows) -> Result<Rows, AllocError>
    ensures { IfOk result (λ new. rows_view new ≡ meant.tails (rows_view rows.now)) }
{
    let mut items = Vec::new(alloc);
    for i in 0..rows.items.len() {
        items.push(tail_of(alloc, &rows.items[i])?)?;
    }
    Ok(Rows { items })
}

/// What tests ask of what a constructor holds; none where it doesn't pass one of them.
#[cycle(held_tests)]
fn held_tests(alloc: Global, d: Sym, j: u32, c: &Cell) -> Result<Option<Cell>, AllocError>
    ensures { IfOk result (λ o. maybe_cell o ≡ meant.held_tests d.number j (cell_view c.now)) }
{
    match c {
        Cell::End => Ok(Some(Cell::End)),
        Cell::More(t, more) => match &**t {
            Test::Anything => held_tests(alloc, d, j, more),
            Test::Holding(e, i, held) => {
                if e.number != d.number || *i != j {
                    return Ok(None);
                }
                match held_tests(alloc, d, j, more)? {
                    None => Ok(None),
                    Some(rest) => Ok(Some(Cell::More(held.clone()?, owned(alloc, rest)?))),
                }
            }
            Test::Number(_) | Test::Words(_) | Test::Bare(_, _) | Test::Fields(_) => Ok(None),
        },
    }
}

/// A row for what a constructor holds, in place of its first column; none where the constructor doesn't pass it.
fn inside_of(alloc: Global, d: Sym, j: u32, r: &Row) -> Result<Option<Row>, AllocError>
    ensures { IfOk result (λ o. maybe_row o ≡ meant.inside_of d.number j (row_view r.now)) }
{
    match r {
        Row::End => Ok(Some(Row::End)),
        Row::More(c, more) => match held_tests(alloc, d, j, c)? {
            None => Ok(None),
            Some(cell) => Ok(Some(Row::More(owned(alloc, cell)?, more.clone()?))),
        },
    }
}

/// The rows for what a constructor holds, in place of the first column.
pub fn inside(alloc: Global, d: Sym, j: u32, rows: &Rows) -> Result<Rows, AllocError>
    ensures { IfOk result (λ new. rows_view new ≡ meant.inside d.number j (rows_view rows.now)) }
{
    let mut items = Vec::new(alloc);
    for i in 0..rows.items.len() {
        match inside_of(alloc, d, j, &rows.items[i])? {
            None => {}
            Some(row) => items.push(owned(alloc, row)?)?,
        }
    }
    Ok(Rows { items })
}

/// A copy of a name.
fn copy_name(alloc: Global, n: &Option<Con>) -> Result<Option<Con>, AllocError>
    ensures { IfOk result (λ new. maybe_con new ≡ maybe_con n.now) }
{
    match n {
        None => Ok(None),
        Some(x) => Ok(Some(copy_con(alloc, x)?)),
    }
}

/// Tests of fields, and further ones behind them.
#[cycle(tests_then)]
fn tests_then(alloc: Global, ts: &Tests, more: Tests) -> Result<Tests, AllocError>
    ensures { IfOk result (λ new. tests_tree new ≡ asked.tests_then (tests_tree ts.now) (tests_tree more)) }
{
    match ts {
        Tests::End => Ok(more),
        Tests::More(n, t, rest) => {
            let name = copy_name(alloc, n)?;
            let rest = tests_then(alloc, rest, more)?;
            Ok(Tests::More(name, t.clone()?, owned(alloc, rest)?))
        }
    }
}

/// A list of tests that may be there.
#[cycle(fields_asked)]
fn fields_asked(alloc: Global, c: &Cell) -> Result<Option<Tests>, AllocError>
    ensures { IfOk result (λ o. maybe_tests o ≡ meant.fields_asked (cell_view c.now)) }
{
    match c {
        Cell::End => Ok(Some(Tests::End)),
        Cell::More(t, more) => match &**t {
            Test::Anything => fields_asked(alloc, more),
            Test::Fields(ts) => match fields_asked(alloc, more)? {
                None => Ok(None),
                Some(rest) => Ok(Some(tests_then(alloc, ts, rest)?)),
            },
            Test::Number(_) | Test::Words(_) | Test::Bare(_, _) | Test::Holding(_, _, _) => {
                Ok(None)
            }
        },
    }
}

/// Whether a name is this one.
fn is_named(x: &Con, n: &Option<Con>) -> bool
    ensures { result ≡ asked.is_named (con_tree x.now) (maybe_con n.now) }
{
    match n {
        None => false,
        Some(y) => same_con(x, y),
    }
}

/// What is asked of the field with a name.
#[cycle(tests_named)]
fn tests_named(alloc: Global, x: &Con, ts: &Tests) -> Result<Cell, AllocError>
    ensures { IfOk result (λ c. cell_view c ≡ asked.tests_named (con_tree x.now) (tests_tree ts.now)) }
{
    match ts {
        Tests::End => Ok(Cell::End),
        Tests::More(n, t, more) => {
            let rest = tests_named(alloc, x, more)?;
            if is_named(x, n) {
                Ok(Cell::More(t.clone()?, owned(alloc, rest)?))
            } else {
                Ok(rest)
            }
        }
    }
}

/// What is asked of the other fields.
#[cycle(tests_not_named)]
fn tests_not_named(alloc: Global, x: &Con, ts: &Tests) -> Result<Tests, AllocError>
    ensures { IfOk result (λ new. tests_tree new ≡ asked.tests_not_named (con_tree x.now) (tests_tree ts.now)) }
{
    match ts {
        Tests::End => Ok(Tests::End),
        Tests::More(n, t, more) => {
            let rest = tests_not_named(alloc, x, more)?;
            if is_named(x, n) {
                Ok(rest)
            } else {
                let name = copy_name(alloc, n)?;
                Ok(Tests::More(name, t.clone()?, owned(alloc, rest)?))
            }
        }
    }
}

/// Whether fields of which nothing is known pass.
#[cycle(pass_leaves)]
fn pass_leaves(ts: &Tests) -> bool
    ensures { result ≡ asked.pass_leaves (tests_tree ts.now) }
{
    match ts {
        Tests::End => true,
        Tests::More(_, t, more) => passes(t, &Shape::Leaf) && pass_leaves(more),
    }
}

/// A cell with one test.
pub fn one_test(alloc: Global, t: Test) -> Result<Rc<Cell>, AllocError>
    ensures { IfOk result (λ c. cell_at c ≡ test_tree t ∷ []) }
{
    let end = owned(alloc, Cell::End)?;
    let test = owned(alloc, t)?;
    owned(alloc, Cell::More(test, end))
}

/// A row that asks nothing.
pub fn no_columns(alloc: Global) -> Result<Rc<Row>, AllocError>
    ensures { IfOk result (λ new. row_view new.value ≡ []) }
{
    owned(alloc, Row::End)
}

/// What is asked of the other fields, in place of what is asked of all.
fn others(alloc: Global, x: &Con, ts: Tests) -> Result<Tests, AllocError>
    ensures { IfOk result (λ new. tests_tree new ≡ asked.tests_not_named (con_tree x.now) (tests_tree ts)) }
{
    tests_not_named(alloc, x, &ts)
}

/// Whether fields of which nothing is known pass what is left to ask.
fn rest_passes(ts: Tests) -> bool
    ensures { result ≡ asked.pass_leaves (tests_tree ts) }
{
    pass_leaves(&ts)
}

/// A row with a cell before its others.
pub fn row_before(alloc: Global, cell: Rc<Cell>, rest: Rc<Row>) -> Result<Rc<Row>, AllocError>
    ensures { IfOk result (λ new. row_view new.value ≡ cell_at cell ∷ row_view rest.value) }
{
    owned(alloc, Row::More(cell, rest))
}

/// What is asked of the field with a name, as a cell that is owned by several.
fn cell_of(alloc: Global, name: &Con, ts: &Tests) -> Result<Rc<Cell>, AllocError>
    ensures { IfOk result (λ c. cell_at c ≡ asked.tests_named (con_tree name.now) (tests_tree ts.now)) }
{
    owned(alloc, tests_named(alloc, name, ts)?)
}

/// A row with cells before its others, from the last to the first.
fn with_cells(alloc: Global, cells: Vec<Rc<Cell>>, more: &Rc<Row>) -> Result<Rc<Row>, AllocError>
    ensures { IfOk result (λ new. Some (row_view new.value) ≡
        meant.before_cells (map cell_at cells.items) (Some (row_view more.now.value))) }
{
    let mut row = more.clone()?;
    let mut waiting = cells;
    'joins: while let Some(cell) = waiting.pop() {
        row = row_before(alloc, cell, row)?;
    }
    Ok(row)
}

/// The fields as columns, before the others.
#[tactic(auto, using(crate::proofs::RecordColumns::none_of, crate::proofs::RecordColumns::some_of))]
fn columns_of(
    alloc: Global,
    fields: &Vec<Part>,
    ts: Tests,
    more: &Rc<Row>,
) -> Result<Option<Rc<Row>>, AllocError>
    ensures { IfOk result (λ o. maybe_shared o ≡
        meant.columns_of (map part_view fields.now.items) (tests_tree ts) (row_view more.now.value)) }
{
    let mut cells = Vec::with_capacity(alloc, fields.len())?;
    let mut rest = ts;
    for i in 0..fields.len() {
        let name = &fields[i].name;
        cells.push(cell_of(alloc, name, &rest)?)?;
        rest = others(alloc, name, rest)?;
    }
    if rest_passes(rest) {
        Ok(Some(with_cells(alloc, cells, more)?))
    } else {
        Ok(None)
    }
}

/// A row for a record's fields, in place of its first column; none where no record passes it.
fn opened_of(alloc: Global, fields: &Vec<Part>, r: &Row) -> Result<Option<Rc<Row>>, AllocError>
    ensures { IfOk result (λ o. maybe_shared o ≡
        meant.opened_of (map part_view fields.now.items) (row_view r.now)) }
{
    match r {
        Row::End => Ok(Some(owned(alloc, Row::End)?)),
        Row::More(c, more) => match fields_asked(alloc, c)? {
            None => Ok(None),
            Some(ts) => columns_of(alloc, fields, ts, more),
        },
    }
}

/// The rows for a record's fields, in place of the first column.
pub fn opened(alloc: Global, fields: &Vec<Part>, rows: &Rows) -> Result<Rows, AllocError>
    ensures { IfOk result (λ new. rows_view new ≡ meant.opened (map part_view fields.now.items) (rows_view rows.now)) }
{
    let mut items = Vec::new(alloc);
    for i in 0..rows.items.len() {
        match opened_of(alloc, fields, &rows.items[i])? {
            None => {}
            Some(row) => items.push(row)?,
        }
    }
    Ok(Rows { items })
}

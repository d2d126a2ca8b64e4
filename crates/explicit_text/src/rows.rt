//! Rows, and the names of fields.
use crate::cons::{PIECE, WHOLE};
use crate::known::Known;
use crate::printer::Style;
use crate::tasks::{ConTask, Task, Tasks, behind, con, field_name, symbol, word};
use con_terms::{Con, Pair, Pairs};
use std::alloc::{AllocError, Global};

/// The name of a field, where it is a literal one.
fn literal_name<'a>(known: &'a Known, name: &Con) -> Option<&'a str> {
    match name {
        Con::Name(symbol) => Some(known.text(*symbol)),
        _ => None,
    }
}

/// The literal names of a row with their places, in the order of their bytes.
fn literal_places<'a>(
    alloc: Global,
    known: &'a Known,
    pairs: &Pairs,
) -> Result<Vec<(&'a str, usize)>, AllocError> {
    let mut found = Vec::new(alloc);
    for (place, pair) in pairs.items.iter().enumerate() {
        if let Some(name) = literal_name(known, &pair.name) {
            found.push((name, place))?;
        }
    }
    found.sort()?;
    Ok(found)
}

/// Prints a field of a row, and what stands behind it: nothing where it's the last.
fn field_before<'a>(tasks: &mut Tasks<'a>, pair: &'a Pair, last: bool) -> Result<(), AllocError> {
    behind(tasks, ",", last)?;
    tasks.before(Task::Con(ConTask::RowField(pair)))
}

/// Prints the fields of a row in their order, those with a literal name where that is wanted; whether nothing stands
/// behind them is told and answered.
fn fields_as_written<'a>(
    tasks: &mut Tasks<'a>,
    pairs: &'a Pairs,
    literal_too: bool,
) -> Result<bool, AllocError> {
    let mut last = true;
    for pair in pairs.items.iter().rev() {
        if literal_too || !matches!(pair.name, Con::Name(_)) {
            field_before(tasks, pair, last)?;
            last = false;
        }
    }
    Ok(last)
}

/// Prints the fields of a row, the literal names first, in the order of their bytes.
fn fields_sorted<'a>(
    alloc: Global,
    known: &Known,
    tasks: &mut Tasks<'a>,
    pairs: &'a Pairs,
) -> Result<(), AllocError> {
    let mut last = fields_as_written(tasks, pairs, false)?;
    let places = literal_places(alloc, known, pairs)?;
    for (_, place) in places.iter().rev() {
        if let Some(pair) = pairs.items.get(*place) {
            field_before(tasks, pair, last)?;
            last = false;
        }
    }
    Ok(())
}

/// Prints a row.
pub fn print_row<'a>(
    style: &Style<'a>,
    tasks: &mut Tasks<'a>,
    pairs: &'a Pairs,
) -> Result<(), AllocError> {
    tasks.before(word("]"))?;
    if style.sorted {
        fields_sorted(style.alloc, style.known, tasks, pairs)?;
    } else {
        fields_as_written(tasks, pairs, true)?;
    }
    tasks.before(word("["))
}

/// Prints a field of a row. The value `()` isn't written.
pub fn print_row_field<'a>(tasks: &mut Tasks<'a>, pair: &'a Pair) -> Result<(), AllocError> {
    match &pair.value {
        Con::UnitCon => tasks.before(field_name(&pair.name)),
        value => tasks.first(&[field_name(&pair.name), word("="), con(value, WHOLE)]),
    }
}

/// Prints the name of a field, a literal one without its sign.
pub fn print_field_name<'a>(tasks: &mut Tasks<'a>, name: &'a Con) -> Result<(), AllocError> {
    match name {
        Con::Name(literal) => tasks.before(symbol(*literal)),
        _ => tasks.before(con(name, PIECE)),
    }
}

/// Prints the names of a row.
pub fn print_row_names<'a>(tasks: &mut Tasks<'a>, pairs: &'a Pairs) -> Result<(), AllocError> {
    tasks.before(word("]"))?;
    let mut last = true;
    for pair in pairs.items.iter().rev() {
        behind(tasks, ",", last)?;
        tasks.before(field_name(&pair.name))?;
        last = false;
    }
    tasks.before(word("["))
}

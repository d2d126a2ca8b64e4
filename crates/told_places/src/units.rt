//! The type of the empty record, which is unit's and stands for any record.
use crate::actions::ends_operand;
use crate::spot::{Spot, word_of};
use std::alloc::{AllocError, Global};

/// What a place shows of the empty record that is wanted there.
#[derive(Clone, Copy, Debug, PartialEq, Eq)]
pub(crate) enum Use {
    /// A field is named, or records are put together.
    Record,
    Unit,
    /// The line has signs of a record, but not beside the place.
    Either,
}

/// A type with `unit` for the type of the empty record.
pub(crate) fn with_units(alloc: Global, words: &str) -> Result<String, AllocError> {
    let mut shown = String::new(alloc);
    let mut first = true;
    for part in words.split("$ [ ]") {
        if !first {
            shown.push_str("unit")?;
        }
        first = false;
        shown.push_str(part)?;
    }
    Ok(shown)
}

/// What a place shows of the empty record that is wanted there.
pub(crate) fn use_of(spot: &Spot<'_>) -> Use {
    if is_projected(spot) {
        Use::Record
    } else if ends_operand(spot.before) {
        Use::Unit
    } else if is_joined(spot) {
        Use::Record
    } else if has_records(behind_atom(spot.rest)) {
        Use::Either
    } else {
        Use::Unit
    }
}

/// Whether a field is named of the name, number or string at a place, which may stand in brackets alone.
pub(crate) fn is_projected(spot: &Spot<'_>) -> bool {
    let behind = behind_atom(spot.rest);
    behind.starts_with('.')
        || spot.before.trim_end().ends_with('(') && behind.trim_start_matches(')').starts_with('.')
}

/// Whether a sign between records stands right before or behind the name, number or string at a place.
fn is_joined(spot: &Spot<'_>) -> bool {
    let before = spot.before.trim_end().trim_end_matches('(').trim_end();
    let behind = behind_atom(spot.rest).trim_start_matches(')').trim_start();
    before.ends_with("++") || joins(behind)
}

/// What stands behind a name, a number or a string with which a text begins.
pub(crate) fn behind_atom(rest: &str) -> &str {
    match rest.strip_prefix('"') {
        Some(inner) => match inner.split_once('"') {
            Some((_, behind)) => behind,
            None => "",
        },
        None => rest.strip_prefix(word_of(rest)).unwrap_or(rest),
    }
}

/// Whether a text begins with a sign between records, or between a record and a name.
fn joins(text: &str) -> bool {
    text.starts_with("++") || text.starts_with("--")
}

/// Whether the line with which a text begins, or the next one's begin, has signs of records.
fn has_records(text: &str) -> bool {
    let (line, next) = text.split_once('\n').unwrap_or((text, ""));
    line.contains("++")
        || line.contains("--")
        || line.contains(").")
        || joins(next.trim_start())
        || next.trim_start().starts_with('.')
}

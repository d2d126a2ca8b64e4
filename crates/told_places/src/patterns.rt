//! The sentences on patterns that don't fit what they take apart.
use crate::actions::ends_operand;
use crate::spot::{Spot, begins_with_capital, said, word_of};
use std::alloc::{AllocError, Global};

/// What is told of a pattern that doesn't fit what it takes apart, if it is known.
pub(crate) fn of_pattern(
    alloc: Global,
    wanted: &str,
    found: &str,
    spot: &Spot<'_>,
) -> Result<Option<String>, AllocError> {
    if is_empty_constructor(wanted, found, spot) {
        return Ok(Some(holds_nothing(alloc)?));
    }
    let left = first_field(wanted);
    if found == "$ [ ]" && is_record_pattern(spot.rest) && !left.is_empty() {
        return Ok(Some(leaves_out(alloc, left)?));
    }
    match lone_field(found) {
        Some(field) => Ok(Some(not_there(alloc, field, wanted)?)),
        None => Ok(None),
    }
}

/// Whether a pattern stands behind a constructor that holds nothing.
fn is_empty_constructor(wanted: &str, found: &str, spot: &Spot<'_>) -> bool {
    match wanted.strip_prefix("( ) -> ") {
        Some(given) => given == found
            && begins_with_capital(spot.rest)
            && !ends_operand(spot.before),
        None => false,
    }
}

/// A pattern behind a constructor that holds nothing.
fn holds_nothing(alloc: Global) -> Result<String, AllocError> {
    said(
        alloc,
        &["this constructor holds nothing: take away the pattern behind it"],
    )
}

/// Whether a pattern of fields or parts begins here, where a text begins with what has the type of the empty record.
pub(crate) fn is_record_pattern(rest: &str) -> bool {
    let is_open = rest.starts_with('{') || rest.starts_with('(');
    is_open && !rest.starts_with("()") && !rest.starts_with("{}")
}

/// The first field of a record's type, or nothing.
fn first_field(words: &str) -> &str {
    word_of(words.strip_prefix("$ [ ").unwrap_or(""))
}

/// The only field of a record's type that tells no type of it.
pub(crate) fn lone_field(words: &str) -> Option<&str> {
    let field = words.strip_prefix("$ [ ")?.strip_suffix(" ]")?;
    if field.contains(' ') {
        None
    } else {
        Some(field)
    }
}

/// Whether a field is that of a part, as of a pair.
fn is_part(field: &str) -> bool {
    field.starts_with(|c: char| c.is_ascii_digit())
}

/// A pattern that names too few fields.
fn leaves_out(alloc: Global, field: &str) -> Result<String, AllocError> {
    if is_part(field) {
        return said(
            alloc,
            &["this pattern has fewer parts than what it takes apart"],
        );
    }
    said(
        alloc,
        &[
            "this pattern leaves out the field ",
            field,
            ": name it, or write , ... behind the last one",
        ],
    )
}

/// A pattern that names a field which isn't there, where this type is left of what it takes apart.
fn not_there(alloc: Global, field: &str, left: &str) -> Result<String, AllocError> {
    if is_part(field) && left == "$ [ ]" {
        return said(
            alloc,
            &["this pattern has more parts than what it takes apart"],
        );
    }
    said(alloc, &["what is taken apart here has no field ", field])
}

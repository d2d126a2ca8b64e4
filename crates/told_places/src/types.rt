//! The sentences on types that differ.
use crate::hints::{hint, is_shown};
use crate::patterns::{is_record_pattern, lone_field, of_pattern};
use crate::scan::{Form, innermost};
use crate::spot::{Spot, said, tag_of, word_of};
use crate::units::{Use, use_of, with_units};
use std::alloc::{AllocError, Global};

/// What is told of two types that differ. The words are `wanted TYPE found TYPE`.
pub(crate) fn mismatch(alloc: Global, words: &str, spot: &Spot<'_>) -> Result<String, AllocError> {
    let (wanted, found) = sides_of(words);
    let operator = operator_of(spot.rest);
    if !operator.is_empty() && (wanted == "bool" || found == "bool") {
        let other = if found == "bool" { wanted } else { found };
        return no_bool(alloc, operator, other);
    }
    if !tag_of(spot.rest).is_empty()
        && !where_of(wanted).is_empty()
        && !where_of(found).is_empty()
    {
        return other_place(alloc, tag_of(spot.rest), where_of(wanted), where_of(found));
    }
    if wanted == "( )" {
        return nothing_held(alloc, found, spot);
    }
    match dropped_value(wanted, found, spot.rest) {
        Some(given) => dropped(alloc, given),
        None => of_values(alloc, wanted, found, spot),
    }
}

/// What is told of the types of two values.
fn of_values(
    alloc: Global,
    wanted: &str,
    found: &str,
    spot: &Spot<'_>,
) -> Result<String, AllocError> {
    match lone_field(wanted) {
        Some(field) if found.starts_with("$ [") => no_field(alloc, field, found),
        _ if is_shown(found) && is_unit_of_splice(alloc, wanted, spot)? => no_markup(alloc, found),
        _ if wanted == "string" && found.starts_with("xml ") && is_splice(alloc, spot.before)? => {
            said(
                alloc,
                &["a title holds texts and {[..]} alone, but this is markup"],
            )
        }
        _ => match of_pattern(alloc, wanted, found, spot)? {
            Some(sentence) => Ok(sentence),
            None => differ(alloc, wanted, found, spot),
        },
    }
}

/// What is told of two kinds that differ.
pub(crate) fn kind_mismatch(alloc: Global, words: &str) -> Result<String, AllocError> {
    let (wanted, found) = sides_of(words);
    if wanted.starts_with("( Type -> Type ) -> ") {
        return said(
            alloc,
            &[
                "this has the kind ",
                found,
                ", but ",
                wanted,
                " is wanted here: what a list or an option has stands behind it, as in list int",
            ],
        );
    }
    said(
        alloc,
        &[
            "this has the kind ",
            found,
            ", but ",
            wanted,
            " is wanted here",
        ],
    )
}

/// What is wanted, and what is found.
fn sides_of(words: &str) -> (&str, &str) {
    let words = words.strip_prefix("wanted ").unwrap_or(words);
    words.split_once(" found ").unwrap_or((words, "_"))
}

/// Two types that differ, and what is likely meant.
fn differ(alloc: Global, wanted: &str, found: &str, spot: &Spot<'_>) -> Result<String, AllocError> {
    let found_type = with_units(alloc, found)?;
    if wanted == "[ [ ] ~ [ ] ] => ( )" {
        return no_guard(alloc, found_type.as_str());
    }
    let wanted_type = with_units(alloc, wanted_type(wanted, spot))?;
    let hint = hint(wanted, found, spot);
    match found_shape(found, spot.rest) {
        "" => differing(
            alloc,
            subject(found, spot.rest),
            found_type.as_str(),
            wanted_type.as_str(),
            hint,
        ),
        shape => other_shape(alloc, shape, wanted_type.as_str(), hint),
    }
}

/// A `!` behind what takes none, which has this type.
fn no_guard(alloc: Global, found: &str) -> Result<String, AllocError> {
    said(
        alloc,
        &[
            "no ! may stand behind this, which has the type ",
            found,
            ": unequal is written <>, as in a <> b",
        ],
    )
}

/// What is of a shape, the wanted type, and what is likely meant.
fn other_shape(alloc: Global, shape: &str, wanted: &str, hint: &str) -> Result<String, AllocError> {
    said(
        alloc,
        &["this is ", shape, ", but ", wanted, " is wanted here", hint],
    )
}

/// What has a type, by its type and the text from it on.
fn subject(found: &str, rest: &str) -> &'static str {
    if found == "$ [ ]" && rest.starts_with("()") {
        "()"
    } else {
        "this"
    }
}

/// What has a type, this type, the wanted one, and what is likely meant.
fn differing(
    alloc: Global,
    subject: &str,
    found: &str,
    wanted: &str,
    hint: &str,
) -> Result<String, AllocError> {
    said(
        alloc,
        &[
            subject,
            " has the type ",
            found,
            ", but ",
            wanted,
            " is wanted here",
            hint,
        ],
    )
}

/// A type as it is told, where it stands for all of its shape; or nothing.
fn shape_of(words: &str) -> &'static str {
    match words {
        "( ) -> ( )" => "a function",
        "transaction ( )" => "an action",
        _ => "",
    }
}

/// A found type where it stands for all of its shape, or nothing. At a pattern that of the empty record does.
fn found_shape(found: &str, rest: &str) -> &'static str {
    if found == "$ [ ]" && is_record_pattern(rest) {
        "a record"
    } else {
        shape_of(found)
    }
}

/// A wanted type as it is told: that of the empty record stands for any record where the text uses one.
fn wanted_type<'a>(wanted: &'a str, spot: &Spot<'_>) -> &'a str {
    if wanted == "$ [ ]" {
        return wanted_record(spot);
    }
    match shape_of(wanted) {
        "" => wanted,
        shape => shape,
    }
}

/// The empty record's type as it is told where it is wanted.
fn wanted_record(spot: &Spot<'_>) -> &'static str {
    match use_of(spot) {
        Use::Record => "a record",
        Use::Unit => "unit",
        Use::Either => "unit or a record",
    }
}

/// Whether unit is wanted of what stands alone in a splice, which no text of a program asks for: a title's splice does.
fn is_unit_of_splice(alloc: Global, wanted: &str, spot: &Spot<'_>) -> Result<bool, AllocError> {
    if wanted != "$ [ ]" || use_of(spot) == Use::Record {
        return Ok(false);
    }
    is_splice(alloc, spot.before)
}

/// Whether a text ends with the brace that begins a splice between tags.
fn is_splice(alloc: Global, before: &str) -> Result<bool, AllocError> {
    match before.trim_end().strip_suffix('{') {
        Some(front) => Ok(innermost(alloc, front)?.form == Form::Element),
        None => Ok(false),
    }
}

/// A value where markup is put in.
fn no_markup(alloc: Global, found: &str) -> Result<String, AllocError> {
    said(
        alloc,
        &[
            "this has the type ",
            found,
            ", but {..} puts markup in: {[..]} shows a value",
        ],
    )
}

/// What stands in an element that holds nothing.
fn nothing_held(alloc: Global, found: &str, spot: &Spot<'_>) -> Result<String, AllocError> {
    let mut open = innermost(alloc, spot.before)?;
    if open.form == Form::Curly {
        open = innermost(alloc, spot.before.get(..open.from).unwrap_or(""))?;
    }
    match tag_of(spot.before.get(open.from..).unwrap_or("")) {
        "" => differ(alloc, "( )", found, spot),
        "submit" => said(
            alloc,
            &[
                "the element submit holds nothing: it ends with />, and shows its value, as in value=\"Send\"",
            ],
        ),
        name => said(
            alloc,
            &["the element ", name, " holds nothing: it ends with />"],
        ),
    }
}

/// The type of what the action before a `;` gives, where it isn't unit.
fn dropped_value<'a>(wanted: &'a str, found: &str, rest: &str) -> Option<&'a str> {
    let next = found.strip_prefix("$ [ ] -> ")?;
    let given = wanted.strip_suffix(next)?.strip_suffix(" -> ")?;
    if rest.starts_with(';') {
        Some(given)
    } else {
        None
    }
}

/// An action before a `;` that gives something else than unit.
fn dropped(alloc: Global, given: &str) -> Result<String, AllocError> {
    let given = with_units(alloc, given)?;
    said(
        alloc,
        &[
            "the action before this ; gives a value of the type ",
            given.as_str(),
            ", which nothing takes: write _ <- before it",
        ],
    )
}

/// The word or sign with which a text begins, where it has bools beside it.
fn operator_of(rest: &str) -> &'static str {
    if rest.starts_with("&&") {
        "&&"
    } else if rest.starts_with("||") {
        "||"
    } else if word_of(rest) == "then" {
        "then"
    } else {
        ""
    }
}

/// A condition that is no bool.
fn no_bool(alloc: Global, operator: &str, other: &str) -> Result<String, AllocError> {
    if operator == "then" {
        return said(
            alloc,
            &[
                "before this then a bool is wanted, but the condition has the type ",
                other,
            ],
        );
    }
    said(
        alloc,
        &[
            "both sides of ",
            operator,
            " have to be bools, but here one has the type ",
            other,
        ],
    )
}

/// Where elements of a context stand.
fn where_of(context: &str) -> &'static str {
    match context {
        "[ Html ]" => "outside of head and body",
        "[ Head ]" => "in a head",
        "[ Body ]" => "in a body",
        "[ Table ]" => "in a table",
        "[ Tr ]" => "in a tr",
        "[ Body , Form ]" => "in a form",
        "[ Form , Table ]" => "in a table of a form",
        "[ Form , Tr ]" => "in a tr of a form",
        _ => "",
    }
}

/// An element that may not stand in this place.
fn other_place(alloc: Global, name: &str, own: &str, here: &str) -> Result<String, AllocError> {
    if name == "form" && here == "in a form" {
        return said(alloc, &["no form stands in another form"]);
    }
    said(
        alloc,
        &[
            "the element ",
            name,
            " stands ",
            own_place(name, own),
            ", but this place is ",
            here,
        ],
    )
}

/// Where an element stands, by its name and by where elements of its context do.
fn own_place<'a>(name: &str, own: &'a str) -> &'a str {
    match name {
        "head" => "beside body",
        "body" => "beside head",
        _ => own,
    }
}

/// A record without a field.
fn no_field(alloc: Global, field: &str, found: &str) -> Result<String, AllocError> {
    said(
        alloc,
        &["this record has no field ", field, ": its type is ", found],
    )
}

//! The sentences on names that aren't bound.
use crate::scan::{Form, Open, innermost};
use crate::spot::{Spot, begins_with_capital, behind_word, last_word, said, tag_of};
use std::alloc::{AllocError, Global};

/// What is told of a name that nothing has.
pub(crate) fn unbound(alloc: Global, name: &str, spot: &Spot<'_>) -> Result<String, AllocError> {
    if tag_of(spot.rest) == name {
        return said(alloc, &["there is no element ", name]);
    }
    let open = innermost(alloc, spot.before)?;
    if open.form == Form::Tag {
        return attribute(alloc, name, spot.before, open);
    }
    not_bound(alloc, name, remedy(name, spot, open.form))
}

/// A name that nothing has, and what is likely to be done.
fn not_bound(alloc: Global, name: &str, remedy: &str) -> Result<String, AllocError> {
    said(alloc, &["nothing here is called ", name, remedy])
}

/// An attribute that the element of an open tag doesn't have.
fn attribute(alloc: Global, name: &str, before: &str, open: Open) -> Result<String, AllocError> {
    no_attribute(alloc, tag_of(before.get(open.from..).unwrap_or("")), name)
}

/// An attribute that an element doesn't have.
fn no_attribute(alloc: Global, element: &str, name: &str) -> Result<String, AllocError> {
    said(
        alloc,
        &["the element ", element, " has no attribute ", name],
    )
}

/// What is likely to be done.
fn remedy(name: &str, spot: &Spot<'_>, form: Form) -> &'static str {
    match name {
        "true" => ": write True, with a capital",
        "false" => ": write False, with a capital",
        "null" | "nil" => ": None is the option without a value, and [] the empty list",
        _ if name.contains('.') =>
            ": a module stands behind those that it uses in the project file, and there is no library",
        _ if is_field(spot, form) => ": fields begin with a capital letter",
        _ if is_field_behind_semicolon(name, spot, form) =>
            ": between two fields stands a comma, and no ;",
        _ if is_rest_of_list(spot.before) => ": between an item and its list stands ::",
        _ if is_parameter(name, spot) => ": the name of a parameter begins with a small letter",
        _ => ": declare it before, or check how it is written",
    }
}

/// Whether a field stands at a place.
fn is_field(spot: &Spot<'_>, form: Form) -> bool {
    if spot.before.ends_with('.') {
        return true;
    }
    let before = spot.before.trim_end();
    let behind = behind_word(spot.rest);
    form == Form::Curly
        && (before.ends_with('{') || before.ends_with(','))
        && (behind.starts_with('=') || behind.starts_with(':'))
}

/// Whether a field with its value stands behind a `;`.
fn is_field_behind_semicolon(name: &str, spot: &Spot<'_>, form: Form) -> bool {
    form == Form::Curly
        && begins_with_capital(name)
        && spot.before.trim_end().ends_with(';')
        && behind_word(spot.rest).starts_with('=')
}

/// Whether a text ends with a `:` in a pattern in brackets, as one that is meant as `::`.
fn is_rest_of_list(before: &str) -> bool {
    match before.trim_end().rsplit_once('(') {
        Some((front, item)) => item.ends_with(':')
            && !item.ends_with("::")
            && (front.trim_end().ends_with('|') || last_word(front.trim_end()) == "of"),
        None => false,
    }
}

/// Whether a name with a capital letter stands as a parameter does, with a type behind it.
fn is_parameter(name: &str, spot: &Spot<'_>) -> bool {
    let behind = behind_word(spot.rest);
    begins_with_capital(name)
        && spot.before.trim_end().ends_with('(')
        && behind.starts_with(':')
        && !behind.starts_with("::")
}

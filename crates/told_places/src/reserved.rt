//! The sentences on names that can't be names where they stand.
use crate::scan::Form;
use crate::spot::{
    Spot, begins_with_capital, begins_with_small, behind_word, in_datatype, is_declaration_word,
    is_word_part, last_line, last_word, said, word_of,
};
use std::alloc::{AllocError, Global};

/// What is told where a name stands that can't be one at this place, if it is so.
pub(crate) fn no_name(
    alloc: Global,
    spot: &Spot<'_>,
    form: Form,
) -> Result<Option<String>, AllocError> {
    let word = word_of(spot.rest);
    let declared = declarator(spot.before);
    if is_reserved(word) && (!declared.is_empty() || is_name_place(spot, form)) {
        return Ok(Some(reserved(alloc, word)?));
    }
    if begins_with_capital(word) && !declared.is_empty() {
        return Ok(Some(capital(alloc, declared, word)?));
    }
    if begins_with_small(word) && !is_reserved(word) && awaits_constructor(spot.before) {
        return Ok(Some(small(alloc, "a constructor", word)?));
    }
    if begins_with_small(word) && spot.before.ends_with('#') {
        return Ok(Some(small(alloc, "a field", word)?));
    }
    let named = capital_type(spot.before);
    if named.is_empty() || form == Form::Element || form == Form::Tag {
        return Ok(None);
    }
    Ok(Some(no_type(alloc, named)?))
}

/// A reserved word.
fn reserved(alloc: Global, word: &str) -> Result<String, AllocError> {
    said(
        alloc,
        &[word, " is a reserved word, so it can't be a name here"],
    )
}

/// A name with a capital letter behind a word that declares others.
fn capital(alloc: Global, declared: &str, name: &str) -> Result<String, AllocError> {
    said(
        alloc,
        &[
            "the name behind ",
            declared,
            " begins with a small letter, not with a capital as ",
            name,
        ],
    )
}

/// The name of something with a small letter.
fn small(alloc: Global, named: &str, name: &str) -> Result<String, AllocError> {
    said(
        alloc,
        &[
            "the name of ",
            named,
            " begins with a capital letter, not with a small one as ",
            name,
        ],
    )
}

/// The name of a type with a capital letter.
fn no_type(alloc: Global, name: &str) -> Result<String, AllocError> {
    said(
        alloc,
        &[
            "the name of a type begins with a small letter, not with a capital as ",
            name,
        ],
    )
}

/// The word right before a place, in its line, behind which a name is declared; or nothing.
fn declarator(before: &str) -> &str {
    let word = last_word(last_line(before).trim_end());
    if is_declaration_word(word) || word == "rec" || word == "and" || word == "fn" {
        word
    } else {
        ""
    }
}

/// The name with a capital letter with which a text ends where a type stands, or nothing.
fn capital_type(before: &str) -> &str {
    let text = before.trim_end();
    let name = last_word(text);
    if begins_with_capital(name) && awaits_type(text.strip_suffix(name).unwrap_or("")) {
        name
    } else {
        ""
    }
}

/// Whether a type has to follow where a text ends.
fn awaits_type(before: &str) -> bool {
    let front = before_type_of_items(before.trim_end());
    let first = word_of(last_line(front));
    front.ends_with("->")
        || front.ends_with(':') && !front.ends_with("::")
        || front.ends_with('=') && (first == "type" || first == "con")
}

/// A text without the name of a type at its end that has another type behind it.
fn before_type_of_items(text: &str) -> &str {
    match last_word(text) {
        "list" | "option" | "transaction" => text
            .trim_end_matches(|c: char| is_word_part(c))
            .trim_end(),
        _ => text,
    }
}

/// Whether the signs beside a word show that it is meant as a name.
fn is_name_place(spot: &Spot<'_>, form: Form) -> bool {
    let before = spot.before.trim_end();
    let behind = behind_word(spot.rest);
    spot.before.ends_with('.')
        || spot.before.ends_with('#')
        || behind.starts_with("<-")
        || behind.starts_with("=>")
        || behind.starts_with(':') && !behind.starts_with("::")
        || opens_name(before) && closes_name(behind)
        || form == Form::Head && is_parameter(spot)
}

/// Whether a name may stand behind the sign with which a text ends.
fn opens_name(before: &str) -> bool {
    before.ends_with('(') || before.ends_with('[') || before.ends_with('{') || before.ends_with(',')
}

/// Whether a name may stand before the sign with which a text begins.
fn closes_name(behind: &str) -> bool {
    behind.starts_with(')')
        || behind.starts_with(']')
        || behind.starts_with('}')
        || behind.starts_with(',')
        || behind.starts_with('=')
}

/// Whether a word in the head of a declaration stands as a parameter may, in the same line.
fn is_parameter(spot: &Spot<'_>) -> bool {
    if last_line(spot.before).trim_start().is_empty() {
        return false;
    }
    match word_of(spot.rest) {
        "and"
        | "case"
        | "else"
        | "end"
        | "fn"
        | "fun"
        | "if"
        | "in"
        | "let"
        | "of"
        | "then"
        | "val" => false,
        _ => true,
    }
}

/// Whether a text ends where a constructor of a datatype has to follow.
fn awaits_constructor(before: &str) -> bool {
    let front = before.trim_end();
    in_datatype(before) && (front.ends_with('=') || front.ends_with('|'))
}

/// Whether a word is reserved.
fn is_reserved(word: &str) -> bool {
    match word {
        "and"
        | "case"
        | "con"
        | "cookie"
        | "datatype"
        | "else"
        | "end"
        | "fn"
        | "fun"
        | "functor"
        | "if"
        | "in" => true,
        "let"
        | "of"
        | "open"
        | "rec"
        | "sequence"
        | "sig"
        | "signature"
        | "struct"
        | "structure"
        | "table" => true,
        "then" | "type" | "val" | "where" => true,
        _ => is_reserved_in_queries(word),
    }
}

/// Whether a word is one of SQL.
fn is_reserved_in_queries(word: &str) -> bool {
    match word {
        "AND"
        | "AS"
        | "ASC"
        | "BY"
        | "CONSTRAINT"
        | "DELETE"
        | "DESC"
        | "FALSE"
        | "FROM"
        | "INSERT"
        | "INTO" => true,
        "IS"
        | "JOIN"
        | "KEY"
        | "LEFT"
        | "LIMIT"
        | "NOT"
        | "NULL"
        | "OFFSET"
        | "ON"
        | "OR"
        | "ORDER" => true,
        "PRIMARY" | "SELECT" | "SET" | "TRUE" | "UNIQUE" | "UPDATE" | "VALUES" | "WHERE" => true,
        _ => false,
    }
}

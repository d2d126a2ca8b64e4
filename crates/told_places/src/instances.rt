//! The sentences on operations that no value in scope tells how to do.
use crate::spot::{Spot, declaration_of, is_word_part, said, word_of};
use std::alloc::{AllocError, Global};

/// The operators on values with instances but `+`, the longer ones first.
const OPERATORS: [&str; 10] = ["<>", "<=", ">=", "=", "<", ">", "-", "*", "/", "%"];

/// What is told where no value says how something is done with values of a type, by what stands at its place.
pub(crate) fn instance_sentence(alloc: Global, spot: &Spot<'_>) -> Result<String, AllocError> {
    let shown = of_show(spot.rest);
    if !shown.is_empty() {
        return said(alloc, &[shown]);
    }
    if spot.rest.starts_with('-') {
        return of_operator(alloc, "-");
    }
    let behind = behind_operand(spot.rest);
    if behind.starts_with('+') {
        return said(alloc, &[of_plus(spot.rest)]);
    }
    if is_negative(spot.rest, behind) {
        return said(
            alloc,
            &["- reckons with numbers, and a negative argument stands in brackets, as in f (-1)"],
        );
    }
    of_operator(alloc, operator_of(behind))
}

/// Where a value is to be shown, or nothing.
fn of_show(rest: &str) -> &'static str {
    if rest.starts_with("{[<xml") {
        "{[..]} shows a value: markup is put in by {..}"
    } else if rest.starts_with("{[") {
        "no value here says how to show this type: is a mkShow or an argument missing, or is it markup, as in {..}?"
    } else if word_of(rest) == "show" {
        "no value in scope says how to show this type, as for int, string and bool: mkShow makes one"
    } else {
        ""
    }
}

/// Where a sum stands.
fn of_plus(rest: &str) -> &'static str {
    if rest.starts_with('"') {
        "+ adds numbers: texts are joined by ^"
    } else {
        "no value in scope says how this type is added: are these texts? They are joined by ^"
    }
}

/// Where an operator stands, or none that is known.
fn of_operator(alloc: Global, operator: &str) -> Result<String, AllocError> {
    match operator {
        "=" | "<>" => said(
            alloc,
            &[
                "no value in scope says how ",
                operator,
                " compares this type, as int, string and bool are compared: mkEq makes one",
            ],
        ),
        "<" | "<=" | ">" | ">=" => said(
            alloc,
            &[
                "no value in scope says how ",
                operator,
                " puts this type in order, as it does int, string and bool",
            ],
        ),
        "-" | "*" | "/" | "%" => said(
            alloc,
            &[
                "no value in scope says how ",
                operator,
                " reckons with this type, as it does with int",
            ],
        ),
        _ => said(
            alloc,
            &["no value in scope says how this is done with values of this type"],
        ),
    }
}

/// The operator on values with instances with which a text begins, or nothing.
fn operator_of(text: &str) -> &'static str {
    for operator in OPERATORS.iter() {
        if text.starts_with(*operator) {
            return *operator;
        }
    }
    ""
}

/// Whether a text goes on with a `-` that has a blank before it, and none behind it.
fn is_negative(rest: &str, behind: &str) -> bool {
    let front = rest.strip_suffix(behind).unwrap_or("");
    front.ends_with(|c: char| c.is_whitespace())
        && behind.starts_with('-')
        && !behind.starts_with("- ")
}

/// What stands behind the names, numbers, strings and brackets with which a text begins, in the same declaration.
fn behind_operand(rest: &str) -> &str {
    let mut depth = 0_usize;
    let mut in_string = false;
    let mut last = ' ';
    for (at, character) in declaration_of(rest).char_indices() {
        let here = rest.get(at..).unwrap_or("");
        if in_string || character == '"' {
            in_string = in_string != (character == '"');
        } else if opens(character) {
            depth = depth.saturating_add(1);
        } else if closes(character) {
            if depth == 0 {
                return "";
            }
            depth -= 1;
        } else if depth == 0 && (!is_of_operand(character) || ends_term(last, here)) {
            return here;
        }
        last = character;
    }
    ""
}

/// Whether a word with which a term is at its end begins here, behind this character.
fn ends_term(last: char, here: &str) -> bool {
    if is_word_part(last) {
        return false;
    }
    match word_of(here) {
        "val" | "fun" | "and" | "then" | "else" | "of" | "in" | "end" => true,
        _ => false,
    }
}

/// Whether a character opens a bracket.
fn opens(character: char) -> bool {
    character == '(' || character == '[' || character == '{'
}

/// Whether a character closes a bracket.
fn closes(character: char) -> bool {
    character == ')' || character == ']' || character == '}'
}

/// Whether a character may stand in an operand, outside of brackets and strings.
fn is_of_operand(character: char) -> bool {
    is_word_part(character)
        || character.is_whitespace()
        || character == '.'
        || character == '#'
        || character == '\''
}

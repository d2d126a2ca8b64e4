//! What is likely meant where two types differ.
use crate::actions::{begins_action, ends_operand};
use crate::spot::{Spot, is_declaration_word, is_word_part, word_of};
use crate::units::{Use, behind_atom, is_projected, use_of};

/// What is likely meant, behind a colon, or nothing.
pub(crate) fn hint(wanted: &str, found: &str, spot: &Spot<'_>) -> &'static str {
    if takes_type(found) && !takes_type(wanted) {
        return ": it takes a type first, which stands behind it as [int], or as [_] where the rest tells it";
    }
    match wanted {
        "( ) -> ( )" => hint_of_call(found, spot),
        "$ [ ]" => hint_of_record(found, spot),
        "url" if found == "string" => ": bless makes a url of a string",
        "string" if found == "int" || found == "bool" => ": show makes a string of a value",
        _ if is_of_form(wanted) && found.starts_with("xml ") && !is_of_form(found) =>
            ": what stands in a form takes any r, as in fun part [r ::: {Type}] () : xml [Body, Form] r []",
        _ if is_several(wanted, found, spot) => ": arguments stand one behind another, as in f 1 2",
        _ => hint_of_action(wanted, found, spot.rest),
    }
}

/// Whether a type is that of markup within a form.
fn is_of_form(words: &str) -> bool {
    words.starts_with("xml [ Body , Form ]") || words.starts_with("xml [ Form , ")
}

/// Whether several arguments may be meant by a pair, or a longer tuple, that stands behind a function.
fn is_several(wanted: &str, found: &str, spot: &Spot<'_>) -> bool {
    found.starts_with("$ [ 1 = ")
        && !wanted.starts_with('$')
        && spot.rest.starts_with('(')
        && ends_operand(spot.before)
}

/// Whether a type is that of functions that take a type first, which each call names.
fn takes_type(words: &str) -> bool {
    match words.split_once(" :: ") {
        Some((name, _)) => !name.is_empty() && word_of(name).len() == name.len(),
        None => false,
    }
}

/// Where something that is no function is given an argument.
fn hint_of_call(found: &str, spot: &Spot<'_>) -> &'static str {
    let written = hint_of_word(found, spot);
    if !written.is_empty() {
        return written;
    }
    match spot.rest.split_once('\n') {
        Some((line, next))
            if found.starts_with("transaction ") && ends_operand(line) && begins_action(next) =>
            ": is a ; missing at the end of the line, or an argument too many?",
        Some((_, next)) if begins_unread(next) => ": does the next line lack its fun or val?",
        _ => ": is an argument too many, or a comma missing?",
    }
}

/// Where a number or an operator is written as in another language, or nothing.
fn hint_of_word(found: &str, spot: &Spot<'_>) -> &'static str {
    if is_number_with_letters(spot.rest) {
        return ": a number is made of digits alone";
    }
    let behind = hint_of_operator(found, word_of(behind_atom(spot.rest).trim_start()));
    if behind.is_empty() && spot.before.ends_with('(') {
        return hint_of_operator(found, word_of(behind_bracket(spot.rest).trim_start()));
    }
    behind
}

/// Whether a text begins with a number, and a letter or a `_` right behind it.
fn is_number_with_letters(rest: &str) -> bool {
    let behind = rest.trim_start_matches(|c: char| c.is_ascii_digit());
    begins_with_digit(rest) && behind.starts_with(|c: char| is_word_part(c))
}

/// What stands behind the bracket that closes first in a text.
fn behind_bracket(rest: &str) -> &str {
    match rest.split_once(')') {
        Some((_, behind)) => behind,
        None => "",
    }
}

/// A word that stands for an operator on values of a type, or nothing.
fn hint_of_operator(found: &str, word: &str) -> &'static str {
    match word {
        "or" => ": two conditions are joined by ||",
        "mod" if found == "int" => ": the rest of a division is written %, as in a % b",
        "div" if found == "int" => ": a division is written /, as in a / b",
        _ => "",
    }
}

/// Whether a line begins with a name that is no word of declarations.
fn begins_unread(line: &str) -> bool {
    let word = word_of(line);
    !word.is_empty() && word != "and" && !is_declaration_word(word)
}

/// Where unit or a record is wanted.
fn hint_of_record(found: &str, spot: &Spot<'_>) -> &'static str {
    match use_of(spot) {
        Use::Unit => ": its one value is ()",
        Use::Record if found == "string" && !is_projected(spot) =>
            ": texts are joined by ^, and ++ joins records",
        Use::Record if found == "int" && is_fraction(spot.rest) => ": no number has a fraction",
        _ => "",
    }
}

/// Whether a text begins with a number, and a point with another one behind it.
fn is_fraction(rest: &str) -> bool {
    match rest
        .trim_start_matches(|c: char| c.is_ascii_digit())
        .strip_prefix('.')
    {
        Some(behind) => begins_with_digit(rest) && begins_with_digit(behind),
        None => false,
    }
}

/// Whether a text begins with a digit.
fn begins_with_digit(text: &str) -> bool {
    text.starts_with(|c: char| c.is_ascii_digit())
}

/// Where an action stands for what it gives, or the other way round, and what is likely meant beside it.
fn hint_of_action(wanted: &str, found: &str, rest: &str) -> &'static str {
    if is_action_of(wanted, found) {
        ": write return before it"
    } else if is_action_of(found, wanted) && word_of(rest) == "return" {
        ": write transaction before the type that is wanted, or take return away"
    } else if is_action_of(found, wanted) {
        ": bind what the action gives before, as in x <- e;"
    } else if wanted.starts_with("xml ") && is_shown(found) {
        ": {[..]} shows a value"
    } else if gives(found, wanted) {
        ": is an argument missing?"
    } else {
        ""
    }
}

/// Whether a type is that of actions that give the other one.
fn is_action_of(action: &str, given: &str) -> bool {
    match action.strip_prefix("transaction ") {
        Some(inner) => without_brackets(inner) == without_brackets(given),
        None => false,
    }
}

/// A type without the brackets around it.
fn without_brackets(words: &str) -> &str {
    match words.strip_prefix("( ") {
        Some(inner) => inner.strip_suffix(" )").unwrap_or(words),
        None => words,
    }
}

/// Whether every value of this type can be shown.
pub(crate) fn is_shown(words: &str) -> bool {
    words == "int" || words == "string" || words == "bool"
}

/// Whether a type is that of functions that give the other one in the end.
fn gives(function: &str, given: &str) -> bool {
    match function.strip_suffix(given) {
        Some(arguments) => arguments.ends_with("-> "),
        None => false,
    }
}

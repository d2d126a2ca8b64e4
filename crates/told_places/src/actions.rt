//! The sentences on actions that no `;` stands between.
use crate::scan::Form;
use crate::spot::{Spot, is_declaration_word, is_word_part, last_line, last_word, word_of};

/// What is told where a `;` is likely to be missing, or nothing. `text` is that of the innermost open form.
pub(crate) fn of_actions(spot: &Spot<'_>, form: Form, text: &str) -> &'static str {
    if !holds_actions(form) {
        ""
    } else if spot.rest.starts_with("<-") {
        of_arrow(before_pattern(spot.before).trim_end())
    } else if is_indented(spot.before)
        && begins_no_argument(word_of(spot.rest))
        && ends_operand(spot.before)
    {
        "no argument begins like this: is a ; missing at the end of the line before, or the ( ) around this?"
    } else if is_end(spot) && lacks_semicolon(text) {
        "behind x <- a stand a ; and the next action: is a ; missing at the end of a line?"
    } else {
        ""
    }
}

/// Whether actions may stand in a form.
fn holds_actions(form: Form) -> bool {
    match form {
        Form::Module | Form::Round | Form::Curly | Form::LetIn | Form::IfThen => true,
        _ => false,
    }
}

/// Whether a place is the first in its line, behind blanks.
fn is_indented(before: &str) -> bool {
    let line = last_line(before);
    !line.is_empty() && line.trim_start().is_empty()
}

/// What stands before the pattern with which a text ends.
fn before_pattern(text: &str) -> &str {
    let front = text.trim_end();
    if front.ends_with(')') {
        before_last(front, '(')
    } else if front.ends_with('}') {
        before_last(front, '{')
    } else {
        front.trim_end_matches(|c: char| is_word_part(c))
    }
}

/// A text up to the last of a sign.
fn before_last(text: &str, sign: char) -> &str {
    match text.rsplit_once(sign) {
        Some((front, _)) => front,
        None => "",
    }
}

/// A `<-` that may not stand here, by what stands before its pattern.
fn of_arrow(front: &str) -> &'static str {
    if last_word(front) == "else" {
        "behind else stands one action: put this one and those behind it into ( )"
    } else if ends_operand(front) {
        "an action with <- begins here: is a ; missing before it?"
    } else {
        ""
    }
}

/// Whether an expression may be at its end where a text ends, so that what follows is an argument.
pub(crate) fn ends_operand(text: &str) -> bool {
    let front = text.trim_end();
    if front.ends_with(|c: char| is_word_part(c)) {
        return !is_middle(last_word(front));
    }
    front.ends_with(')')
        || front.ends_with(']')
        || front.ends_with('}')
        || front.ends_with('"')
        || front.ends_with("xml>")
        || front.ends_with("<xml/>")
}

/// Whether something has to follow a word.
fn is_middle(word: &str) -> bool {
    match word {
        "then" | "else" | "of" | "in" | "let" | "if" | "case" | "fn" | "and" | "rec" => true,
        _ => is_declaration_word(word),
    }
}

/// Whether a word begins an expression that no function takes without brackets.
fn begins_no_argument(word: &str) -> bool {
    word == "if" || word == "case" || word == "let" || word == "fn"
}

/// Whether what is open ends at a place. A word that begins a declaration does so where it begins a line.
fn is_end(spot: &Spot<'_>) -> bool {
    let word = word_of(spot.rest);
    spot.rest.is_empty()
        || spot.rest.starts_with(')')
        || spot.rest.starts_with('|')
        || word == "end"
        || word == "else"
        || is_declaration_word(word) && last_line(spot.before).trim_start().is_empty()
}

/// Whether no `;` stands behind the last `<-` of a text.
fn lacks_semicolon(text: &str) -> bool {
    match text.rsplit_once("<-") {
        Some((_, behind)) => !behind.contains(';'),
        None => false,
    }
}

/// Whether a text begins with a `return` whose line ends without a `;`, and goes on with what may be its own action.
pub(crate) fn is_return_unfinished(rest: &str) -> bool {
    match rest.split_once('\n') {
        Some((line, next)) => word_of(rest) == "return"
            && ends_operand(line)
            && begins_action(next),
        None => false,
    }
}

/// Whether a line is indented and begins as an action does.
pub(crate) fn begins_action(line: &str) -> bool {
    let word = word_of(line.trim_start());
    line.starts_with(|c: char| c == ' ' || c == '\t')
        && !word.is_empty()
        && !is_middle(word)
        && word != "end"
}

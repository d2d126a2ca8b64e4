//! What is open at a place of a module: a small reading of the text before it, which every module could begin with.
use crate::spot::{is_word_part, word_of};
use std::alloc::{AllocError, Global};

/// What can be open.
#[derive(Clone, Copy, Debug, PartialEq, Eq)]
pub(crate) enum Form {
    /// Nothing but the module.
    Module,
    /// A declaration up to its `=`.
    Head,
    Round,
    Square,
    Curly,
    /// A `let` up to its `in`.
    Let,
    /// A `let` from its `in` to its `end`.
    LetIn,
    /// An `if` up to its `then`.
    If,
    /// An `if` from its `then` to its `else`.
    IfThen,
    /// A `case` up to its `of`.
    Case,
    /// A tag up to its `>`.
    Tag,
    /// An element from the `>` of its tag on.
    Element,
    /// A string.
    Text,
    Comment,
}

/// What is open, and the byte with which it begins.
#[derive(Clone, Copy, Debug, PartialEq, Eq)]
pub(crate) struct Open {
    pub form: Form,
    pub from: usize,
}

/// The innermost of what is open at the end of a text.
pub(crate) fn innermost(alloc: Global, text: &str) -> Result<Open, AllocError> {
    let mut forms = Vec::new(alloc);
    let mut last = ' ';
    for (at, character) in text.char_indices() {
        let rest = text.get(at..).unwrap_or("");
        last = step(&mut forms, last, character, rest, at)?;
    }
    Ok(top(&forms))
}

/// The innermost of these forms.
fn top(forms: &Vec<Open>) -> Open {
    match forms.last() {
        Some(open) => *open,
        None => Open {
            form: Form::Module,
            from: 0,
        },
    }
}

/// Opens a form.
fn enter(forms: &mut Vec<Open>, form: Form, from: usize) -> Result<(), AllocError> {
    forms.push(Open { form, from })?;
    Ok(())
}

/// Closes a form, if it is the innermost one.
fn close(forms: &mut Vec<Open>, form: Form) {
    if top(forms).form == form {
        forms.pop();
    }
}

/// Goes from one part of a form to the next, if it is the innermost one.
fn turn(forms: &mut Vec<Open>, form: Form, next: Form) -> Result<(), AllocError> {
    let innermost = top(forms);
    if innermost.form != form {
        return Ok(());
    }
    forms.pop();
    enter(forms, next, innermost.from)
}

/// Reads a character, where `rest` begins with it; gives what counts as the last character behind it.
fn step(
    forms: &mut Vec<Open>,
    last: char,
    character: char,
    rest: &str,
    at: usize,
) -> Result<char, AllocError> {
    let form = top(forms).form;
    if form == Form::Text {
        return Ok(in_string(forms, last, character));
    }
    if form == Form::Comment {
        return in_comment(forms, last, character, at);
    }
    if last == '(' && character == '*' {
        close(forms, Form::Round);
        enter(forms, Form::Comment, at)?;
        return Ok(' ');
    }
    match form {
        Form::Element => in_element(forms, character, rest, at)?,
        Form::Tag => in_tag(forms, last, character, at)?,
        _ => in_code(forms, last, character, rest, at)?,
    }
    Ok(character)
}

/// Reads a character of a string.
fn in_string(forms: &mut Vec<Open>, last: char, character: char) -> char {
    if last == '\\' {
        return ' ';
    }
    if character == '"' {
        forms.pop();
        return ' ';
    }
    character
}

/// Reads a character of a comment.
fn in_comment(
    forms: &mut Vec<Open>,
    last: char,
    character: char,
    at: usize,
) -> Result<char, AllocError> {
    if last == '(' && character == '*' {
        enter(forms, Form::Comment, at)?;
        return Ok(' ');
    }
    if last == '*' && character == ')' {
        forms.pop();
        return Ok(' ');
    }
    Ok(character)
}

/// Reads a character between tags.
fn in_element(
    forms: &mut Vec<Open>,
    character: char,
    rest: &str,
    at: usize,
) -> Result<(), AllocError> {
    match character {
        '{' => enter(forms, Form::Curly, at),
        '<' if rest.starts_with("</") => {
            forms.pop();
            Ok(())
        }
        '<' => enter(forms, Form::Tag, at),
        _ => Ok(()),
    }
}

/// Reads a character of a tag.
fn in_tag(forms: &mut Vec<Open>, last: char, character: char, at: usize) -> Result<(), AllocError> {
    match character {
        '"' => enter(forms, Form::Text, at),
        '{' => enter(forms, Form::Curly, at),
        '>' if last == '/' => {
            forms.pop();
            Ok(())
        }
        '>' => turn(forms, Form::Tag, Form::Element),
        _ => Ok(()),
    }
}

/// Reads a character outside of markup.
fn in_code(
    forms: &mut Vec<Open>,
    last: char,
    character: char,
    rest: &str,
    at: usize,
) -> Result<(), AllocError> {
    if is_word_part(character) {
        if is_word_part(last) {
            return Ok(());
        }
        return at_word(forms, word_of(rest), at);
    }
    match character {
        '"' => enter(forms, Form::Text, at),
        '(' => enter(forms, Form::Round, at),
        '[' => enter(forms, Form::Square, at),
        '{' => enter(forms, Form::Curly, at),
        '<' if rest.starts_with("<xml>") => enter(forms, Form::Element, at),
        _ => {
            at_sign(forms, last, character, rest);
            Ok(())
        }
    }
}

/// Reads a sign that may close something.
fn at_sign(forms: &mut Vec<Open>, last: char, character: char, rest: &str) {
    match character {
        ')' => close(forms, Form::Round),
        ']' => close(forms, Form::Square),
        '}' => close(forms, Form::Curly),
        '=' if last != '<' && last != '>' && !rest.starts_with("=>") => close(forms, Form::Head),
        _ => {}
    }
}

/// Reads a word outside of markup.
fn at_word(forms: &mut Vec<Open>, word: &str, at: usize) -> Result<(), AllocError> {
    match word {
        "let" => enter(forms, Form::Let, at),
        "if" => enter(forms, Form::If, at),
        "case" => enter(forms, Form::Case, at),
        "in" => turn(forms, Form::Let, Form::LetIn),
        "then" => turn(forms, Form::If, Form::IfThen),
        "val" | "fun" | "and" | "type" | "con" | "datatype" => {
            close(forms, Form::Head);
            enter(forms, Form::Head, at)
        }
        _ => {
            at_last_word(forms, word);
            Ok(())
        }
    }
}

/// Reads a word that may close something.
fn at_last_word(forms: &mut Vec<Open>, word: &str) {
    match word {
        "end" => close(forms, Form::LetIn),
        "else" => close(forms, Form::IfThen),
        "of" => close(forms, Form::Case),
        "table" | "sequence" | "cookie" => close(forms, Form::Head),
        _ => {}
    }
}

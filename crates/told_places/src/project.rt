//! The sentences on the lines of a project file.
use crate::spot::{is_word_part, word_of};

/// A byte of a line, and what is told of it.
#[derive(Clone, Copy, Debug, PartialEq, Eq)]
pub(crate) struct Told {
    pub at: usize,
    pub sentence: &'static str,
}

/// What is told where the file can't be read once more.
pub(crate) const SENTENCE_OF_LINE: &str =
    "a project file may not have this line, or lacks one here: directives, an empty line, modules";

/// The byte with which a line begins, counted from 1, or the text's end.
pub(crate) fn start_of(text: &str, number: usize) -> usize {
    let mut line = 1_usize;
    if number <= line {
        return 0;
    }
    for (at, character) in text.char_indices() {
        if character == '\n' {
            line = line.saturating_add(1);
            if line == number {
                return at.saturating_add(1);
            }
        }
    }
    text.len()
}

/// What is told of a line of a project file, between the text before it and that from it on.
pub(crate) fn told_of_line(before: &str, rest: &str) -> Told {
    let line = rest.lines().next().unwrap_or("");
    if rest.is_empty() {
        at_start(of_end(before))
    } else if has_empty_line(before) {
        of_module(before, line)
    } else {
        of_directive(line)
    }
}

/// A sentence on a line's first byte.
fn at_start(sentence: &'static str) -> Told {
    Told { at: 0, sentence }
}

/// Whether one of these lines is empty.
fn has_empty_line(text: &str) -> bool {
    text.lines().any(|line| line.is_empty())
}

/// What has to follow behind the last line.
fn of_end(before: &str) -> &'static str {
    if has_empty_line(before) {
        "the names of the modules have to follow here, each in a line"
    } else {
        "an empty line has to follow here, and behind it the names of the modules, each in a line"
    }
}

/// A line behind the empty line that names no module which may stand there.
fn of_module(before: &str, line: &str) -> Told {
    let name = line.trim_end();
    if name.len() < line.len() {
        return Told {
            at: name.len(),
            sentence: "a blank stands at the end of this line: take it away",
        };
    }
    at_start(of_module_name(before, line))
}

/// A line behind the empty line, without a blank at its end.
fn of_module_name(before: &str, line: &str) -> &'static str {
    if line.trim_start().len() < line.len() {
        "a blank stands before this name: take it away"
    } else if line.contains(' ') && is_directive(word_of(line)) {
        "directives stand before the first empty line, and behind it the names of the modules alone"
    } else if line.ends_with(".ur") || line.ends_with(".urs") {
        "a module stands here without its ending: main for the file main.ur"
    } else if line.contains('/') {
        "a module stands here by its name alone: its file lies in the project's own folder"
    } else if line.starts_with(|c: char| c.is_ascii_uppercase()) {
        "a module's line and its file's name begin with a small letter: foo is the file foo.ur, and the module Foo"
    } else if !is_module_name(line) {
        "a module's name here is a small letter, and behind it letters, digits and _"
    } else if before.lines().any(|other| other == line) {
        "this module stands here for the second time"
    } else {
        "with this there are more than 1000 modules or 1000 tables, or an ffi has the module's name"
    }
}

/// Whether a line is a module's name.
fn is_module_name(line: &str) -> bool {
    line.starts_with(|c: char| c.is_ascii_lowercase()) && line.chars().all(|c| is_word_part(c))
}

/// Whether directives begin with a word.
fn is_directive(word: &str) -> bool {
    match word {
        "allow" | "deny" | "safeGet" | "ffi" | "effectful" => true,
        _ => is_setting(word),
    }
}

/// Whether a word is that of a setting.
fn is_setting(word: &str) -> bool {
    match word {
        "database" | "sql" | "exe" | "timeout" | "debug" => true,
        _ => false,
    }
}

/// A line before the empty line that is no directive which may stand there.
fn of_directive(line: &str) -> Told {
    let front = line.trim_end();
    if front.is_empty() {
        return at_start("blanks stand in this line: the line before the modules is empty");
    }
    if front.len() < line.len() && is_named(word_of(line)) {
        return Told {
            at: front.len(),
            sentence: "a blank stands at the end of this line: take it away",
        };
    }
    at_start(of_directive_words(line))
}

/// Whether a directive ends with a name.
fn is_named(word: &str) -> bool {
    word == "safeGet" || word == "ffi" || word == "effectful"
}

/// A line before the empty line, with some word in it.
fn of_directive_words(line: &str) -> &'static str {
    if line.starts_with('\u{feff}') {
        return "the file begins with a byte order mark: save it as UTF-8 without one";
    }
    if line.trim_start().len() < line.len() {
        return "a blank stands before this directive: take it away";
    }
    match word_of(line) {
        "allow" | "deny" =>
            "a rule is allow url ADDRESS or deny url ADDRESS, with one space between its words",
        "safeGet" => "safeGet names a function of a module, as in safeGet Main/list",
        "ffi" => "ffi names a foreign module, with a capital letter, as in ffi Mail",
        "effectful" =>
            "effectful names an effect of a module that an ffi before it names, as in effectful Mail.send",
        word if is_setting(word) => "a space stands behind this word, or nothing",
        _ if is_module_name(line) =>
            "this is no directive: an empty line stands before the names of the modules",
        _ =>
            "no directive begins so: they are allow, deny, safeGet, ffi, effectful, database, sql, exe, timeout, debug",
    }
}

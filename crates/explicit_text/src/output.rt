//! The text that grows, token by token.
use std::alloc::{AllocError, Global};

/// A text of tokens.
#[derive(Drop)]
pub struct Output {
    alloc: Global,
    text: String,
    /// Whether a token stands on the last line.
    begun: bool,
}

/// How strings write a character; nothing, where it stands for itself.
fn escaped(character: char) -> Option<&'static str> {
    match character {
        '"' => Some("\\\""),
        '\\' => Some("\\\\"),
        '\n' => Some("\\n"),
        '\r' => Some("\\r"),
        '\t' => Some("\\t"),
        _ => None,
    }
}

impl Output {
    /// A text without tokens.
    pub fn new(alloc: Global) -> Output {
        Output {
            alloc,
            text: String::new(alloc),
            begun: false,
        }
    }

    /// Prints a token, with a space before it where one stands before it on its line.
    pub fn word(&mut self, word: &str) -> Result<(), AllocError> {
        if self.begun {
            self.text.push(' ')?;
        }
        self.begun = true;
        self.text.push_str(word)
    }

    /// Goes on with the last token.
    pub fn more(&mut self, rest: &str) -> Result<(), AllocError> {
        self.text.push_str(rest)
    }

    /// Ends the line.
    pub fn end_line(&mut self) -> Result<(), AllocError> {
        self.begun = false;
        self.text.push('\n')
    }

    /// Prints a number.
    pub fn number(&mut self, number: u64) -> Result<(), AllocError> {
        let digits = number.to_string(self.alloc)?;
        self.word(digits.as_str())
    }

    /// Prints an integer, a negative one with its sign as a token of its own.
    pub fn integer(&mut self, number: i64) -> Result<(), AllocError> {
        if number < 0 {
            self.word("-")?;
        }
        self.number(number.unsigned_abs())
    }

    /// Goes on with a character of a string, written as strings write it.
    fn character(&mut self, character: char) -> Result<(), AllocError> {
        match escaped(character) {
            Some(text) => self.text.push_str(text),
            None => self.text.push(character),
        }
    }

    /// Prints a string.
    pub fn string(&mut self, text: &str) -> Result<(), AllocError> {
        self.word("\"")?;
        for character in text.chars() {
            self.character(character)?;
        }
        self.text.push('"')
    }

    /// The text that was printed.
    pub fn into_text(self) -> String {
        let Output { text, .. } = self;
        text
    }
}

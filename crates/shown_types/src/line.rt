//! A text of words that grows.
ghost use Rattle.std.specs.Prelude.{◌≡◌, [], ◌++◌, decimal, string_bytes, IfOk, OnOk};
ghost use Rattle.shown_types.specs.Words.{put_word, put_wanted};

use std::alloc::{AllocError, Global};
use std::marker::Model;

/// A text that words are put behind. Contracts see its bytes.
#[derive(Drop)]
pub struct Line {
    text: String,
}

impl Model for Line {
    ghost use Rattle.std.specs.Prelude.{ℕ, List, string_bytes};

    ghost Value = { List ℕ };

    ghost view = { λ line. string_bytes line.text };
}

impl Line {
    /// A text that begins so.
    pub fn of(alloc: Global, beginning: &str) -> Result<Line, AllocError>
        ensures { IfOk result (λ line. line ≡ beginning.now) }
    {
        Ok(Line {
            text: beginning.to_string(alloc)?,
        })
    }

    /// Puts a text behind it, without a space.
    pub fn more(&mut self, rest: &str) -> Result<(), AllocError>
        ensures { OnOk result (self.new ≡ self.old ++ rest.now) }
    {
        self.text.push_str(rest)
    }

    /// Puts a word behind it.
    pub fn word(&mut self, word: &str) -> Result<(), AllocError>
        ensures { OnOk result (self.new ≡ put_word word.now self.old) }
    {
        self.more(" ")?;
        self.more(word)
    }

    /// Puts a word behind it, where that is wanted.
    pub fn wanted(&mut self, wanted: bool, word: &str) -> Result<(), AllocError>
        ensures { OnOk result (self.new ≡ put_wanted wanted word.now self.old) }
    {
        if wanted { self.word(word) } else { Ok(()) }
    }

    /// Puts a number behind it.
    pub fn number(&mut self, alloc: Global, number: u64) -> Result<(), AllocError>
        ensures { OnOk result (self.new ≡ put_word (decimal number) self.old) }
    {
        let digits = number.to_string(alloc)?;
        self.word(digits.as_str())
    }

    /// The text.
    pub fn into_text(self) -> String
        ensures { string_bytes result ≡ self }
    {
        let Line { text } = self;
        text
    }
}

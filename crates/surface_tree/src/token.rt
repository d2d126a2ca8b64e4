//! One token.
use crate::Kind;
use table_rows::Text;

/// What a token holds beside its kind.
#[derive(Debug, Drop)]
pub enum Content {
    /// Nothing: the kind says all.
    Nothing,
    /// The value of an integer, at most 9223372036854775807.
    Number(u64),
    /// The characters that the token stands for: of a name its spelling, of a string and of a
    /// text run the characters behind escapes and entities.
    Characters(Text),
}

/// A token: what it is, the byte of the text at which it begins, and what it holds.
#[derive(Debug, Drop)]
pub struct Token {
    pub kind: Kind,
    pub at: u32,
    pub content: Content,
}

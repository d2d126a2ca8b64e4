//! Laws of the definition of lexing. Each function does nothing: its clause is the law.
ghost use Rattle.ur_lexer.specs.Lexing.{TextsHaveAReading, TextsHaveOneReading};

/// A text has at most one list of tokens, and one end or fault.
pub fn texts_have_one_reading()
    ensures { TextsHaveOneReading }
{}

/// Every text has tokens up to its end, or up to a fault.
pub fn texts_have_a_reading()
    ensures { TextsHaveAReading }
{}

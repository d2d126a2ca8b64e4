//! Literals. Each fits by its type, so both tests always pass.
ghost use Rattle.std.specs.Prelude.{FitsSigned, IsTrue, IsUtf8};
ghost use Rattle.std.specs.Int.{w64};

use table_rows::Text;

/// Whether a number fits in 64 bits.
pub fn number_fits(number: &i64) -> bool
    ensures { IsTrue result → FitsSigned w64 number.now }
{
    let _number = *number;
    true
}

/// Whether a text is UTF-8.
pub fn text_fits(text: &Text) -> bool
    ensures { IsTrue result → IsUtf8 text.now }
{
    let _text = text.as_str();
    true
}

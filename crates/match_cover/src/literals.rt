//! The literals that are tried.
ghost use Rattle.std.specs.Prelude.{◌≡◌, ◌<◌, IfOk};
ghost use Rattle.match_cover.specs.Misses as meant;
ghost use Rattle.type_faults.specs.View.{shape_tree};

use std::alloc::{AllocError, Global};
use table_rows::Text;
use type_faults::Shape;

/// How many literals are tried.
pub const LITERALS: u32 = 16_384;

/// The text with this number: the empty one, those of one byte, those of two.
fn nth_text(alloc: Global, n: u32) -> Result<Text, AllocError>
    requires { n < 16384 }
    ensures { IfOk result (λ t. t ≡ meant.nth_bytes n) }
{
    let mut text = Text::new(alloc);
    if n < 1 {
        return Ok(text);
    }
    if n < 129 {
        text.push((n - 1) as u8 as char)?;
        return Ok(text);
    }
    text.push(((n - 129) / 128) as u8 as char)?;
    text.push(((n - 129) % 128) as u8 as char)?;
    Ok(text)
}

/// The text or the number with this number.
pub fn nth_literal(alloc: Global, words: bool, n: u32) -> Result<Shape, AllocError>
    requires { n < 16384 }
    ensures { IfOk result (λ s. shape_tree s ≡ meant.nth_literal words n) }
{
    if words {
        Ok(Shape::Words(nth_text(alloc, n)?))
    } else {
        Ok(Shape::Number(n as i64))
    }
}

//! Single pieces as values.
ghost use Rattle.std.specs.Prelude.{◌≡◌, ℤ, ◌∷◌, List, ℕ, IsTrue, ◌↔◌, IfOk, IfSome, IfNone};
ghost use Rattle.std.specs.List.{Contains};
ghost use Rattle.table_rows.specs.View.{datatype_view, maybe_shape, case_view};
ghost use Rattle.link_router.specs.Reading.{IsNumber, IsWords, IsTruth, Names};

use itoa::Buffer;
use std::alloc::{AllocError, Global};
use table_rows::{Case, Datatype, Text};

/// Whether two texts have the same bytes.
pub fn are_same(left: &[u8], right: &[u8]) -> bool
    ensures { IsTrue result ↔ (left.now ≡ right.now) }
{
    left == right
}

/// The number that a piece is the decimal form of. One with a plus, with zeros in front, or `-0` is none.
pub fn number(piece: &[u8]) -> Option<i64>
    ensures some { IfSome result (λ z. IsNumber piece.now z) }
    ensures none { IfNone result ((z : ℤ) → IsNumber piece.now z → ⊥) }
{
    let Ok(text) = str::from_utf8(piece) else {
        return None;
    };
    let Ok(number) = text.parse::<i64>() else {
        return None;
    };
    if Buffer::new().format(number) == text {
        Some(number)
    } else {
        None
    }
}

/// The text that stands behind `_` in a piece.
pub fn words(alloc: Global, piece: &[u8]) -> Result<Option<Text>, AllocError>
    ensures some { IfOk result (λ read. IfSome read (λ t. IsWords piece.now t)) }
    ensures none { IfOk result (λ read. IfNone read ((t : List ℕ) → IsWords piece.now t → ⊥)) }
{
    let Some((mark, bytes)) = piece.split_first() else {
        return Ok(None);
    };
    if *mark != b'_' {
        return Ok(None);
    }
    match str::from_utf8(bytes) {
        Ok(text) => Ok(Some(Text::of(alloc, text)?)),
        Err(_) => Ok(None),
    }
}

/// The name of the truth value that a piece is.
pub fn truth(piece: &[u8]) -> Option<&'static str>
    ensures some { IfSome result (λ name. IsTruth piece.now × (name.now ≡ piece.now)) }
    ensures none { IfNone result (IsTruth piece.now → ⊥) }
{
    if are_same(piece, b"True") {
        Some("True")
    } else if are_same(piece, b"False") {
        Some("False")
    } else {
        None
    }
}

/// The constructor of a datatype that a piece names.
pub fn case_named<'r>(datatype: &'r Datatype, piece: &[u8]) -> Option<&'r Case>
    ensures some { IfSome result (λ found. Contains (datatype_view datatype.now)
        (piece.now, maybe_shape found.now.holds)
        × (found.now.name ≡ piece.now)) }
    ensures none { IfNone result (Names (datatype_view datatype.now) piece.now → ⊥) }
{
    let mut rest = datatype.cases.as_slice();
    while let Some((first, others)) = rest.split_first() {
        if are_same(first.name.as_bytes(), piece) {
            return Some(first);
        }
        rest = others;
    }
    None
}

//! The piece of a line that is shown.
ghost use Rattle.std.specs.Prelude.{◌≡◌, ◌≤◌, ℕ, IsCharBoundary, nat_lt};
ghost use Rattle.told_places.specs.Places.{line_start, line_end};
ghost use Rattle.told_places.specs.Pieces.{IsPiece, near};

use crate::place::{end_of_line, start_of_line};

/// The most bytes of a line that are shown on each side of a place.
const NEAR: usize = 60;

/// The piece of the line around a place, in bytes of the text, and whether more of the line stands beside it.
#[derive(Clone, Copy, Debug, PartialEq, Eq)]
pub struct Piece {
    pub from: usize,
    pub to: usize,
    pub cut_before: bool,
    pub cut_behind: bool,
}

/// The first character boundary from `least` on.
fn boundary_from(text: &str, least: usize, at: usize) -> usize
    requires before { least ≤ at }
    requires boundary { IsCharBoundary text.now at }
    ensures inside { least ≤ result }
    ensures before { result ≤ at }
    ensures boundary { IsCharBoundary text.now result }
    ensures first { (other : ℕ) → least ≤ other → IsCharBoundary text.now other → result ≤ other }
{
    let mut from = least;
    while !text.is_char_boundary(from) {
        from += 1;
    }
    from
}

/// The last character boundary up to `most`.
fn boundary_up_to(text: &str, at: usize, most: usize) -> usize
    requires behind { at ≤ most }
    requires boundary { IsCharBoundary text.now at }
    ensures behind { at ≤ result }
    ensures inside { result ≤ most }
    ensures boundary { IsCharBoundary text.now result }
    ensures last { (other : ℕ) → other ≤ most → IsCharBoundary text.now other → other ≤ result }
{
    let mut to = most;
    while !text.is_char_boundary(to) {
        to -= 1;
    }
    to
}

/// The piece that is shown of the line of the byte `at`.
pub fn piece_of(text: &str, at: usize) -> Piece
    requires { IsCharBoundary text.now at }
    ensures piece { IsPiece text.now at result.from result.to }
    ensures cut_before { result.cut_before ≡ nat_lt (line_start text.now at) result.from }
    ensures cut_behind { result.cut_behind ≡ nat_lt result.to (line_end text.now at) }
{
    let start = start_of_line(text.as_bytes(), at);
    let end = end_of_line(text.as_bytes(), at);
    let from = boundary_from(text, start.max(at.saturating_sub(NEAR)), at);
    let to = boundary_up_to(text, at, end.min(at.saturating_add(NEAR)));
    Piece {
        from,
        to,
        cut_before: start < from,
        cut_behind: to < end,
    }
}

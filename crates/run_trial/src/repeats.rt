//! Texts as they are written in a case.
use std::alloc::{AllocError, Global};

/// The most times that a piece is repeated.
const MOST: u32 = 2_000_000;

/// A piece that is repeated, between two others.
#[derive(Clone, Copy)]
struct Repeated<'a> {
    before: &'a str,
    count: u32,
    piece: &'a str,
    behind: &'a str,
}

/// The piece that a line repeats.
fn repeated_in(line: &str) -> Option<Repeated<'_>> {
    let (before, rest) = line.split_once("«")?;
    let (inside, behind) = rest.split_once("»")?;
    let (digits, piece) = inside.split_once(" ")?;
    let count = digits.parse::<u32>().ok()?;
    Some(Repeated {
        before,
        count,
        piece,
        behind,
    })
}

/// The text that is written so: `«COUNT PIECE»` stands for the piece so many times.
pub fn written_out(alloc: Global, line: &str) -> Result<String, AllocError> {
    let Some(found) = repeated_in(line) else {
        return line.to_string(alloc);
    };
    let mut all = found.before.to_string(alloc)?;
    for _ in 0..found.count.min(MOST) {
        all.push_str(found.piece)?;
    }
    all.push_str(found.behind)?;
    Ok(all)
}

//! Texts as they are written in a case.
use std::alloc::{AllocError, Global};

/// The most times that a piece is repeated.
const MOST: u32 = 100_000;

/// The character for which a sign of a case stands.
fn meant(sign: char) -> char {
    match sign {
        '¶' => '\n',
        '␉' => '\t',
        '␍' => '\r',
        '␀' => '\0',
        other => other,
    }
}

/// Adds the text so many times.
fn add_times(all: &mut String, text: &str, count: u32) -> Result<(), AllocError> {
    for _ in 0..count.min(MOST) {
        for sign in text.chars() {
            all.push(meant(sign))?;
        }
    }
    Ok(())
}

/// The text that is written so: what stands in `«»` is repeated so many times.
pub fn written_out(alloc: Global, written: &str, count: u32) -> Result<String, AllocError> {
    let mut all = String::new(alloc);
    let mut first = true;
    for piece in written.split("«") {
        if first {
            add_times(&mut all, piece, 1)?;
        } else if let Some((repeated, plain)) = piece.split_once("»") {
            add_times(&mut all, repeated, count)?;
            add_times(&mut all, plain, 1)?;
        }
        first = false;
    }
    Ok(all)
}

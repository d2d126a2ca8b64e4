//! Tries the lexer and the readers on written cases: it reads them from standard input, and tells each that comes out
//! otherwise, and how many there are.
//!
//! A line `NAME: SOURCE` is a source, and the line behind it says what comes of it: `= SHAPE`, `! FAULT AT`, or `.`
//! where
//! it is read and its shape isn't looked at. Other lines are remarks. The names are those of `cases`; in a source `«x»`
//! stands for as many `x` as `NAME*COUNT:` says, `¶` for a line feed, `␉` for a tab, `␍` for a carriage return and
//! `␀` for
//! the byte 0, so also in its shape. In a shape each tree of two parts or more stands in `⟨⟩`.
#![tactic(auto)]

mod cases;
mod driving;
mod outline;
mod sources;
mod tokens;

use cases::Trial;
use std::io;

/// Reads the cases, tries them, and tells how many there were.
fn main(rt: HostRuntime) -> io::Result<()> {
    let mut trial = Trial::new(rt.alloc());
    for line in rt.lines(rt.alloc()) {
        let line = line?;
        if let Some(found) = trial.take(line.as_str())? {
            println!(rt; "{}", found.as_str())?;
        }
    }
    let tried = trial.tried;
    let wrong = trial.wrong;
    println!(rt; "{tried} cases, {wrong} otherwise")
}

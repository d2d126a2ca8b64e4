//! Tries the walker on written cases: it reads programs and calls of them from standard input, and tells each that
//! comes out otherwise, and how many there are.
//!
//! A program begins with the line `project`. The directives of its project file follow, then an empty line, then its
//! one module, and the line `end`. Behind it stand calls of it, each with a line that says what comes of it.
//!
//! A call is a link, and runs the value that it calls, with the values that its wires are. `A with B` gives the link A
//! the wires of the link B, and `A by B` gives it the values that B's wires are as B's arguments; a number in the place
//! of A names a top-level value.
//!
//! `= STEPS PAGE` says that a run takes so many steps, one step less is over the budget, and the page has this text
//! within `html`; its effects follow, each behind ` | `. `! STEPS FAULT` says the same of a fault. `? WHY` says that
//! there is nothing to run. Once in such a line `«COUNT PIECE»` stands for a piece so many times. Other lines are
//! remarks.
#![tactic(auto)]

mod calls;
mod cases;
mod endings;
mod programs;
mod repeats;

use cases::Trial;
use std::io;

/// Reads the cases, tries them, and tells how many there were.
fn main(rt: HostRuntime) -> io::Result<()> {
    let mut trial = Trial::new(rt.alloc());
    for line in rt.lines(rt.alloc()) {
        let line = line?;
        if let Some(found) = trial.take(line.as_str())? {
            println!(rt; "{}", found.as_str())?;
        }
    }
    let tried = trial.tried;
    let wrong = trial.wrong;
    println!(rt; "{tried} cases, {wrong} otherwise")
}

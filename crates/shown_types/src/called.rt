//! What constructor variables are called.
ghost use Rattle.std.specs.Prelude.{◌≡◌, ◌∷◌, IfOk};
ghost use Rattle.con_terms.specs.View.{kind_tree};
ghost use Rattle.shown_types.specs.Names.{first_letters, is_taken, new_name as new_name_of, numbered, variable_word};

use con_terms::Kind;
use std::alloc::{AllocError, Global};
use table_rows::{Text, Texts};

/// What a constructor variable is called, by those in scope, the innermost first; `_` where there is none.
pub fn variable<'a>(called: &'a Texts, number: u32) -> &'a str
    ensures { result.now ≡ variable_word called.now number }
{
    let place = number as usize;
    if place < called.len() {
        called.at(place).as_str()
    } else {
        "_"
    }
}

/// What is in scope inside of a binder: its name, and what is in scope around it.
pub fn inside(alloc: Global, name: Text, called: &Texts) -> Result<Texts, AllocError>
    ensures { IfOk result (λ made. made ≡ name ∷ called.now) }
{
    let mut made = Texts::new(alloc);
    made.push(name)?;
    for i in 0..called.len() {
        made.push(called.at(i).copy(alloc)?)?;
    }
    Ok(made)
}

/// What the name of a variable of a kind begins with.
fn letters(kind: &Kind) -> &'static str
    ensures { result.now ≡ first_letters (kind_tree kind.now) }
{
    match kind {
        Kind::Types => "t",
        Kind::Units => "c",
        Kind::Names => "nm",
        Kind::Row(_) => "r",
        Kind::Arrow(_, _) => "f",
        Kind::Tuple(_) => "c",
    }
}

/// A name with a number behind it; 0 isn't written.
fn with_number(alloc: Global, letters: &str, number: usize) -> Result<Text, AllocError>
    ensures { IfOk result (λ name. name ≡ numbered letters.now number) }
{
    let mut name = Text::of(alloc, letters)?;
    if number == 0 {
        return Ok(name);
    }
    let digits = number.to_string(alloc)?;
    name.push_str(digits.as_str())?;
    Ok(name)
}

/// Whether a variable is called so.
fn is_name(called: &Texts, name: &Text) -> bool
    ensures { result ≡ is_taken called.now name.now }
{
    for i in 0..called.len() {
        if called.at(i).as_str() == name.as_str() {
            return true;
        }
    }
    false
}

/// A name for a variable of a kind that no variable in scope has.
pub fn new_name(alloc: Global, called: &Texts, kind: &Kind) -> Result<Text, AllocError>
    ensures { IfOk result (λ name. name ≡ new_name_of called.now (kind_tree kind.now)) }
{
    let front = letters(kind);
    for number in 0..called.len() {
        let name = with_number(alloc, front, number)?;
        if !is_name(called, &name) {
            return Ok(name);
        }
    }
    with_number(alloc, front, called.len())
}

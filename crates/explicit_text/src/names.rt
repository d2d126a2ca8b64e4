//! Names. `@@` stands before what has implicit parameters.
ghost use Rattle.std.specs.Prelude.{◌<◌};

use crate::implicits::{basis_has_implicits, builder_has_implicits};
use crate::known::Known;
use crate::output::Output;
use crate::printer::Style;
use crate::scope::Scope;
use crate::tasks::NameTask;
use con_terms::Sym;
use std::alloc::AllocError;
use type_makers::{symbols, value_text};

/// One of two names of a datatype's constructors, by its place.
fn one_of(place: u32, first: Sym, second: Sym) -> Sym {
    if place == 0 { first } else { second }
}

/// The name of a constructor of a datatype of the basis, by its place.
fn basis_builder(symbol: Sym, place: u32) -> Option<Sym> {
    if symbol == symbols::BOOL {
        Some(one_of(place, symbols::FALSE, symbols::TRUE))
    } else if symbol == symbols::OPTION {
        Some(one_of(place, symbols::NONE, symbols::SOME))
    } else if symbol == symbols::LIST {
        Some(one_of(place, symbols::NIL, symbols::CONS))
    } else {
        None
    }
}

/// What stands before the first of a character; all, where it isn't there.
fn before(text: &str, character: char) -> &str
    requires { character < 128 }
{
    match text.split_once(character) {
        Some((front, _)) => front,
        None => text,
    }
}

/// Prints `@@` where it has to stand before a name.
fn sigil(output: &mut Output, implicit: bool) -> Result<(), AllocError> {
    if implicit { output.word("@@") } else { Ok(()) }
}

/// Prints a name of a module, with the module before it where that isn't the one that is printed.
fn name_in(
    style: &Style<'_>,
    output: &mut Output,
    module: Option<u32>,
    name: Sym,
) -> Result<(), AllocError> {
    if let Some(module) = module
        && module != style.module
    {
        output.word(style.known.module(module))?;
        output.word(".")?;
    }
    output.word(style.known.text(name))
}

/// Prints the text of a type's symbol. That of a datatype is its module, a dot and its name; `#` and a number stand
/// behind the text where an earlier type has it too.
fn basic_text(style: &Style<'_>, output: &mut Output, text: &str) -> Result<(), AllocError> {
    match before(text, '#').split_once('.') {
        Some((module, name)) => {
            if module != style.known.module(style.module) {
                output.word(module)?;
                output.word(".")?;
            }
            output.word(name)
        }
        None => output.word(before(text, '#')),
    }
}

/// Prints the name of a type.
fn basic(style: &Style<'_>, output: &mut Output, symbol: Sym) -> Result<(), AllocError> {
    if style.known.is_folder(symbol) {
        return output.word("folder");
    }
    match style.known.datatype(symbol) {
        Some(datatype) => name_in(style, output, datatype.module, datatype.name),
        None => basic_text(style, output, style.known.text(symbol)),
    }
}

/// Prints a name as a constructor.
fn label(known: &Known, output: &mut Output, name: Sym) -> Result<(), AllocError> {
    output.word("#")?;
    output.more(known.text(name))
}

/// Prints a variable; `_` where there is none.
fn variable(scope: &Scope, output: &mut Output, number: u32) -> Result<(), AllocError> {
    match scope.value(number) {
        Some(variable) => {
            sigil(output, variable.implicit)?;
            output.word(variable.name.as_str())
        }
        None => output.word("_"),
    }
}

/// Prints the name of a top-level value; `_` where there is none.
fn top(style: &Style<'_>, output: &mut Output, number: u32) -> Result<(), AllocError> {
    match style.known.top(number) {
        Some(top) => {
            sigil(output, top.implicit)?;
            name_in(style, output, Some(top.module), top.name)
        }
        None => output.word("_"),
    }
}

/// Prints the name of a foreign effect; `_` where there is none.
fn foreign(known: &Known, output: &mut Output, number: u32) -> Result<(), AllocError> {
    match known.effect(number) {
        Some(effect) => {
            output.word(effect.module.as_str())?;
            output.word(".")?;
            output.word(effect.name.as_str())
        }
        None => output.word("_"),
    }
}

/// Prints the name of a constructor of a datatype of the program; `_` where there is none.
fn own_builder(
    style: &Style<'_>,
    output: &mut Output,
    symbol: Sym,
    place: u32,
) -> Result<(), AllocError> {
    if let Some(datatype) = style.known.datatype(symbol)
        && let Some(name) = datatype.builders.get(place as usize)
    {
        return name_in(style, output, datatype.module, *name);
    }
    output.word("_")
}

/// Prints the name of a constructor of a datatype; `_` where there is none.
pub fn builder(
    style: &Style<'_>,
    output: &mut Output,
    symbol: Sym,
    place: u32,
) -> Result<(), AllocError> {
    match basis_builder(symbol, place) {
        Some(name) => output.word(style.known.text(name)),
        None => own_builder(style, output, symbol, place),
    }
}

/// Prints a name of what a term begins with.
fn print_head(
    style: &Style<'_>,
    scope: &Scope,
    output: &mut Output,
    name: NameTask,
) -> Result<(), AllocError> {
    match name {
        NameTask::Variable(number) => variable(scope, output, number),
        NameTask::Top(number) => top(style, output, number),
        NameTask::Foreign(number) => foreign(style.known, output, number),
        NameTask::Basis(name) => {
            sigil(output, basis_has_implicits(name))?;
            output.word(value_text(name))
        }
        NameTask::Built(symbol, place) => {
            sigil(output, builder_has_implicits(style.known, symbol))?;
            builder(style, output, symbol, place)
        }
        _ => Ok(()),
    }
}

/// Prints a name.
pub fn print_name(
    style: &Style<'_>,
    scope: &Scope,
    output: &mut Output,
    name: NameTask,
) -> Result<(), AllocError> {
    match name {
        NameTask::Symbol(symbol) => output.word(style.known.text(symbol)),
        NameTask::Label(symbol) => label(style.known, output, symbol),
        NameTask::Basic(symbol) => basic(style, output, symbol),
        NameTask::ConVariable(number) => output.word(scope.con_name(number)),
        NameTask::Builder(symbol, place) => builder(style, output, symbol, place),
        _ => print_head(style, scope, output, name),
    }
}

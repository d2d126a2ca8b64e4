//! What symbols stand for.
ghost use Rattle.std.specs.Prelude.{◌≡◌, ◌==◌, option_map, OnOk};
ghost use Rattle.std.specs.List.{before_first, list_any};
ghost use Rattle.shown_types.specs.Names.{basis_builder as builder_in_basis, builder_of, builder_words, declared_as, label_word, module_of, name_in as words_in, one_of as one_of_two, text_of, text_words, type_words};
ghost use Rattle.shown_types.specs.View.{declared_view, known_view};
ghost use Rattle.shown_types.specs.Words.{put_word, put_words};

use crate::line::Line;
use con_terms::Sym;
use std::alloc::{AllocError, Global};
use table_rows::Texts;
use type_makers::symbols;

/// A datatype: its type's symbol, its module, its name in the source, and the names of its constructors.
#[derive(Drop)]
pub struct Declared {
    pub symbol: Sym,
    pub home: Option<u32>,
    pub name: Sym,
    pub builders: Vec<Sym>,
}

/// What a text is printed over. Contracts see it as `known_view`.
#[derive(Clone, Copy, Drop)]
pub struct Known<'a> {
    pub alloc: Global,
    pub texts: &'a Texts,
    pub modules: &'a Texts,
    pub types: &'a [Declared],
    /// The symbols of the types of folders.
    pub folders: &'a [u32],
    /// The module whose text it is, by its number.
    pub file: u32,
}

/// The text of a symbol; `_` where there is none.
pub fn text<'a>(known: &Known<'a>, symbol: Sym) -> &'a str
    ensures { result.now ≡ text_of (known_view known.now) symbol.number }
{
    let place = symbol.number as usize;
    if place < known.texts.len() {
        known.texts.at(place).as_str()
    } else {
        "_"
    }
}

/// The name of a module; `_` where there is none.
fn module<'a>(known: &Known<'a>, number: u32) -> &'a str
    ensures { result.now ≡ module_of (known_view known.now) number }
{
    let place = number as usize;
    if place < known.modules.len() {
        known.modules.at(place).as_str()
    } else {
        "_"
    }
}

/// The first datatype with a symbol.
fn datatype<'a>(known: &Known<'a>, symbol: Sym) -> Option<&'a Declared>
    ensures { option_map (λ d. declared_view d.now) result ≡ declared_as (known_view known.now).types symbol.number }
{
    for it in known.types {
        if it.symbol.number == symbol.number {
            return Some(it);
        }
    }
    None
}

/// Puts a name of a module behind a text, with the module before it where that isn't the one whose text it is.
fn name_in(
    known: &Known<'_>,
    line: &mut Line,
    home: Option<u32>,
    name: Sym,
) -> Result<(), AllocError>
    ensures { OnOk result (line.new ≡ put_words (words_in (known_view known.now) home name.number) line.old) }
{
    match home {
        None => line.word(text(known, name)),
        Some(number) => {
            if number != known.file {
                line.word(module(known, number))?;
                line.word(".")?;
            }
            line.word(text(known, name))
        }
    }
}

/// What stands before a text's `#`; all, where none is there.
fn unnumbered(text: &str) -> &str
    ensures { result.now ≡ before_first (λ b. b == 35) text.now }
{
    match text.split_once('#') {
        Some((front, _)) => front,
        None => text,
    }
}

/// Puts a type behind a text, by its symbol's text without a number.
fn by_text(known: &Known<'_>, line: &mut Line, text: &str) -> Result<(), AllocError>
    ensures { OnOk result (line.new ≡ put_words (text_words (known_view known.now) text.now) line.old) }
{
    match text.split_once('.') {
        Some((front, name)) => {
            if front != module(known, known.file) {
                line.word(front)?;
                line.word(".")?;
            }
            line.word(name)
        }
        None => line.word(text),
    }
}

/// Whether a symbol is that of a type of folders.
fn is_folder(known: &Known<'_>, symbol: Sym) -> bool
    ensures { result ≡ list_any (λ f. f == symbol.number) (known_view known.now).folders }
{
    for folder in known.folders {
        if *folder == symbol.number {
            return true;
        }
    }
    false
}

/// Puts the name of a type behind a text.
pub fn put_type(known: &Known<'_>, line: &mut Line, symbol: Sym) -> Result<(), AllocError>
    ensures { OnOk result (line.new ≡ put_words (type_words (known_view known.now) symbol.number) line.old) }
{
    if is_folder(known, symbol) {
        return line.word("folder");
    }
    match datatype(known, symbol) {
        Some(it) => name_in(known, line, it.home, it.name),
        None => by_text(known, line, unnumbered(text(known, symbol))),
    }
}

/// Puts a name as a constructor behind a text.
pub fn put_label(known: &Known<'_>, line: &mut Line, symbol: Sym) -> Result<(), AllocError>
    ensures { OnOk result (line.new ≡ put_word (label_word (known_view known.now) symbol.number) line.old) }
{
    line.word("#")?;
    line.more(text(known, symbol))
}

/// One of two names of a datatype's constructors, by its place.
fn one_of(place: u32, first: Sym, second: Sym) -> Sym
    ensures { result.number ≡ one_of_two place first.number second.number }
{
    if place == 0 { first } else { second }
}

/// The name of a constructor of a datatype that every program has, by its place.
fn basis_builder(symbol: Sym, place: u32) -> Option<Sym>
    ensures { option_map (λ s. s.number) result ≡ builder_in_basis symbol.number place }
{
    if symbol.number == symbols::BOOL.number {
        Some(one_of(place, symbols::FALSE, symbols::TRUE))
    } else if symbol.number == symbols::OPTION.number {
        Some(one_of(place, symbols::NONE, symbols::SOME))
    } else if symbol.number == symbols::LIST.number {
        Some(one_of(place, symbols::NIL, symbols::CONS))
    } else {
        None
    }
}

/// Puts the name of a constructor of a datatype of the program behind a text; `_` where there is none.
fn own_builder(
    known: &Known<'_>,
    line: &mut Line,
    symbol: Sym,
    place: u32,
) -> Result<(), AllocError>
    ensures { OnOk result (line.new ≡ put_words (builder_of (known_view known.now) place
        (declared_as (known_view known.now).types symbol.number)) line.old) }
{
    match datatype(known, symbol) {
        None => line.word("_"),
        Some(it) => match it.builders.get(place as usize) {
            Some(name) => name_in(known, line, it.home, *name),
            None => line.word("_"),
        },
    }
}

/// Puts the name of a constructor of a datatype behind a text, by its place; `_` where there is none.
pub fn put_builder(
    known: &Known<'_>,
    line: &mut Line,
    symbol: Sym,
    place: u32,
) -> Result<(), AllocError>
    ensures { OnOk result (line.new ≡ put_words (builder_words (known_view known.now) symbol.number place) line.old) }
{
    match basis_builder(symbol, place) {
        Some(name) => line.word(text(known, name)),
        None => own_builder(known, line, symbol, place),
    }
}

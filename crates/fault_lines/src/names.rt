//! Names that are declared twice.
ghost use Rattle.std.specs.Prelude.{◌≡◌, ◌++◌, true, string_bytes, IfOk, OnOk};
ghost use Rattle.fault_lines.specs.Lines.{slash_before, slashed, twice_word};
ghost use Rattle.shown_types.specs.View.{known_view};
ghost use Rattle.type_faults.specs.View.{twice_tree};

use shown_types::known::text;
use shown_types::{Known, Line};
use std::alloc::AllocError;
use table_rows::Texts;
use type_faults::Twice;

/// Puts a part of an address behind a text, behind a slash where it isn't the first.
fn put_part(line: &mut Line, first: bool, part: &str) -> Result<(), AllocError>
    ensures { OnOk result (line.new ≡ line.old ++ slash_before first ++ part.now) }
{
    if !first {
        line.more("/")?;
    }
    line.more(part)
}

/// Puts the address of an entry behind a text.
fn put_address(line: &mut Line, parts: &Texts) -> Result<(), AllocError>
    ensures { OnOk result (line.new ≡ line.old ++ slashed true parts.now) }
{
    let mut first = true;
    for i in 0..parts.len() {
        put_part(line, first, parts.at(i).as_str())?;
        first = false;
    }
    Ok(())
}

/// Puts the name that is declared twice behind a text.
fn put_twice(known: &Known<'_>, line: &mut Line, name: &Twice) -> Result<(), AllocError>
    ensures { OnOk result (line.new ≡ line.old ++ twice_word (known_view known.now) (twice_tree name.now)) }
{
    match name {
        Twice::Constructor(symbol) => line.more(text(known, *symbol)),
        Twice::Attribute(name) => line.more(name.as_str()),
        Twice::Entry(parts) => put_address(line, parts),
    }
}

/// A text with the name that is declared twice behind it.
pub fn with_twice(known: &Known<'_>, beginning: &str, name: &Twice) -> Result<String, AllocError>
    ensures { IfOk result (λ text. string_bytes text
        ≡ beginning.now ++ twice_word (known_view known.now) (twice_tree name.now)) }
{
    let mut line = Line::of(known.alloc, beginning)?;
    put_twice(known, &mut line, name)?;
    Ok(line.into_text())
}

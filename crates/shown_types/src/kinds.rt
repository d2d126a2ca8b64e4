//! Kinds.
ghost use Rattle.std.specs.Prelude.{◌≡◌, true, OnOk};
ghost use Rattle.con_terms.specs.View.{kind_tree, kinds_tree};
ghost use Rattle.shown_types.specs.Printed.{put_kind as with_kind, put_kinds as with_kinds};

use crate::line::Line;
use con_terms::{Kind, Kinds};
use std::alloc::AllocError;

/// Puts a kind behind a text, so many levels of it at most. `tight` says whether one with an arrow stands in brackets.
#[cycle(kind)]
pub fn put_kind(line: &mut Line, kind: &Kind, tight: bool, room: u32) -> Result<(), AllocError>
    ensures { OnOk result (line.new ≡ with_kind tight (kind_tree kind.now) line.old) }
{
    if room == 0 {
        return Err(AllocError);
    }
    let room = room - 1;
    match kind {
        Kind::Types => line.word("Type"),
        Kind::Units => line.word("Unit"),
        Kind::Names => line.word("Name"),
        Kind::Row(element) => {
            line.word("{")?;
            put_kind(line, element, false, room)?;
            line.word("}")
        }
        Kind::Arrow(from, to) => {
            line.wanted(tight, "(")?;
            put_kind(line, from, true, room)?;
            line.word("->")?;
            put_kind(line, to, false, room)?;
            line.wanted(tight, ")")
        }
        Kind::Tuple(kinds) => {
            line.word("(")?;
            put_kinds(line, kinds, room)?;
            line.word(")")
        }
    }
}

/// Puts the kinds of a tuple behind a text.
#[cycle(kind)]
fn put_kinds(line: &mut Line, kinds: &Kinds, room: u32) -> Result<(), AllocError>
    ensures { OnOk result (line.new ≡ with_kinds true (kinds_tree kinds.now) line.old) }
{
    let mut first = true;
    for i in 0..kinds.items.len() {
        line.wanted(!first, "*")?;
        put_kind(line, &kinds.items[i], false, room)?;
        first = false;
    }
    Ok(())
}

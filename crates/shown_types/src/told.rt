//! What lines tell of kinds and constructors.
ghost use Rattle.std.specs.Prelude.{◌≡◌, ◌++◌, string_bytes, false, IfOk};
ghost use Rattle.con_terms.specs.View.{con_tree, kind_tree};
ghost use Rattle.shown_types.specs.Shown.{con_words, differing_words, kind_words};
ghost use Rattle.shown_types.specs.View.{known_view};
ghost use Rattle.shown_types.specs.Words.{spaced};

use crate::cons::{WHOLE, put_con};
use crate::kinds::put_kind;
use crate::known::Known;
use crate::line::Line;
use con_terms::{Con, Kind};
use std::alloc::{AllocError, Global};
use table_rows::Texts;

/// How many levels of a kind or a constructor are printed. What nests deeper counts as want of memory; a normal form
/// has 2,000 levels at most.
pub const LEVELS: u32 = 4_000;

/// A text with two kinds behind it: the one that was wanted, and the one that was found.
pub fn differing_kinds(
    alloc: Global,
    beginning: &str,
    wanted: &Kind,
    found: &Kind,
) -> Result<String, AllocError>
    ensures { IfOk result (λ text. string_bytes text ≡ beginning.now
        ++ spaced (differing_words (kind_words false (kind_tree wanted.now))
        (kind_words false (kind_tree found.now)))) }
{
    let mut line = Line::of(alloc, beginning)?;
    line.word("wanted")?;
    put_kind(&mut line, wanted, false, LEVELS)?;
    line.word("found")?;
    put_kind(&mut line, found, false, LEVELS)?;
    Ok(line.into_text())
}

/// A text with two constructors behind it: the one that was wanted, and the one that was found. `called` is what the
/// variables in scope are called, the innermost first.
pub fn differing_types(
    known: &Known<'_>,
    called: &Texts,
    beginning: &str,
    wanted: &Con,
    found: &Con,
) -> Result<String, AllocError>
    ensures { IfOk result (λ text. string_bytes text ≡ beginning.now
        ++ spaced (differing_words (con_words (known_view known.now) called.now 0 (con_tree wanted.now))
        (con_words (known_view known.now) called.now 0 (con_tree found.now)))) }
{
    let mut line = Line::of(known.alloc, beginning)?;
    line.word("wanted")?;
    put_con(known, called, &mut line, wanted, WHOLE, LEVELS)?;
    line.word("found")?;
    put_con(known, called, &mut line, found, WHOLE, LEVELS)?;
    Ok(line.into_text())
}

/// A text with two constructors behind it.
pub fn two_types(
    known: &Known<'_>,
    called: &Texts,
    beginning: &str,
    left: &Con,
    right: &Con,
) -> Result<String, AllocError>
    ensures { IfOk result (λ text. string_bytes text ≡ beginning.now
        ++ spaced (con_words (known_view known.now) called.now 0 (con_tree left.now)
        ++ con_words (known_view known.now) called.now 0 (con_tree right.now))) }
{
    let mut line = Line::of(known.alloc, beginning)?;
    put_con(known, called, &mut line, left, WHOLE, LEVELS)?;
    put_con(known, called, &mut line, right, WHOLE, LEVELS)?;
    Ok(line.into_text())
}

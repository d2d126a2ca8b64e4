//! Names, paths and the empty list, with projections behind them.
ghost use Rattle.std.specs.Prelude.{◌≡◌, IfOk};
ghost use Rattle.plain_tree.specs.ExpView.{exp_tree};
ghost use Rattle.desugar_values.specs.View.{meaning_tree, meanings_tree};
ghost use Rattle.desugar_terms.specs.Operands.{atom_list, name_by, name_exp, named_operand, operand, operand_by, plain_operand, sigil_of, words_exp};

use crate::boxes::{boxed_exp, boxed_exp_of};
use crate::calls::empty_list;
use crate::dots::with_dots;
use crate::paths::{longest, path_exp};
use desugar_values::{Meaning, Meanings, bare, characters, start_of};
use plain_tree::{Exp, Form, Sigil};
use std::alloc::{AllocError, Global};
use surface_tree::{Kind, Token};

/// What stands before a name, by the first word: `@`, `@@` or nothing.
fn sigil_of(kind: Kind) -> Sigil
    ensures { result ≡ sigil_of kind }
{
    match kind {
        Kind::AtSign => Sigil::At,
        Kind::DoubleAtSign => Sigil::AtAt,
        _ => Sigil::Nothing,
    }
}

/// The name itself: the first word, or the one behind it.
fn name_by(first: Token, words: Meanings) -> Token
    ensures { result ≡ name_by first.kind first (meanings_tree words) }
{
    let mut words = words;
    match first.kind {
        Kind::AtSign => words.token(),
        Kind::DoubleAtSign => words.token(),
        _ => first,
    }
}

/// A name, of a term at this byte, with dots behind it: a lower-case name stands alone, and an upper-case name begins
/// the longest path.
fn name_exp(
    alloc: Global,
    at: u32,
    sigil: Sigil,
    name: Token,
    dots: Meanings,
) -> Result<Box<Exp>, AllocError>
    ensures { IfOk result (λ e. exp_tree e.value ≡ name_exp at sigil name (meanings_tree dots)) }
{
    let kind = name.kind;
    let text = characters(alloc, name.content);
    match kind {
        Kind::LowerName => {
            let name = boxed_exp(alloc, at, Form::Name(sigil, bare(alloc, text)))?;
            with_dots(alloc, at, name, dots)
        }
        _ => path_exp(alloc, at, sigil, longest(alloc, text, dots)?),
    }
}

/// A name by its first word and the words behind that, with dots behind it.
fn words_exp(
    alloc: Global,
    first: Token,
    words: Meanings,
    dots: Meanings,
) -> Result<Box<Exp>, AllocError>
    ensures { IfOk result (λ e. exp_tree e.value ≡ words_exp first (meanings_tree words) (meanings_tree dots)) }
{
    let at = first.at;
    let sigil = sigil_of(first.kind);
    let name = name_by(first, words);
    name_exp(alloc, at, sigil, name, dots)
}

/// A name by its words, with dots behind it: `PrimaryLower = lower`, `PrimaryUpper = upper`,
/// `PrimaryAt = "@" AnyName` or `PrimaryAtAt = "@@" AnyName`.
fn named_operand(alloc: Global, words: Meanings, dots: Meanings) -> Result<Meaning, AllocError>
    ensures { IfOk result (λ m. meaning_tree m ≡ named_operand (meanings_tree words) (meanings_tree dots)) }
{
    let mut words = words;
    let first = words.token();
    let at = first.at;
    Ok(Meaning::Exp(at, words_exp(alloc, first, words, dots)?))
}

/// Any other term, with dots behind it.
fn plain_operand(alloc: Global, primary: Meaning, dots: Meanings) -> Result<Meaning, AllocError>
    ensures { IfOk result (λ m. meaning_tree m ≡ plain_operand (meaning_tree primary) (meanings_tree dots)) }
{
    let start = start_of(&primary);
    let exp = boxed_exp_of(alloc, primary)?;
    Ok(Meaning::Exp(start, with_dots(alloc, start, exp, dots)?))
}

/// A term, or a name by its words, with dots behind it.
fn operand_by(alloc: Global, primary: Meaning, dots: Meanings) -> Result<Meaning, AllocError>
    ensures { IfOk result (λ m. meaning_tree m ≡ operand_by (meaning_tree primary) (meanings_tree dots)) }
{
    match primary {
        Meaning::Group(words) => named_operand(alloc, words, dots),
        other => plain_operand(alloc, other, dots),
    }
}

/// `Operand = Primary {Dot}`
pub fn operand(alloc: Global, parts: Meanings) -> Result<Meaning, AllocError>
    ensures { IfOk result (λ m. meaning_tree m ≡ operand (meanings_tree parts)) }
{
    let mut parts = parts;
    let primary = parts.take();
    operand_by(alloc, primary, parts.several(alloc))
}

/// `AtomList = "[" "]" {Dot}`
pub fn atom_list(alloc: Global, parts: Meanings) -> Result<Meaning, AllocError>
    ensures { IfOk result (λ m. meaning_tree m ≡ atom_list (meanings_tree parts)) }
{
    let mut parts = parts;
    let at = parts.at();
    parts.skip();
    Ok(Meaning::Exp(at, empty_list(alloc, at, parts.several(alloc))?))
}

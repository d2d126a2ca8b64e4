//! How the parts of a rule begin.
ghost use Rattle.std.specs.Prelude.{◌≡◌};
ghost use Rattle.desugar_values.specs.Parts.{first, start_of, word_of};
ghost use Rattle.desugar_values.specs.View.{meaning_tree, meanings_tree};
ghost use Rattle.desugar_types.specs.Leading.{leading};

use desugar_values::{Meaning, Meanings, start_of};
use surface_tree::Kind;

/// The kind of the word that the tree is.
fn word_kind(meaning: &Meaning) -> Kind
    ensures { result ≡ (word_of (meaning_tree meaning.now)).kind }
{
    match meaning {
        Meaning::Word(token) => token.kind,
        _ => Kind::Underscore,
    }
}

/// The kind of the word with which these parts begin; where they begin with no word, that of `_`.
pub fn leading(parts: &Meanings) -> Kind
    ensures { result ≡ leading (meanings_tree parts.now) }
{
    match parts.items.front() {
        Some(first) => word_kind(first),
        None => Kind::Underscore,
    }
}

/// The byte at which the first of these parts begins.
pub fn first_start(parts: &Meanings) -> u32
    ensures { result ≡ start_of (first (meanings_tree parts.now)) }
{
    match parts.items.front() {
        Some(first) => start_of(first),
        None => 0,
    }
}

//! Which tokens stand for a word of the grammar.
ghost use Rattle.std.specs.Prelude.{◌≡◌, ◌==◌};
ghost use Rattle.surface_grammar.specs.Words.{accept, any_accepts, is_upper_word, kind_code};

use surface_tree::Kind;

/// Whether the two kinds are one.
fn is_same(left: Kind, right: Kind) -> bool
    ensures { result ≡ (kind_code left == kind_code right) }
{
    left as u8 == right as u8
}

/// Whether the kind is that of a name that is an upper-case name too.
fn is_upper_word(kind: Kind) -> bool
    ensures { result ≡ is_upper_word kind }
{
    matches!(kind, Kind::TypeWord | Kind::UnitWord | Kind::NameWord)
}

/// Whether a token of the second kind may stand for a word of the first.
pub fn accepts(word: Kind, found: Kind) -> bool
    ensures { result ≡ accept word found }
{
    is_same(word, found) || is_same(word, Kind::UpperName) && is_upper_word(found)
}

/// Whether a token of this kind may stand for one of the words.
pub fn any_accepts(words: &[Kind], found: Kind) -> bool
    ensures { result ≡ any_accepts words.now found }
{
    for word in words {
        if accepts(*word, found) {
            return true;
        }
    }
    false
}

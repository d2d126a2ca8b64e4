//! Words and symbols, looked up in their tables.
ghost use Rattle.std.specs.Prelude.{◌≡◌, ◌<◌, ◌≤◌, map, true, length, IfSome};
ghost use Rattle.ur_lexer.specs.Words as spec;

use crate::state::Turn;
use surface_tree::Kind;

/// The kind of the word, where the table has it.
pub fn word_kind(mut table: &[(&[u8], Kind)], word: &[u8]) -> Option<Kind>
    ensures { result ≡ spec.word_kind (map (λ e. (e.0.now, e.1)) table.entry.now) word.now }
{
    while let [entry, rest @ ..] = table {
        if entry.0 == word {
            return Some(entry.1);
        }
        table = rest;
    }
    None
}

/// Whether the symbol stands at the front of the bytes.
fn stands(symbol: &[u8], bytes: &[u8]) -> bool
    ensures value { result ≡ spec.stands symbol.now bytes.now }
    ensures within { result ≡ true → (0 < length symbol.now) × (length symbol.now ≤ length bytes.now) }
{
    match symbol {
        [] => false,
        [first, rest @ ..] => match bytes {
            [] => false,
            [byte, others @ ..] => *first == *byte && others.starts_with(rest),
        },
    }
}

/// The first symbol of the table that stands at the front of the bytes: its kind, its length and
/// what it does to the mode.
pub fn symbol_at(mut table: &[(&[u8], Kind, Turn)], bytes: &[u8]) -> Option<(Kind, usize, Turn)>
    ensures value { result ≡ spec.symbol_at (map (λ e. (e.0.now, e.1, e.2)) table.entry.now) bytes.now }
    ensures within { IfSome result (λ s. (0 < s.1) × (s.1 ≤ length bytes.now)) }
{
    while let [entry, rest @ ..] = table {
        if stands(entry.0, bytes) {
            return Some((entry.1, entry.0.len(), entry.2));
        }
        table = rest;
    }
    None
}

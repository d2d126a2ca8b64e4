//! The first token of a tree that shows a form that isn't built yet.
ghost use Rattle.std.specs.Prelude.{◌≡◌};
ghost use Rattle.unbuilt_forms.specs.Unbuilt.{IsFirstUnbuilt, first_unbuilt, is_unbuilt, names_operation, shows_form};

use surface_grammar::Tree;
use surface_tree::{Content, Kind, Token};

/// Whether only a form that isn't built yet has a token of this kind.
fn shows_form(kind: Kind) -> bool
    ensures { result ≡ shows_form kind }
{
    matches!(
        kind,
        Kind::KeywordTable
            | Kind::KeywordSequence
            | Kind::KeywordCookie
            | Kind::SqlSelect
            | Kind::SqlInsert
            | Kind::SqlUpdate
            | Kind::SqlDelete
            | Kind::SqlWhere
    )
}

/// Whether a name is that of an operation of the basis on tables, sequences or cookies.
fn names_operation(name: &str) -> bool
    ensures { result ≡ names_operation name.now }
{
    name == "query"
        || name == "queryX"
        || name == "oneRow"
        || name == "oneOrNoRows"
        || name == "dml"
        || name == "nextval"
        || name == "getCookie"
        || name == "clearCookie"
        || name == "setCookie"
}

/// Whether a token shows a form that isn't built yet.
fn is_unbuilt(token: &Token) -> bool
    ensures { result ≡ is_unbuilt token.now }
{
    match (token.kind, &token.content) {
        (Kind::LowerName, Content::Characters(name)) => names_operation(name.as_str()),
        (kind, _) => shows_form(kind),
    }
}

/// The place of the first of the tokens that shows a form that isn't built yet.
fn first_among(tokens: &[Token]) -> Option<u32>
    ensures { result ≡ first_unbuilt tokens.now }
{
    for token in tokens {
        if is_unbuilt(token) {
            return Some(token.at);
        }
    }
    None
}

/// The place of the first token of a tree that shows a form that isn't built yet. Of a form of SQL that is its first
/// token.
pub fn first_unbuilt(tree: &Tree) -> Option<u32>
    ensures { IsFirstUnbuilt tree.now.leaves result }
{
    first_among(tree.leaves())
}

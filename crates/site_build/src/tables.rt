//! How many tables a module declares.
ghost use Rattle.std.specs.Prelude.{◌≡◌, count_by};
ghost use Rattle.site_build.specs.Tables.{is_table};

use surface_tree::{Kind, Token};

/// The most tables that a project has.
pub const MOST_TABLES: usize = 1000;

/// Whether a declaration of a table begins with this token.
fn is_table(token: &Token) -> bool
    ensures { result ≡ is_table token.now }
{
    match token.kind {
        Kind::KeywordTable => true,
        _ => false,
    }
}

/// How many declarations of tables the tokens of a module have.
pub fn count_tables(tokens: &[Token]) -> usize
    ensures { result ≡ count_by is_table tokens.now }
{
    let mut count = 0;
    for token in tokens {
        if is_table(token) {
            count += 1;
        }
    }
    count
}

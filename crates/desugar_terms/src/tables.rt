//! Declarations of tables and cookies. Each is read from the word behind its keyword on, and stands at the keyword.
ghost use Rattle.std.specs.Prelude.{◌≡◌, [], ◌∷◌, IfOk};
ghost use Rattle.plain_tree.specs.View.{cookie_tree, table_tree};
ghost use Rattle.desugar_values.specs.Parts.{behind, first, group_of};
ghost use Rattle.desugar_values.specs.View.{meaning_tree, meanings_tree};
ghost use Rattle.desugar_terms.specs.Tables.{columns, columns_by, key_of, signed, table};

use crate::name_lists::add_names;
use desugar_values::{Meaning, Meanings, named};
use plain_tree::{Cookie, Table, Word, Words};
use std::alloc::{AllocError, Global};
use surface_tree::{Kind, Token};

/// One name.
fn one_name(alloc: Global, name: Word) -> Result<Words, AllocError>
    ensures { IfOk result (λ all. all ≡ name ∷ []) }
{
    let mut words = Words::new(alloc);
    words.push(name)?;
    Ok(words)
}

/// `ColumnList = "(" upper {ColumnMore} ")"` or `KeyColumn = upper`, by its first word.
fn columns_by(alloc: Global, first: Token, parts: Meanings) -> Result<Words, AllocError>
    ensures { IfOk result (λ all. all ≡ columns_by first.kind first (meanings_tree parts)) }
{
    let mut parts = parts;
    match first.kind {
        Kind::LeftParenthesis => {
            let words = one_name(alloc, parts.name(alloc))?;
            add_names(alloc, words, parts.several(alloc))
        }
        _ => one_name(alloc, named(alloc, first)),
    }
}

/// `KeyMark = "PRIMARY" "KEY" KeyColumns`
fn columns(alloc: Global, mark: Meanings) -> Result<Words, AllocError>
    ensures { IfOk result (λ all. all ≡ columns (group_of (first (behind (behind (meanings_tree mark)))))) }
{
    let mut mark = mark;
    mark.skip();
    mark.skip();
    let mut parts = mark.group(alloc);
    let first = parts.token();
    columns_by(alloc, first, parts)
}

/// `[KeyMark]`
fn key_of(alloc: Global, mark: Meaning) -> Result<Words, AllocError>
    ensures { IfOk result (λ all. all ≡ key_of (meaning_tree mark)) }
{
    match mark {
        Meaning::Group(parts) => columns(alloc, parts),
        other => {
            drop(other);
            Ok(Words::new(alloc))
        }
    }
}

/// `DeclTable = "table" lower ":" Con [KeyMark]`
pub fn table(alloc: Global, at: u32, parts: Meanings) -> Result<Table, AllocError>
    ensures { IfOk result (λ t. table_tree t ≡ table at (meanings_tree parts)) }
{
    let mut parts = parts;
    let name = parts.name(alloc);
    parts.skip();
    let con = parts.con();
    match key_of(alloc, parts.take()) {
        Ok(key) => Ok(Table { at, name, con, key }),
        Err(full) => {
            drop(con);
            Err(full)
        }
    }
}

/// `DeclCookie = "cookie" lower ":" Con`
pub fn cookie(alloc: Global, at: u32, parts: Meanings) -> Cookie
    ensures { cookie_tree result ≡ signed at (meanings_tree parts) }
{
    let mut parts = parts;
    let name = parts.name(alloc);
    parts.skip();
    let con = parts.con();
    Cookie { at, name, con }
}

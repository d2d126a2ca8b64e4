//! Declarations of a module.
ghost use Rattle.std.specs.Prelude.{◌≡◌, map, IfOk};
ghost use Rattle.plain_tree.specs.View.{decl_tree, decls_tree};
ghost use Rattle.desugar_values.specs.View.{meaning_tree, meanings_tree};
ghost use Rattle.desugar_terms.specs.Decls.{decl_by, decl_of, decls_of};

use crate::locals::{function_group, value};
use crate::tables::{cookie, table};
use crate::types::{con_declared, datatype, type_declared};
use desugar_values::{Meaning, Meanings, group_of};
use plain_tree::{Decl, Decls};
use std::alloc::{AllocError, Global};
use surface_tree::Kind;

/// A declaration by its first word, from behind that on.
fn decl_by(alloc: Global, kind: Kind, at: u32, parts: Meanings) -> Result<Decl, AllocError>
    ensures { IfOk result (λ d. decl_tree d ≡ decl_by kind at (meanings_tree parts)) }
{
    let mut parts = parts;
    match kind {
        Kind::KeywordVal => Ok(Decl::Value(value(alloc, at, parts.group(alloc))?)),
        Kind::KeywordFun => Ok(Decl::Value(function_group(alloc, at, parts)?)),
        Kind::KeywordCon => Ok(Decl::Con(con_declared(alloc, at, parts))),
        Kind::KeywordType => Ok(Decl::Con(type_declared(alloc, at, parts))),
        Kind::KeywordDatatype => Ok(Decl::Datatype(datatype(alloc, at, parts)?)),
        Kind::KeywordTable => Ok(Decl::Table(table(alloc, at, parts)?)),
        Kind::KeywordCookie => Ok(Decl::Cookie(cookie(alloc, at, parts))),
        _ => Ok(Decl::Sequence(at, parts.name(alloc))),
    }
}

/// The declaration that a tree stands for.
pub fn decl_of(alloc: Global, meaning: Meaning) -> Result<Decl, AllocError>
    ensures { IfOk result (λ d. decl_tree d ≡ decl_of (meaning_tree meaning)) }
{
    let mut parts = group_of(alloc, meaning);
    let word = parts.token();
    decl_by(alloc, word.kind, word.at, parts)
}

/// Declarations in order.
fn items_of(alloc: Global, several: Meanings) -> Result<Vec<Decl>, AllocError>
    ensures { IfOk result (λ all. map decl_tree all.items ≡ decls_of (meanings_tree several)) }
{
    let mut items = Vec::new(alloc);
    for part in several.into_list() {
        items.push(decl_of(alloc, part)?)?;
    }
    Ok(items)
}

/// The declarations of a module.
pub fn decls_of(alloc: Global, several: Meanings) -> Result<Decls, AllocError>
    ensures { IfOk result (λ d. decls_tree d ≡ decls_of (meanings_tree several)) }
{
    let items = items_of(alloc, several)?;
    Ok(Decls { items })
}

//! Declarations of types. Each is read from the word behind its keyword on, and stands at the keyword.
ghost use Rattle.std.specs.Prelude.{◌≡◌, ◌∷◌, map, IfOk};
ghost use Rattle.plain_tree.specs.View.{builder_tree, datatype_tree, type_decl_tree};
ghost use Rattle.desugar_values.specs.View.{meaning_tree, meanings_tree};
ghost use Rattle.desugar_terms.specs.Types.{builder_of, builders_of, con_declared, datatype, type_declared};

use crate::name_lists::add_names;
use con_terms::Kind;
use desugar_types::one_of;
use desugar_values::{Meaning, Meanings, group_of, maybe_kind_of};
use plain_tree::{Builders, Datatype, DatatypeBuilder, TypeDecl, Words};
use std::alloc::{AllocError, Global};

/// `DeclCon = "con" lower [KindMark] "=" Con`
pub fn con_declared(alloc: Global, at: u32, parts: Meanings) -> TypeDecl
    ensures { type_decl_tree result ≡ con_declared at (meanings_tree parts) }
{
    let mut parts = parts;
    let name = parts.name(alloc);
    let kind = maybe_kind_of(parts.take());
    parts.skip();
    let con = parts.con();
    TypeDecl {
        at,
        name,
        kind,
        con,
    }
}

/// `DeclType = "type" lower "=" Con`, whose kind is Type.
pub fn type_declared(alloc: Global, at: u32, parts: Meanings) -> TypeDecl
    ensures { type_decl_tree result ≡ type_declared at (meanings_tree parts) }
{
    let mut parts = parts;
    let name = parts.name(alloc);
    parts.skip();
    let con = parts.con();
    TypeDecl {
        at,
        name,
        kind: Some(Kind::Types),
        con,
    }
}

/// `Constructor = upper [ConstructorOf]`
fn builder_of(alloc: Global, meaning: Meaning) -> DatatypeBuilder
    ensures { builder_tree result ≡ builder_of (meaning_tree meaning) }
{
    let mut parts = group_of(alloc, meaning);
    let name = parts.name(alloc);
    let holds = parts.maybe_con();
    DatatypeBuilder { name, holds }
}

/// `Constructor {ConstructorMore}`
fn builders(
    alloc: Global,
    first: DatatypeBuilder,
    more: Meanings,
) -> Result<Vec<DatatypeBuilder>, AllocError>
    ensures { IfOk result (λ all. map builder_tree all.items ≡ builder_tree first ∷ builders_of (meanings_tree more)) }
{
    let mut items = one_of(alloc, first)?;
    for part in more.into_list() {
        items.push(builder_of(alloc, part))?;
    }
    Ok(items)
}

/// `DeclDatatype = "datatype" lower {Parameter} "=" Constructor {ConstructorMore}`
pub fn datatype(alloc: Global, at: u32, parts: Meanings) -> Result<Datatype, AllocError>
    ensures { IfOk result (λ d. datatype_tree d ≡ datatype at (meanings_tree parts)) }
{
    let mut parts = parts;
    let name = parts.name(alloc);
    let parameters = add_names(alloc, Words::new(alloc), parts.several(alloc))?;
    parts.skip();
    let first = builder_of(alloc, parts.take());
    let items = builders(alloc, first, parts.several(alloc))?;
    Ok(Datatype {
        at,
        name,
        parameters,
        builders: Builders { items },
    })
}

//! Declarations of values, in a module and in a `let`.
ghost use Rattle.std.specs.Prelude.{◌≡◌, ◌∷◌, map, IfOk};
ghost use Rattle.plain_tree.specs.ConView.{con_tree, maybe_con};
ghost use Rattle.plain_tree.specs.ExpView.{local_tree, named_tree};
ghost use Rattle.desugar_values.specs.Parts.{behind, con_of, first, group_of};
ghost use Rattle.desugar_values.specs.View.{meaning_tree, meanings_tree};
ghost use Rattle.desugar_terms.specs.Functions.{function};
ghost use Rattle.desugar_terms.specs.Locals.{function_group, functions, local_by, local_of, mark_type, plain_value, typed_value, typed_values, value, value_group};

use crate::functions::function;
use desugar_types::one_of;
use desugar_values::{Meaning, Meanings, group_of, named};
use plain_tree::{Con, Local, Named, NamedList};
use std::alloc::{AllocError, Global};
use surface_tree::{Kind, Token};

/// The type of a mark `":" Con`.
fn marked(parts: Meanings) -> Con
    ensures { con_tree result ≡ con_of (first (behind (meanings_tree parts))) }
{
    let mut parts = parts;
    parts.skip();
    parts.con()
}

/// `[TypeMark]`, `TypeMark = ":" Con`
fn mark_type(mark: Meaning) -> Option<Con>
    ensures { maybe_con result ≡ mark_type (meaning_tree mark) }
{
    match mark {
        Meaning::Group(parts) => Some(marked(parts)),
        other => {
            drop(other);
            None
        }
    }
}

/// `ValPlain = lower [TypeMark] "=" Exp`, by its name.
fn plain_value(alloc: Global, name: Token, parts: Meanings) -> Named
    ensures { named_tree result ≡ plain_value name (meanings_tree parts) }
{
    let mut parts = parts;
    let con = mark_type(parts.take());
    parts.skip();
    Named {
        name: named(alloc, name),
        con,
        exp: parts.exp(),
    }
}

/// `lower ":" Con "=" Exp`
fn typed_value(alloc: Global, parts: &mut Meanings) -> Named
    ensures named { named_tree result ≡ typed_value (meanings_tree parts.old) }
    ensures behind { meanings_tree parts.new ≡ behind (behind (behind (behind (behind (meanings_tree parts.old))))) }
{
    let name = parts.name(alloc);
    parts.skip();
    let con = Some(parts.con());
    parts.skip();
    let exp = parts.exp();
    Named { name, con, exp }
}

/// `RecMore = "and" lower ":" Con "=" Exp`
fn value_more(alloc: Global, meaning: Meaning) -> Named
    ensures { named_tree result ≡ typed_value (behind (group_of (meaning_tree meaning))) }
{
    let mut parts = group_of(alloc, meaning);
    parts.skip();
    typed_value(alloc, &mut parts)
}

/// `FunMore = "and" lower Arg {Arg} [TypeMark] "=" Exp`
fn function_more(alloc: Global, meaning: Meaning) -> Result<Named, AllocError>
    ensures { IfOk result (λ n. named_tree n ≡ function (behind (group_of (meaning_tree meaning)))) }
{
    let mut parts = group_of(alloc, meaning);
    parts.skip();
    function(alloc, &mut parts)
}

/// A value, and those of `{RecMore}` behind it.
fn typed_values(alloc: Global, first: Named, more: Meanings) -> Result<Vec<Named>, AllocError>
    ensures { IfOk result (λ all. map named_tree all.items ≡ named_tree first ∷ typed_values (meanings_tree more)) }
{
    let mut items = one_of(alloc, first)?;
    for part in more.into_list() {
        items.push(value_more(alloc, part))?;
    }
    Ok(items)
}

/// A function, and those of `{FunMore}` behind it.
fn functions(alloc: Global, first: Named, more: Meanings) -> Result<Vec<Named>, AllocError>
    ensures { IfOk result (λ all. map named_tree all.items ≡ named_tree first ∷ functions (meanings_tree more)) }
{
    let mut items = one_of(alloc, first)?;
    for part in more.into_list() {
        items.push(function_more(alloc, part)?)?;
    }
    Ok(items)
}

/// `ValRec = "rec" lower ":" Con "=" Exp {RecMore}` from the name on, at the `val` before it.
fn value_group(alloc: Global, at: u32, parts: Meanings) -> Result<Local, AllocError>
    ensures { IfOk result (λ l. local_tree l ≡ value_group at (meanings_tree parts)) }
{
    let mut parts = parts;
    let first = typed_value(alloc, &mut parts);
    let items = typed_values(alloc, first, parts.several(alloc))?;
    Ok(Local::ValRec(at, NamedList { items }))
}

/// `"fun" lower Arg {Arg} [TypeMark] "=" Exp {FunMore}` from the name on, at its first word.
pub fn function_group(alloc: Global, at: u32, parts: Meanings) -> Result<Local, AllocError>
    ensures { IfOk result (λ l. local_tree l ≡ function_group at (meanings_tree parts)) }
{
    let mut parts = parts;
    let first = function(alloc, &mut parts)?;
    let items = functions(alloc, first, parts.several(alloc))?;
    Ok(Local::ValRec(at, NamedList { items }))
}

/// `ValRest`, at the `val` before it.
pub fn value(alloc: Global, at: u32, parts: Meanings) -> Result<Local, AllocError>
    ensures { IfOk result (λ l. local_tree l ≡ value at (meanings_tree parts)) }
{
    let mut parts = parts;
    let word = parts.token();
    match word.kind {
        Kind::KeywordRec => value_group(alloc, at, parts),
        _ => Ok(Local::Val(at, plain_value(alloc, word, parts))),
    }
}

/// A declaration of values by its first word, from behind that on.
fn local_by(alloc: Global, kind: Kind, at: u32, parts: Meanings) -> Result<Local, AllocError>
    ensures { IfOk result (λ l. local_tree l ≡ local_by kind at (meanings_tree parts)) }
{
    let mut parts = parts;
    match kind {
        Kind::KeywordFun => function_group(alloc, at, parts),
        _ => value(alloc, at, parts.group(alloc)),
    }
}

/// The declaration of values that a tree stands for: `"val" ValRest`, or `"fun" ..`.
pub fn local_of(alloc: Global, meaning: Meaning) -> Result<Local, AllocError>
    ensures { IfOk result (λ l. local_tree l ≡ local_of (meaning_tree meaning)) }
{
    let mut parts = group_of(alloc, meaning);
    let word = parts.token();
    local_by(alloc, word.kind, word.at, parts)
}

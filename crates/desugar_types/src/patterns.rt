//! What the rules of patterns stand for, but for those of records.
ghost use Rattle.std.specs.Prelude.{◌≡◌, ◌++◌, map, IfOk};
ghost use Rattle.plain_tree.specs.ConView.{pat_field_tree, pat_form_tree};
ghost use Rattle.desugar_values.specs.View.{meaning_tree, meanings_tree};
ghost use Rattle.desugar_types.specs.Patterns.{closed, component_field, components, constructor_by, in_parens, pattern, pattern_at, pattern_cons, pattern_constructor, pattern_int, pattern_list, pattern_name, pattern_negative, pattern_parens, pattern_string, pattern_variable, pattern_wild, tuple, upper_names};

use crate::boxes::two_of;
use crate::leading::leading;
use desugar_values::{Meaning, Meanings, characters, component, number, pat_of, start_of, word_of};
use plain_tree::{BasisBuilder, Builder, Modules, Pat, PatField, PatFields, PatForm, Path};
use std::alloc::{AllocError, Global};
use surface_tree::Kind;
use table_rows::Text;

/// A pattern that stands where its tree begins.
pub fn pattern_at(alloc: Global, at: u32, form: PatForm) -> Result<Meaning, AllocError>
    ensures { IfOk result (λ m. meaning_tree m ≡ pattern_at at (pat_form_tree form)) }
{
    Ok(Meaning::Pat(at, Box::new(alloc, Pat { at, form })?))
}

/// A pattern as the component of a tuple with this number.
fn component_field(number: u64, meaning: Meaning) -> PatField
    ensures { pat_field_tree result ≡ component_field number (meaning_tree meaning) }
{
    let at = start_of(&meaning);
    PatField {
        at,
        name: component(at, number),
        pat: pat_of(meaning),
    }
}

/// A tuple's components with those of a repetition behind them, which are the third and further ones.
fn add_components(items: Vec<PatField>, more: Meanings) -> Result<Vec<PatField>, AllocError>
    ensures { IfOk result (λ all. map pat_field_tree all.items ≡
        map pat_field_tree items.items ++ components 3 (meanings_tree more)) }
{
    let mut items = items;
    let mut number: u64 = 3;
    for part in more.into_list() {
        items.push(component_field(number, part))?;
        number += 1;
    }
    Ok(items)
}

/// A tuple, which is a record with the fields 1, 2, ..
fn tuple(alloc: Global, one: Meaning, two: Meaning, more: Meanings) -> Result<PatForm, AllocError>
    ensures { IfOk result (λ f. pat_form_tree f ≡ tuple (meaning_tree one) (meaning_tree two) (meanings_tree more)) }
{
    let items = two_of(alloc, component_field(1, one), component_field(2, two))?;
    let items = add_components(items, more)?;
    Ok(PatForm::Rec(PatFields { items }, false))
}

/// `p :: q`, which is `Cons` on a pair.
fn pattern_cons(alloc: Global, one: Meaning, two: Meaning) -> Result<Meaning, AllocError>
    ensures { IfOk result (λ m. meaning_tree m ≡ pattern_cons (meaning_tree one) (meaning_tree two)) }
{
    let at = start_of(&one);
    let form = tuple(alloc, one, two, Meanings::new(alloc))?;
    let pair = Box::new(alloc, Pat { at, form })?;
    let cons = Builder::Basis(BasisBuilder::Cons);
    pattern_at(alloc, at, PatForm::Holding(cons, pair))
}

/// `Pat = PatTerm [PatCons]`
pub fn pattern(alloc: Global, parts: Meanings) -> Result<Meaning, AllocError>
    ensures { IfOk result (λ m. meaning_tree m ≡ pattern (meanings_tree parts)) }
{
    let mut parts = parts;
    let one = parts.take();
    match parts.take() {
        Meaning::Pat(start, two) => pattern_cons(alloc, one, Meaning::Pat(start, two)),
        other => {
            drop(other);
            Ok(one)
        }
    }
}

/// The last of these names within those before it, which are modules.
fn upper_names(alloc: Global, name: Text, more: Meanings) -> Result<Path, AllocError>
    ensures { IfOk result (λ p. p ≡ upper_names name (meanings_tree more)) }
{
    let mut modules = Modules::new(alloc);
    let mut name = name;
    for part in more.into_list() {
        let module = name;
        name = characters(alloc, word_of(part).content);
        modules.push(module)?;
    }
    Ok(Path { modules, name })
}

/// A constructor of a datatype, by whether a pattern of what it holds stands behind it.
fn constructor_by(
    alloc: Global,
    at: u32,
    builder: Builder,
    held: Meaning,
) -> Result<Meaning, AllocError>
    ensures { IfOk result (λ m. meaning_tree m ≡ constructor_by at builder (meaning_tree held)) }
{
    match held {
        Meaning::Pat(_, held) => pattern_at(alloc, at, PatForm::Holding(builder, held)),
        other => {
            drop(other);
            pattern_at(alloc, at, PatForm::Bare(builder))
        }
    }
}

/// `PatConstructor = UpperPath [PatAtom]`
pub fn pattern_constructor(alloc: Global, parts: Meanings) -> Result<Meaning, AllocError>
    ensures { IfOk result (λ m. meaning_tree m ≡ pattern_constructor (meanings_tree parts)) }
{
    let mut parts = parts;
    let mut names = parts.group(alloc);
    let name = names.name(alloc);
    let path = upper_names(alloc, name.text, names.several(alloc))?;
    constructor_by(alloc, name.at, Builder::Named(path), parts.take())
}

/// `PatName = UpperPath`
pub fn pattern_name(alloc: Global, parts: Meanings) -> Result<Meaning, AllocError>
    ensures { IfOk result (λ m. meaning_tree m ≡ pattern_name (meanings_tree parts)) }
{
    let mut parts = parts;
    let mut names = parts.group(alloc);
    let name = names.name(alloc);
    let path = upper_names(alloc, name.text, names.several(alloc))?;
    pattern_at(alloc, name.at, PatForm::Bare(Builder::Named(path)))
}

/// `PatWild = "_"`
pub fn pattern_wild(alloc: Global, parts: Meanings) -> Result<Meaning, AllocError>
    ensures { IfOk result (λ m. meaning_tree m ≡ pattern_wild (meanings_tree parts)) }
{
    let mut parts = parts;
    pattern_at(alloc, parts.at(), PatForm::Any)
}

/// `PatVariable = lower`
pub fn pattern_variable(alloc: Global, parts: Meanings) -> Result<Meaning, AllocError>
    ensures { IfOk result (λ m. meaning_tree m ≡ pattern_variable (meanings_tree parts)) }
{
    let mut parts = parts;
    let name = parts.name(alloc);
    pattern_at(alloc, name.at, PatForm::Bind(name.text))
}

/// `PatInt = int`
pub fn pattern_int(alloc: Global, parts: Meanings) -> Result<Meaning, AllocError>
    ensures { IfOk result (λ m. meaning_tree m ≡ pattern_int (meanings_tree parts)) }
{
    let mut parts = parts;
    let token = parts.token();
    pattern_at(alloc, token.at, PatForm::Int(false, number(&token.content)))
}

/// `PatNegative = "-" int`, which stands at the `-`.
pub fn pattern_negative(alloc: Global, parts: Meanings) -> Result<Meaning, AllocError>
    ensures { IfOk result (λ m. meaning_tree m ≡ pattern_negative (meanings_tree parts)) }
{
    let mut parts = parts;
    let at = parts.at();
    let token = parts.token();
    pattern_at(alloc, at, PatForm::Int(true, number(&token.content)))
}

/// `PatString = string`
pub fn pattern_string(alloc: Global, parts: Meanings) -> Result<Meaning, AllocError>
    ensures { IfOk result (λ m. meaning_tree m ≡ pattern_string (meanings_tree parts)) }
{
    let mut parts = parts;
    let name = parts.name(alloc);
    pattern_at(alloc, name.at, PatForm::Words(name.text))
}

/// `PatList = "[" "]"`
pub fn pattern_list(alloc: Global, parts: Meanings) -> Result<Meaning, AllocError>
    ensures { IfOk result (λ m. meaning_tree m ≡ pattern_list (meanings_tree parts)) }
{
    let mut parts = parts;
    let nil = Builder::Basis(BasisBuilder::Nil);
    pattern_at(alloc, parts.at(), PatForm::Bare(nil))
}

/// `PatClose = ")"`, `PatTyped = ":" Con ")"` or `PatTuple = "," Pat {PatComma} ")"`, behind a pattern in
/// parentheses.
fn closed(alloc: Global, at: u32, one: Meaning, end: Meanings) -> Result<Meaning, AllocError>
    ensures { IfOk result (λ m. meaning_tree m ≡ closed at (meaning_tree one) (meanings_tree end)) }
{
    let mut end = end;
    match leading(&end) {
        Kind::Colon => {
            end.skip();
            let pat = Box::new(alloc, pat_of(one))?;
            pattern_at(alloc, at, PatForm::Typed(pat, end.con()))
        }
        Kind::Comma => {
            let two = end.second();
            let form = tuple(alloc, one, two, end.several(alloc))?;
            pattern_at(alloc, at, form)
        }
        _ => Ok(Meaning::Pat(at, Box::new(alloc, pat_of(one))?)),
    }
}

/// `PatUnit = ")"` or `PatGroup = Pat PatParenEnd`, behind a parenthesis.
fn in_parens(alloc: Global, at: u32, rest: Meanings) -> Result<Meaning, AllocError>
    ensures { IfOk result (λ m. meaning_tree m ≡ in_parens at (meanings_tree rest)) }
{
    let mut rest = rest;
    match rest.take() {
        Meaning::Pat(start, pat) => closed(alloc, at, Meaning::Pat(start, pat), rest.group(alloc)),
        other => {
            drop(other);
            let items = Vec::new(alloc);
            pattern_at(alloc, at, PatForm::Rec(PatFields { items }, false))
        }
    }
}

/// `PatParens = "(" PatParenRest`
pub fn pattern_parens(alloc: Global, parts: Meanings) -> Result<Meaning, AllocError>
    ensures { IfOk result (λ m. meaning_tree m ≡ pattern_parens (meanings_tree parts)) }
{
    let mut parts = parts;
    let at = parts.at();
    in_parens(alloc, at, parts.group(alloc))
}

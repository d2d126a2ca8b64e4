//! What the rules of constructors stand for.
ghost use Rattle.std.specs.Prelude.{◌≡◌, IfOk};
ghost use Rattle.plain_tree.specs.ConView.{con_form_tree, con_tree};
ghost use Rattle.desugar_values.specs.Meanings.{a_con};
ghost use Rattle.desugar_values.specs.View.{meaning_tree, meanings_tree};
ghost use Rattle.desugar_types.specs.Constructors.{apply_value, con_at, fields_value, poly, group_end, hash_value, in_parens, is_implicit, lambda_value, lower, lower_tails, lower_value, other_value, parens_rest, parens_value, path_con, path_value, primary_value, product_value, record_value, row_value, sum_value, tuple, tuple_end, wild_value};

use crate::boxes::{boxed_con, two_of};
use crate::brackets::label_at;
use crate::lists::{add_cons, places};
use crate::paths::within;
use crate::rows::{field_types, row_fields};
use crate::tails::{applied, arrow, joined, product, projected, record, tails};
use desugar_values::{Meaning, Meanings, bare, characters, con_of, modules, start_of, word_of};
use plain_tree::{Con, ConForm, Cons, Path};
use std::alloc::{AllocError, Global};
use surface_tree::{Kind, Token};

/// A constructor, where its tree begins.
fn boxed(alloc: Global, start: u32, con: Con) -> Result<Meaning, AllocError>
    ensures { IfOk result (λ m. meaning_tree m ≡ a_con start (con_tree con)) }
{
    Ok(Meaning::Con(start, boxed_con(alloc, con)?))
}

/// A constructor that begins where its tree does.
fn con_at(alloc: Global, at: u32, form: ConForm) -> Result<Meaning, AllocError>
    ensures { IfOk result (λ m. meaning_tree m ≡ con_at at (con_form_tree form)) }
{
    boxed(alloc, at, Con { at, form })
}

/// `ConLambda = "fn" lower [KindMark] "=>" Con`; a kind that isn't written is Type.
pub fn con_lambda(alloc: Global, parts: Meanings) -> Result<Meaning, AllocError>
    ensures { IfOk result (λ m. meaning_tree m ≡ lambda_value (meanings_tree parts)) }
{
    let mut parts = parts;
    let at = parts.at();
    let name = characters(alloc, parts.token().content);
    let kind = parts.kind();
    match boxed_con(alloc, con_of(parts.second())) {
        Ok(body) => con_at(alloc, at, ConForm::Lambda(name, kind, body)),
        Err(full) => {
            drop(kind);
            Err(full)
        }
    }
}

/// Whether colons are three.
fn is_implicit(kind: Kind) -> bool
    ensures { result ≡ is_implicit kind }
{
    matches!(kind, Kind::TripleColon)
}

/// `ConExplicit = "::" KindAtom "->" Con`, and `ConImplicit` with `:::`, behind a name.
fn poly(alloc: Global, name: Token, parts: Meanings) -> Result<Con, AllocError>
    ensures { IfOk result (λ c. con_tree c ≡ poly name (meanings_tree parts)) }
{
    let mut parts = parts;
    let at = name.at;
    let implicit = is_implicit(parts.token().kind);
    let kind = parts.kind();
    let name = characters(alloc, name.content);
    match boxed_con(alloc, con_of(parts.second())) {
        Ok(body) => Ok(Con {
            at,
            form: ConForm::Poly(implicit, name, kind, body),
        }),
        Err(full) => {
            drop(kind);
            Err(full)
        }
    }
}

/// A lower-case name with what follows it.
fn lower_tails(alloc: Global, name: Token, parts: Meanings) -> Result<Con, AllocError>
    ensures { IfOk result (λ c. con_tree c ≡ lower_tails name (meanings_tree parts)) }
{
    let at = name.at;
    let con = Con {
        at,
        form: ConForm::Name(bare(alloc, characters(alloc, name.content))),
    };
    tails(alloc, at, con, parts)
}

/// A lower-case name, `[ConForall]` behind it, and what follows both.
fn lower(alloc: Global, name: Token, mark: Meaning, parts: Meanings) -> Result<Con, AllocError>
    ensures { IfOk result (λ c. con_tree c ≡ lower name (meaning_tree mark) (meanings_tree parts)) }
{
    match mark {
        Meaning::Group(mark) => poly(alloc, name, mark),
        other => {
            drop(other);
            lower_tails(alloc, name, parts)
        }
    }
}

/// `ConLower = lower [ConForall] {ConIndex} {ConTerm} {ConConcat} {ConTimes} [ConArrow]`
pub fn con_lower(alloc: Global, parts: Meanings) -> Result<Meaning, AllocError>
    ensures { IfOk result (λ m. meaning_tree m ≡ lower_value (meanings_tree parts)) }
{
    let mut parts = parts;
    let name = parts.token();
    let at = name.at;
    let mark = parts.take();
    boxed(alloc, at, lower(alloc, name, mark, parts)?)
}

/// `ConOther = ConProduct [ConArrow]`
pub fn con_other(alloc: Global, parts: Meanings) -> Result<Meaning, AllocError>
    ensures { IfOk result (λ m. meaning_tree m ≡ other_value (meanings_tree parts)) }
{
    let mut parts = parts;
    let first = parts.take();
    let start = start_of(&first);
    let con = arrow(alloc, start, con_of(first), parts.maybe_con())?;
    boxed(alloc, start, con)
}

/// `ConProduct = ConSum {ConTimes}`
pub fn con_product(alloc: Global, parts: Meanings) -> Result<Meaning, AllocError>
    ensures { IfOk result (λ m. meaning_tree m ≡ product_value (meanings_tree parts)) }
{
    let mut parts = parts;
    let first = parts.take();
    let start = start_of(&first);
    let con = product(alloc, start, con_of(first), parts.several(alloc))?;
    boxed(alloc, start, con)
}

/// `ConSum = ConApply {ConConcat}`
pub fn con_sum(alloc: Global, parts: Meanings) -> Result<Meaning, AllocError>
    ensures { IfOk result (λ m. meaning_tree m ≡ sum_value (meanings_tree parts)) }
{
    let mut parts = parts;
    let first = parts.take();
    let start = start_of(&first);
    let con = joined(alloc, start, con_of(first), parts.several(alloc))?;
    boxed(alloc, start, con)
}

/// `ConApply = ConTerm {ConTerm}`
pub fn con_apply(alloc: Global, parts: Meanings) -> Result<Meaning, AllocError>
    ensures { IfOk result (λ m. meaning_tree m ≡ apply_value (meanings_tree parts)) }
{
    let mut parts = parts;
    let first = parts.take();
    let start = start_of(&first);
    let con = applied(alloc, start, con_of(first), parts.several(alloc))?;
    boxed(alloc, start, con)
}

/// `ConRecord = "$" {ConDollar} ConPrimary`
pub fn con_record(alloc: Global, parts: Meanings) -> Result<Meaning, AllocError>
    ensures { IfOk result (λ m. meaning_tree m ≡ record_value (meanings_tree parts)) }
{
    let mut parts = parts;
    let at = parts.at();
    let more = places(alloc, parts.several(alloc).into_list())?;
    let con = boxed_con(alloc, parts.con())?;
    con_at(alloc, at, ConForm::Record(more, con))
}

/// `ConPrimary = ConAtom {ConIndex}`
pub fn con_primary(alloc: Global, parts: Meanings) -> Result<Meaning, AllocError>
    ensures { IfOk result (λ m. meaning_tree m ≡ primary_value (meanings_tree parts)) }
{
    let mut parts = parts;
    let first = parts.take();
    let start = start_of(&first);
    let con = projected(alloc, start, con_of(first), parts.several(alloc))?;
    boxed(alloc, start, con)
}

/// A path as a constructor.
fn path_con(alloc: Global, parts: Meanings) -> Result<Meaning, AllocError>
    ensures { IfOk result (λ m. meaning_tree m ≡ path_con (meanings_tree parts)) }
{
    let mut parts = parts;
    let mut upper = parts.several(alloc).into_list();
    let token = parts.token();
    let at = token.at;
    let name = characters(alloc, token.content);
    match upper.pop_front() {
        None => con_at(alloc, at, ConForm::Name(bare(alloc, name))),
        Some(first) => {
            let at = start_of(&first);
            let outer = word_of(first);
            let modules = modules(alloc, Meanings { items: upper })?;
            let path = within(alloc, outer, Path { modules, name })?;
            con_at(alloc, at, ConForm::Name(path))
        }
    }
}

/// `ConPath = Path`
pub fn con_path(alloc: Global, parts: Meanings) -> Result<Meaning, AllocError>
    ensures { IfOk result (λ m. meaning_tree m ≡ path_value (meanings_tree parts)) }
{
    let mut parts = parts;
    path_con(alloc, parts.group(alloc))
}

/// `ConWild = "_"`
pub fn con_wild(alloc: Global, parts: Meanings) -> Result<Meaning, AllocError>
    ensures { IfOk result (λ m. meaning_tree m ≡ wild_value (meanings_tree parts)) }
{
    let mut parts = parts;
    let at = parts.at();
    con_at(alloc, at, ConForm::Wild)
}

/// `ConHash = "#" HashName`
pub fn con_hash(alloc: Global, parts: Meanings) -> Result<Meaning, AllocError>
    ensures { IfOk result (λ m. meaning_tree m ≡ hash_value (meanings_tree parts)) }
{
    let mut parts = parts;
    let at = parts.at();
    boxed(alloc, at, label_at(alloc, at, parts.token()))
}

/// A tuple's first constructor and `Con {ConComma} ")"`, behind the first comma.
fn tuple(alloc: Global, at: u32, first: Con, parts: Meanings) -> Result<Con, AllocError>
    ensures { IfOk result (λ c. con_tree c ≡ tuple at (con_tree first) (meanings_tree parts)) }
{
    let mut parts = parts;
    let items = two_of(alloc, first, parts.con())?;
    let items = add_cons(items, parts.several(alloc).into_list())?;
    Ok(Con {
        at,
        form: ConForm::Tuple(Cons { items }),
    })
}

/// A constructor in brackets, with `ConTuple = "," Con {ConComma} ")"` or `ConClose = ")"` by its word's kind.
fn tuple_end(
    alloc: Global,
    at: u32,
    con: Con,
    kind: Kind,
    parts: Meanings,
) -> Result<Con, AllocError>
    ensures { IfOk result (λ c. con_tree c ≡ tuple_end at (con_tree con) kind (meanings_tree parts)) }
{
    match kind {
        Kind::Comma => tuple(alloc, at, con, parts),
        _ => Ok(con),
    }
}

/// A constructor in brackets by what ends it: a kind, a tuple's further constructors, or the bracket alone.
fn group_end(alloc: Global, at: u32, con: Con, end: Meaning) -> Result<Con, AllocError>
    ensures { IfOk result (λ c. con_tree c ≡ group_end at (con_tree con) (meaning_tree end)) }
{
    match end {
        Meaning::Kind(kind) => {
            let con = boxed_con(alloc, con)?;
            Ok(Con {
                at,
                form: ConForm::Kinded(con, Box::into_inner(kind)),
            })
        }
        Meaning::Group(parts) => {
            let mut parts = parts;
            let kind = parts.token().kind;
            tuple_end(alloc, at, con, kind, parts)
        }
        other => {
            drop(other);
            Ok(con)
        }
    }
}

/// `ConGroup = Con ConParenEnd`, or `ConUnit = ")"`, by their first two parts.
fn parens_rest(alloc: Global, at: u32, first: Meaning, end: Meaning) -> Result<Con, AllocError>
    ensures { IfOk result (λ c. con_tree c ≡ parens_rest at (meaning_tree first) (meaning_tree end)) }
{
    match first {
        Meaning::Con(_, con) => group_end(alloc, at, Box::into_inner(con), end),
        other => {
            drop(other);
            drop(end);
            Ok(Con {
                at,
                form: ConForm::Unit,
            })
        }
    }
}

/// What stands behind an opening bracket.
fn in_parens(alloc: Global, at: u32, parts: Meanings) -> Result<Con, AllocError>
    ensures { IfOk result (λ c. con_tree c ≡ in_parens at (meanings_tree parts)) }
{
    let mut parts = parts;
    let first = parts.take();
    parens_rest(alloc, at, first, parts.take())
}

/// `ConParens = "(" ConParenRest`
pub fn con_parens(alloc: Global, parts: Meanings) -> Result<Meaning, AllocError>
    ensures { IfOk result (λ m. meaning_tree m ≡ parens_value (meanings_tree parts)) }
{
    let mut parts = parts;
    let at = parts.at();
    let con = in_parens(alloc, at, parts.group(alloc))?;
    boxed(alloc, at, con)
}

/// `ConFields = "{" [ConFieldTypes] "}"`
pub fn con_fields(alloc: Global, parts: Meanings) -> Result<Meaning, AllocError>
    ensures { IfOk result (λ m. meaning_tree m ≡ fields_value (meanings_tree parts)) }
{
    let mut parts = parts;
    let at = parts.at();
    let fields = field_types(alloc, parts.take())?;
    boxed(alloc, at, record(alloc, at, fields)?)
}

/// `ConRow = "[" [ConRowFields] "]"`
pub fn con_row(alloc: Global, parts: Meanings) -> Result<Meaning, AllocError>
    ensures { IfOk result (λ m. meaning_tree m ≡ row_value (meanings_tree parts)) }
{
    let mut parts = parts;
    let at = parts.at();
    let fields = row_fields(alloc, parts.take())?;
    con_at(alloc, at, ConForm::Row(fields))
}

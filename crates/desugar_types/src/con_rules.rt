//! Which function makes what a rule of kinds or of constructors stands for.
ghost use Rattle.std.specs.Prelude.{◌≡◌, IfOk};
ghost use Rattle.desugar_values.specs.View.{meaning_tree, meanings_tree};
ghost use Rattle.desugar_types.specs.ConRules.{con_part, con_value, kind_value};

use crate::brackets::con_bracket;
use crate::constructors::{
    con_apply, con_fields, con_hash, con_lambda, con_lower, con_other, con_parens, con_path,
    con_primary, con_product, con_record, con_row, con_sum, con_wild,
};
use crate::kinds::{a_kind, kind_row, kind_term, kind_tuple};
use con_terms::Kind;
use desugar_values::{Meaning, Meanings};
use std::alloc::{AllocError, Global};
use surface_grammar::{ConRule, KindRule};

/// What a rule of kinds stands for, by what its parts stand for.
pub fn build_kind(alloc: Global, rule: KindRule, parts: Meanings) -> Result<Meaning, AllocError>
    ensures { IfOk result (λ m. meaning_tree m ≡ kind_value rule (meanings_tree parts)) }
{
    let mut parts = parts;
    match rule {
        KindRule::KindTerm => kind_term(alloc, parts),
        KindRule::KindType => a_kind(alloc, Kind::Types),
        KindRule::KindUnit => a_kind(alloc, Kind::Units),
        KindRule::KindName => a_kind(alloc, Kind::Names),
        KindRule::KindRow => kind_row(alloc, parts),
        KindRule::KindTuple => kind_tuple(alloc, parts),
        KindRule::KindArrow | KindRule::KindTimes | KindRule::KindMark => Ok(parts.second()),
    }
}

/// What a rule of constructors stands for that stands for its first part or its second one, or is a group.
fn con_part(rule: ConRule, parts: Meanings) -> Meaning
    ensures { meaning_tree result ≡ con_part rule (meanings_tree parts) }
{
    let mut parts = parts;
    match rule {
        ConRule::ConPlain
        | ConRule::ConDollar
        | ConRule::HashUpper
        | ConRule::HashInt
        | ConRule::FieldUpper
        | ConRule::FieldInt
        | ConRule::FieldLower
        | ConRule::UpperDot
        | ConRule::BracketOpen => parts.take(),
        ConRule::ConArrow
        | ConRule::ConTimes
        | ConRule::ConConcat
        | ConRule::ConIndex
        | ConRule::ConMarked
        | ConRule::ConComma
        | ConRule::ConFieldValue => parts.second(),
        _ => Meaning::Group(parts),
    }
}

/// What a rule of constructors stands for, by what its parts stand for.
pub fn build_con(alloc: Global, rule: ConRule, parts: Meanings) -> Result<Meaning, AllocError>
    ensures { IfOk result (λ m. meaning_tree m ≡ con_value rule (meanings_tree parts)) }
{
    match rule {
        ConRule::ConLambda => con_lambda(alloc, parts),
        ConRule::ConLower => con_lower(alloc, parts),
        ConRule::ConBracket => con_bracket(alloc, parts),
        ConRule::ConOther => con_other(alloc, parts),
        ConRule::ConProduct => con_product(alloc, parts),
        ConRule::ConSum => con_sum(alloc, parts),
        ConRule::ConApply => con_apply(alloc, parts),
        ConRule::ConRecord => con_record(alloc, parts),
        ConRule::ConPrimary => con_primary(alloc, parts),
        ConRule::ConPath => con_path(alloc, parts),
        ConRule::ConWild => con_wild(alloc, parts),
        ConRule::ConHash => con_hash(alloc, parts),
        ConRule::ConParens => con_parens(alloc, parts),
        ConRule::ConFields => con_fields(alloc, parts),
        ConRule::ConRow => con_row(alloc, parts),
        _ => Ok(con_part(rule, parts)),
    }
}

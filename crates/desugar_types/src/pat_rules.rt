//! Which function makes what a rule of patterns stands for.
ghost use Rattle.std.specs.Prelude.{◌≡◌, IfOk};
ghost use Rattle.desugar_values.specs.View.{meaning_tree, meanings_tree};
ghost use Rattle.desugar_types.specs.PatRules.{pat_value};

use crate::pat_records::{field_named, pattern_record};
use crate::patterns::{
    pattern, pattern_constructor, pattern_int, pattern_list, pattern_name, pattern_negative,
    pattern_parens, pattern_string, pattern_variable, pattern_wild,
};
use desugar_values::{Meaning, Meanings};
use std::alloc::{AllocError, Global};
use surface_grammar::PatRule;

/// What a rule of patterns stands for, given what its parts stand for.
pub fn build_pat(alloc: Global, rule: PatRule, parts: Meanings) -> Result<Meaning, AllocError>
    ensures { IfOk result (λ m. meaning_tree m ≡ pat_value rule (meanings_tree parts)) }
{
    let mut parts = parts;
    match rule {
        PatRule::Pat => pattern(alloc, parts),
        PatRule::PatConstructor => pattern_constructor(alloc, parts),
        PatRule::PatWild => pattern_wild(alloc, parts),
        PatRule::PatVariable => pattern_variable(alloc, parts),
        PatRule::PatInt => pattern_int(alloc, parts),
        PatRule::PatNegative => pattern_negative(alloc, parts),
        PatRule::PatString => pattern_string(alloc, parts),
        PatRule::PatName => pattern_name(alloc, parts),
        PatRule::PatList => pattern_list(alloc, parts),
        PatRule::PatParens => pattern_parens(alloc, parts),
        PatRule::PatRecord => pattern_record(alloc, parts),
        PatRule::PatFieldNamed => field_named(alloc, parts),
        PatRule::PatFieldDots => Ok(Meaning::Several(parts)),
        PatRule::PatPlain => Ok(parts.take()),
        PatRule::PatCons | PatRule::DotUpper => Ok(parts.second()),
        PatRule::PatComma | PatRule::PatFieldMore => Ok(parts.second()),
        _ => Ok(Meaning::Group(parts)),
    }
}

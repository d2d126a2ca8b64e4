//! What the rules of the grammar stand for.
ghost use Rattle.std.specs.Prelude.{◌≡◌, IfOk};
ghost use Rattle.desugar_values.specs.View.{meaning_tree, meanings_tree};
ghost use Rattle.desugar.specs.Plain.{built};

use desugar_terms::{build_decl, build_markup, build_term};
use desugar_types::{build_con, build_kind, build_pat};
use desugar_values::{Meaning, Meanings};
use std::alloc::{AllocError, Global};
use surface_grammar::Rule;

/// What a rule stands for, by what its parts stand for.
pub fn build(alloc: Global, rule: Rule, parts: Meanings) -> Result<Meaning, AllocError>
    ensures { IfOk result (λ m. meaning_tree m ≡ built rule (meanings_tree parts)) }
{
    match rule {
        Rule::Kind(rule) => build_kind(alloc, rule, parts),
        Rule::Con(rule) => build_con(alloc, rule, parts),
        Rule::Pat(rule) => build_pat(alloc, rule, parts),
        Rule::Exp(rule) => build_term(alloc, rule, parts),
        Rule::Markup(rule) => build_markup(alloc, rule, parts),
        Rule::Decl(rule) => Ok(build_decl(rule, parts)),
        Rule::Arg(_) | Rule::Sql(_) => Ok(Meaning::Group(parts)),
    }
}

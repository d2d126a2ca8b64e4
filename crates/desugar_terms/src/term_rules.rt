//! The rules of terms.
ghost use Rattle.std.specs.Prelude.{◌≡◌, IfOk};
ghost use Rattle.desugar_values.specs.View.{meaning_tree, meanings_tree};
ghost use Rattle.desugar_terms.specs.TermRules.{exp_value, part_value};

use crate::actions::{exp_bind, exp_plain, term_lambda};
use crate::atom_rules::build_atom;
use crate::branches::{term_case, term_if};
use crate::calls::apply;
use crate::chains::chain;
use crate::operators::{compare, cons, sign_minus};
use desugar_values::{Meaning, Meanings};
use std::alloc::{AllocError, Global};
use surface_grammar::ExpRule;

/// A rule that stands for one of its parts, or one of operands and atoms.
fn build_part(alloc: Global, rule: ExpRule, parts: Meanings) -> Result<Meaning, AllocError>
    ensures { IfOk result (λ m. meaning_tree m ≡ part_value rule (meanings_tree parts)) }
{
    let mut parts = parts;
    match rule {
        ExpRule::TermOr
        | ExpRule::BodyOr
        | ExpRule::CaseBar
        | ExpRule::SignNone
        | ExpRule::AtomTerm
        | ExpRule::AnyLower
        | ExpRule::AnyUpper
        | ExpRule::ArgumentTerm => Ok(parts.take()),
        ExpRule::Dot | ExpRule::ExpComma => Ok(parts.second()),
        _ => build_atom(alloc, rule, parts),
    }
}

/// What a rule of expressions stands for, given what its parts stand for.
pub fn build_term(alloc: Global, rule: ExpRule, parts: Meanings) -> Result<Meaning, AllocError>
    ensures { IfOk result (λ m. meaning_tree m ≡ exp_value rule (meanings_tree parts)) }
{
    match rule {
        ExpRule::ExpBind => exp_bind(alloc, parts),
        ExpRule::ExpPlain => exp_plain(alloc, parts),
        ExpRule::TermLambda => term_lambda(alloc, parts),
        ExpRule::TermCase => term_case(alloc, parts),
        ExpRule::TermIf | ExpRule::BodyIf => term_if(alloc, parts),
        ExpRule::Or
        | ExpRule::And
        | ExpRule::Join
        | ExpRule::Sum
        | ExpRule::Product
        | ExpRule::Cut => chain(alloc, parts),
        ExpRule::Compare => compare(alloc, parts),
        ExpRule::Cons => cons(alloc, parts),
        ExpRule::SignMinus => sign_minus(alloc, parts),
        ExpRule::Apply => apply(alloc, parts),
        _ => build_part(alloc, rule, parts),
    }
}

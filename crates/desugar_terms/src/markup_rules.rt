//! The rules of markup.
ghost use Rattle.std.specs.Prelude.{◌≡◌, IfOk};
ghost use Rattle.desugar_values.specs.View.{meaning_tree, meanings_tree};
ghost use Rattle.desugar_terms.specs.MarkupRules.{markup_value};

use crate::atoms::{int_term, string_term};
use crate::markup::{node_brace, node_text, whole_element};
use desugar_values::{Meaning, Meanings};
use std::alloc::{AllocError, Global};
use surface_grammar::MarkupRule;

/// What a rule of markup stands for, given what its parts stand for.
pub fn build_markup(alloc: Global, rule: MarkupRule, parts: Meanings) -> Result<Meaning, AllocError>
    ensures { IfOk result (λ m. meaning_tree m ≡ markup_value rule (meanings_tree parts)) }
{
    let mut parts = parts;
    match rule {
        MarkupRule::NodeText => node_text(alloc, parts),
        MarkupRule::NodeBrace => node_brace(alloc, parts),
        MarkupRule::NodeElement => whole_element(alloc, parts),
        MarkupRule::TagName => Ok(parts.second()),
        MarkupRule::AttributeString => string_term(alloc, parts),
        MarkupRule::AttributeInt => int_term(alloc, parts),
        MarkupRule::AttributeExp => Ok(parts.second()),
        _ => Ok(Meaning::Group(parts)),
    }
}

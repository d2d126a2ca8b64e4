//! The rules of operands and atoms.
ghost use Rattle.std.specs.Prelude.{◌≡◌, IfOk};
ghost use Rattle.desugar_values.specs.View.{meaning_tree, meanings_tree};
ghost use Rattle.desugar_terms.specs.AtomRules.{atom_value};

use crate::atoms::{int_term, let_term, string_term, xml_empty, xml_term};
use crate::groups::parens;
use crate::operands::{atom_list, operand};
use crate::records::record_term;
use desugar_values::{Meaning, Meanings};
use std::alloc::{AllocError, Global};
use surface_grammar::ExpRule;

/// What a rule of operands and atoms stands for, given what its parts stand for.
pub fn build_atom(alloc: Global, rule: ExpRule, parts: Meanings) -> Result<Meaning, AllocError>
    ensures { IfOk result (λ m. meaning_tree m ≡ atom_value rule (meanings_tree parts)) }
{
    match rule {
        ExpRule::AtomList => atom_list(alloc, parts),
        ExpRule::Operand => operand(alloc, parts),
        ExpRule::PrimaryInt => int_term(alloc, parts),
        ExpRule::PrimaryString => string_term(alloc, parts),
        ExpRule::PrimaryParens => parens(alloc, parts),
        ExpRule::PrimaryRecord => record_term(alloc, parts),
        ExpRule::PrimaryLet => let_term(alloc, parts),
        ExpRule::PrimaryXmlEmpty => xml_empty(alloc, parts),
        ExpRule::PrimaryXml => xml_term(alloc, parts),
        _ => Ok(Meaning::Group(parts)),
    }
}

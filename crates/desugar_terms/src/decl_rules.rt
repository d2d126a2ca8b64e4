//! What the rules of declarations stand for.
ghost use Rattle.std.specs.Prelude.{◌≡◌};
ghost use Rattle.desugar_values.specs.View.{meaning_tree, meanings_tree};
ghost use Rattle.desugar_terms.specs.DeclRules.{decl_value};

use desugar_values::{Meaning, Meanings};
use surface_grammar::DeclRule;

/// What a rule's tree stands for, from what its parts stand for.
pub fn build_decl(rule: DeclRule, parts: Meanings) -> Meaning
    ensures { meaning_tree result ≡ decl_value rule (meanings_tree parts) }
{
    let mut parts = parts;
    match rule {
        DeclRule::Parameter | DeclRule::KeyList => parts.take(),
        DeclRule::ConstructorOf | DeclRule::ConstructorMore | DeclRule::ColumnMore =>
            parts.second(),
        _ => Meaning::Group(parts),
    }
}

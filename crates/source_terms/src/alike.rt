//! Whether two lists are alike, place by place.
ghost use Rattle.std.specs.Prelude.{◌≡◌, bytes_eq, nat_eq};
ghost use Rattle.core_terms.specs.Lists.{foreigns_view, rules_view};
ghost use Rattle.core_terms.specs.View.{foreign_view, rule_view};
ghost use Rattle.row_normal.specs.SameTree.{flag_eq};
ghost use Rattle.source_terms.specs.Alike.{each, effect_eq, rule_eq};

use core_terms::{ForeignName, Foreigns, Rule, Rules};
use table_rows::{Text, Texts};

/// Whether two texts are one.
pub fn same_text(a: &Text, b: &Text) -> bool
    ensures { result ≡ bytes_eq a.now b.now }
{
    a.as_str() == b.as_str()
}

/// Whether two lists of texts are one.
#[tactic(auto, using(crate::proofs::Each::lists_differ))]
pub fn same_texts(a: &Texts, b: &Texts) -> bool
    ensures { result ≡ each bytes_eq a.now b.now }
{
    if a.len() != b.len() {
        return false;
    }
    for i in 0..a.len() {
        if !same_text(a.at(i), b.at(i)) {
            return false;
        }
    }
    true
}

/// Whether two lists of numbers are one.
#[tactic(auto, using(crate::proofs::Each::lists_differ))]
pub fn same_numbers(a: &[u32], b: &[u32]) -> bool
    ensures { result ≡ each nat_eq a.now b.now }
{
    if a.len() != b.len() {
        return false;
    }
    for i in 0..a.len() {
        if a[i] != b[i] {
            return false;
        }
    }
    true
}

/// Whether two foreign effects are one.
fn same_effect(a: &ForeignName, b: &ForeignName) -> bool
    ensures { result ≡ effect_eq (foreign_view a.now) (foreign_view b.now) }
{
    same_text(&a.module, &b.module) && same_text(&a.name, &b.name)
}

/// Whether two lists of foreign effects are one.
#[tactic(auto, using(crate::proofs::Each::views_differ))]
pub fn same_effects(a: &Foreigns, b: &Foreigns) -> bool
    ensures { result ≡ each effect_eq (foreigns_view a.now) (foreigns_view b.now) }
{
    if a.items.len() != b.items.len() {
        return false;
    }
    for i in 0..a.items.len() {
        if !same_effect(&a.items[i], &b.items[i]) {
            return false;
        }
    }
    true
}

/// Whether two flags are one.
fn same_flag(a: bool, b: bool) -> bool
    ensures { result ≡ flag_eq a b }
{
    if a { b } else { !b }
}

/// Whether two rules are one.
fn same_rule(a: &Rule, b: &Rule) -> bool
    ensures { result ≡ rule_eq (rule_view a.now) (rule_view b.now) }
{
    same_flag(a.allow, b.allow) && same_text(&a.pattern, &b.pattern)
}

/// Whether two lists of rules are one.
#[tactic(auto, using(crate::proofs::Each::views_differ))]
pub fn same_rules(a: &Rules, b: &Rules) -> bool
    ensures { result ≡ each rule_eq (rules_view a.now) (rules_view b.now) }
{
    if a.items.len() != b.items.len() {
        return false;
    }
    for i in 0..a.items.len() {
        if !same_rule(&a.items[i], &b.items[i]) {
            return false;
        }
    }
    true
}

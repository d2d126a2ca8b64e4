//! What is left of terms and of calls when what was inserted is dropped. Nothing is copied: what was inserted is
//! passed.
ghost use Rattle.std.specs.Prelude.{◌≡◌, option_map};
ghost use Rattle.core_terms.specs.Lists.{branch_tree, item_tree};
ghost use Rattle.core_terms.specs.Strip.{strip, strip_items};
ghost use Rattle.core_terms.specs.View.{branches_tree, exp_tree, form_tree, items_tree};
ghost use Rattle.source_terms.specs.Leaves.{form_of};
ghost use Rattle.source_terms.specs.Left as specs;
ghost use Rattle.source_terms.specs.Parts as parts;

use core_terms::{Branch, Branches, ConOrigin, Exp, Form, Item, Items, Sigil};

/// Whether an item of a call was written.
pub fn is_left(item: &Item) -> bool
    ensures { result ≡ specs.is_left (item_tree item.now) }
{
    match item {
        Item::Term(x) => !x.added,
        Item::Con(_, origin, _) => !matches!(origin, ConOrigin::Inserted),
        Item::Guard(_, added) => !*added,
    }
}

/// Whether no item of a call was written.
pub fn none_left(items: &Items) -> bool
    ensures { result ≡ specs.is_empty (strip_items (items_tree items.now)) }
{
    for i in 0..items.items.len() {
        if is_left(&items.items[i]) {
            return false;
        }
    }
    true
}

/// Whether of a call only the head is left.
fn is_alone(sigil: Sigil, items: &Items) -> bool
    ensures { result ≡ specs.is_alone sigil (strip_items (items_tree items.now)) }
{
    match sigil {
        Sigil::Plain => none_left(items),
        Sigil::At | Sigil::AtAt => false,
    }
}

/// What a term is when what was inserted is dropped: of a call of which only the head is left, that is what the
/// head is.
pub fn standing<'x>(x: &'x Exp) -> &'x Form
    ensures { specs.left (form_tree result.now) ≡ form_of (strip (exp_tree x.now)) }
{
    let mut x = x;
    loop {
        match &x.form {
            Form::Call(head, sigil, items) => {
                if !is_alone(*sigil, items) {
                    return &x.form;
                }
                x = head;
            }
            _ => return &x.form,
        }
    }
}

/// How many items of a call are left.
fn count_left(items: &Items) -> usize
    ensures { result ≡ parts.count (strip_items (items_tree items.now)) }
{
    let mut count = 0;
    for i in 0..items.items.len() {
        if is_left(&items.items[i]) {
            count += 1;
        }
    }
    count
}

/// An item as a term, where it is one.
fn as_term<'x>(item: &'x Item) -> Option<&'x Exp>
    ensures { option_map (λ x. strip (exp_tree x.now)) result ≡ parts.term_of (item_tree item.now) }
{
    match item {
        Item::Term(x) => Some(x),
        _ => None,
    }
}

/// The item at a place among those that are left, where it is a term.
fn term_left<'x>(items: &'x Items, place: usize) -> Option<&'x Exp>
    ensures { option_map (λ x. strip (exp_tree x.now)) result
        ≡ parts.term_at place (strip_items (items_tree items.now)) }
{
    let mut before = place;
    for i in 0..items.items.len() {
        if is_left(&items.items[i]) {
            if before == 0 {
                return as_term(&items.items[i]);
            }
            before -= 1;
        }
    }
    None
}

/// The only item that is left, if it is a term.
pub fn one_left<'x>(items: &'x Items) -> Option<&'x Exp>
    ensures { option_map (λ x. strip (exp_tree x.now)) result
        ≡ parts.one_term (strip_items (items_tree items.now)) }
{
    if count_left(items) != 1 {
        return None;
    }
    term_left(items, 0)
}

/// Two terms.
#[derive(Clone, Copy, Drop)]
pub struct Two<'x> {
    pub first: &'x Exp,
    pub second: &'x Exp,
}

/// The two items that are left, if there are two, and they are terms.
pub fn two_left<'x>(items: &'x Items) -> Option<Two<'x>>
    ensures { option_map (λ t. (strip (exp_tree t.first.now), strip (exp_tree t.second.now))) result
        ≡ parts.two_terms (strip_items (items_tree items.now)) }
{
    if count_left(items) != 2 {
        return None;
    }
    match term_left(items, 0) {
        None => None,
        Some(first) => match term_left(items, 1) {
            None => None,
            Some(second) => Some(Two { first, second }),
        },
    }
}

/// The only one of branches.
pub fn only_branch<'x>(branches: &'x Branches) -> Option<&'x Branch>
    ensures { option_map (λ b. branch_tree b.now) result ≡ parts.one_branch (branches_tree branches.now) }
{
    if branches.items.len() == 1 {
        branches.items.first()
    } else {
        None
    }
}

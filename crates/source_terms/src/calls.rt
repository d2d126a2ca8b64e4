//! Names alone, and calls.
ghost use Rattle.std.specs.Prelude.{◌≡◌, ◌&&◌, IfOk};
ghost use Rattle.core_terms.specs.Lists.{item_tree};
ghost use Rattle.core_terms.specs.Strip.{strip, strip_items};
ghost use Rattle.core_terms.specs.View.{exp_tree, form_tree, items_tree};
ghost use Rattle.plain_tree.specs.ExpView as plain;
ghost use Rattle.plain_tree.specs.Trees.{exp_builder, exp_name};
ghost use Rattle.source_names.specs.View.{scope_view};
ghost use Rattle.source_terms.specs.Leaves.{form_of};
ghost use Rattle.source_terms.specs.Left.{left};
ghost use Rattle.source_terms.specs.Parts.{reads_call, reads_head, reads_item};
ghost use Rattle.source_terms.specs.Tasks.{all_read};
ghost use Rattle.source_terms.specs.Terms.{reads_form, reads_items};

use crate::forms::{is_built, is_given, is_value};
use crate::leaves::is_sigil;
use crate::standing::{is_left, none_left, standing};
use crate::tasks::{Task, ask};
use core_terms::{Exp, Form, Item, Items};
use plain_tree::{Path, Sigil};
use source_names::Here;
use std::alloc::{AllocError, Global};

/// `M.x`, `@M.x`, `@@M.x`
#[inline(never)]
pub fn is_name_alone(s: &Here<'_>, sigil: Sigil, p: &Path, f: &Form) -> Result<bool, AllocError>
    ensures { IfOk result
        (λ b. b ≡ reads_form (scope_view s.now) (exp_name sigil p.now) (left (form_tree f.now))) }
{
    match sigil {
        Sigil::Nothing => is_value(s, p, f),
        Sigil::At | Sigil::AtAt => match f {
            Form::Call(head, found, items) => {
                if !is_sigil(sigil, *found) {
                    return Ok(false);
                }
                if !none_left(items) {
                    return Ok(false);
                }
                is_value(s, p, standing(head))
            }
            _ => Ok(false),
        },
    }
}

/// `M.X`, `@M.X`, `@@M.X`
#[inline(never)]
pub fn is_builder_alone(s: &Here<'_>, sigil: Sigil, p: &Path, f: &Form) -> Result<bool, AllocError>
    ensures { IfOk result
        (λ b. b ≡ reads_form (scope_view s.now) (exp_builder sigil p.now) (left (form_tree f.now))) }
{
    match sigil {
        Sigil::Nothing => is_built(s, p, f),
        Sigil::At | Sigil::AtAt => match f {
            Form::Call(head, found, items) => {
                if !is_sigil(sigil, *found) {
                    return Ok(false);
                }
                if !none_left(items) {
                    return Ok(false);
                }
                is_built(s, p, standing(head))
            }
            _ => Ok(false),
        },
    }
}

/// A term with what it is applied to.
#[inline(never)]
pub fn is_call<'a, 'p>(
    alloc: Global,
    s: &Here<'p>,
    head: &'a plain_tree::Exp,
    items: &'a plain_tree::Items,
    f: &'a Form,
    tasks: &mut Vec<Task<'a, 'p>>,
) -> Result<bool, AllocError>
    ensures { IfOk result
        (λ b. (b && all_read tasks.new.items)
        ≡ (reads_call (scope_view s.now) (plain.exp_tree head.now) (plain.items_tree items.now)
        (left (form_tree f.now))
        && all_read tasks.old.items)) }
{
    match f {
        Form::Call(g, sigil, given) => Ok(is_applied(
            alloc, s, head, items, *sigil, g, given, tasks,
        )?),
        _ => Ok(false),
    }
}

/// What a call begins with, and what it is applied to.
fn is_applied<'a, 'p>(
    alloc: Global,
    s: &Here<'p>,
    head: &'a plain_tree::Exp,
    items: &'a plain_tree::Items,
    sigil: core_terms::Sigil,
    g: &'a Exp,
    given: &'a Items,
    tasks: &mut Vec<Task<'a, 'p>>,
) -> Result<bool, AllocError>
    ensures { IfOk result
        (λ b. (b && all_read tasks.new.items)
        ≡ ((reads_head (scope_view s.now) (plain.exp_tree head.now) sigil (form_of (strip (exp_tree g.now)))
        && reads_items (scope_view s.now) (plain.items_tree items.now) (strip_items (items_tree given.now)))
        && all_read tasks.old.items)) }
{
    if !is_head(alloc, s, head, sigil, g, tasks)? {
        return Ok(false);
    }
    let found = are_items(alloc, s, items, given, tasks)?;
    Ok(found)
}

/// What a call begins with.
#[inline(never)]
fn is_head<'a, 'p>(
    alloc: Global,
    s: &Here<'p>,
    head: &'a plain_tree::Exp,
    sigil: core_terms::Sigil,
    x: &'a Exp,
    tasks: &mut Vec<Task<'a, 'p>>,
) -> Result<bool, AllocError>
    ensures { IfOk result
        (λ b. (b && all_read tasks.new.items)
        ≡ (reads_head (scope_view s.now) (plain.exp_tree head.now) sigil (form_of (strip (exp_tree x.now)))
        && all_read tasks.old.items)) }
{
    match &head.form {
        plain_tree::Form::Name(written, p) => {
            if !is_sigil(*written, sigil) {
                return Ok(false);
            }
            Ok(is_value(s, p, standing(x))?)
        }
        plain_tree::Form::Builder(written, p) => {
            if !is_sigil(*written, sigil) {
                return Ok(false);
            }
            Ok(is_built(s, p, standing(x))?)
        }
        _ => match sigil {
            core_terms::Sigil::Plain => {
                ask(tasks, s, head, x)?;
                Ok(true)
            }
            core_terms::Sigil::At | core_terms::Sigil::AtAt => Ok(false),
        },
    }
}

/// What a call is applied to.
fn are_items<'a, 'p>(
    alloc: Global,
    s: &Here<'p>,
    items: &'a plain_tree::Items,
    given: &'a Items,
    tasks: &mut Vec<Task<'a, 'p>>,
) -> Result<bool, AllocError>
    ensures { IfOk result
        (λ b. (b && all_read tasks.new.items)
        ≡ (reads_items (scope_view s.now) (plain.items_tree items.now) (strip_items (items_tree given.now))
        && all_read tasks.old.items)) }
{
    let mut next = 0;
    for j in 0..given.items.len() {
        let found = &given.items[j];
        if is_left(found) {
            if next >= items.items.len() {
                return Ok(false);
            }
            if !is_item(alloc, s, &items.items[next], found, tasks)? {
                return Ok(false);
            }
            next += 1;
        }
    }
    Ok(next == items.items.len())
}

/// One item of a call.
#[inline(never)]
fn is_item<'a, 'p>(
    alloc: Global,
    s: &Here<'p>,
    item: &'a plain_tree::Item,
    given: &'a Item,
    tasks: &mut Vec<Task<'a, 'p>>,
) -> Result<bool, AllocError>
    ensures { IfOk result
        (λ b. (b && all_read tasks.new.items)
        ≡ (reads_item (scope_view s.now) (plain.item_tree item.now) (item_tree given.now)
        && all_read tasks.old.items)) }
{
    match item {
        plain_tree::Item::Term(e) => match given {
            Item::Term(x) => {
                ask(tasks, s, e, x)?;
                Ok(true)
            }
            Item::Con(_, _, _) | Item::Guard(_, _) => Ok(false),
        },
        plain_tree::Item::Con(_, c) => match given {
            Item::Con(_, origin, con) => Ok(is_given(alloc, s, c, *origin, con)?),
            Item::Term(_) | Item::Guard(_, _) => Ok(false),
        },
        plain_tree::Item::Guard(_) => match given {
            Item::Guard(_, _) => Ok(true),
            Item::Term(_) | Item::Con(_, _, _) => Ok(false),
        },
    }
}

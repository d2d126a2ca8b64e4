//! A term, and what follows it from left to right. The last link is the outermost, so that one is looked at first.
ghost use Rattle.std.specs.Prelude.{◌≡◌, ◌&&◌, Bool, IfOk};
ghost use Rattle.core_terms.specs.Strip.{strip};
ghost use Rattle.core_terms.specs.Trees.{Fo};
ghost use Rattle.core_terms.specs.View.{exp_tree, form_tree};
ghost use Rattle.plain_tree.specs.ExpView as plain;
ghost use Rattle.plain_tree.specs.Trees.{exp_chain};
ghost use Rattle.source_names.specs.View.{scope_view};
ghost use Rattle.source_terms.specs.Leaves.{form_of};
ghost use Rattle.source_terms.specs.Left.{left};
ghost use Rattle.source_terms.specs.Tasks.{all_read, at_before};
ghost use Rattle.source_terms.specs.Terms.{reads_and, reads_concat, reads_form, reads_infix, reads_link};
ghost use Rattle.source_terms.specs.Terms.{reads_operator, reads_or, reads_term};

use crate::forms::{is_bare_of, is_basis_builder, is_operator};
use crate::standing::{only_branch, standing, two_left};
use crate::tasks::{Task, ask};
use core_terms::{Exp, Form, Sigil};
use plain_tree::{BasisBuilder, Infix, Link, Links};
use source_names::{Here, reads_con};
use std::alloc::{AllocError, Global};

/// A term, and what follows it.
pub fn is_chain<'a, 'p>(
    alloc: Global,
    s: &Here<'p>,
    first: &'a plain_tree::Exp,
    links: &'a Links,
    x: &'a Exp,
    tasks: &mut Vec<Task<'a, 'p>>,
) -> Result<bool, AllocError>
    ensures { IfOk result
        (λ b. (b && all_read tasks.new.items)
        ≡ (reads_form (scope_view s.now) (exp_chain (plain.exp_tree first.now) (plain.links_tree links.now))
        (form_of (strip (exp_tree x.now))) && all_read tasks.old.items)) }
{
    let mut x = x;
    for i in 0..links.items.len() {
        let link = &links.items[links.items.len() - 1 - i];
        match left_of(alloc, s, link, standing(x), tasks)? {
            None => return Ok(false),
            Some(nearer) => x = nearer,
        }
    }
    ask(tasks, s, first, x)?;
    Ok(true)
}

/// What stands before a link, where the link is one of the source.
fn left_of<'a, 'p>(
    alloc: Global,
    s: &Here<'p>,
    link: &'a Link,
    f: &'a Form,
    tasks: &mut Vec<Task<'a, 'p>>,
) -> Result<Option<&'a Exp>, AllocError>
    ensures { IfOk result
        (λ o. (test : Fo → Bool) → (at_before o test && all_read tasks.new.items)
        ≡ (reads_link (scope_view s.now) (plain.link_tree link.now) test (left (form_tree f.now))
        && all_read tasks.old.items)) }
{
    match link {
        Link::Infix(_, op, e) => Ok(left_of_infix(s, *op, e, f, tasks)?),
        Link::Field(c) => match f {
            Form::Proj(x, d) => {
                if !reads_con(alloc, s, c, d)? {
                    return Ok(None);
                }
                Ok(Some(x))
            }
            _ => Ok(None),
        },
        Link::Without(_, c) => match f {
            Form::Drop(x, d) => {
                if !reads_con(alloc, s, c, d)? {
                    return Ok(None);
                }
                Ok(Some(x))
            }
            _ => Ok(None),
        },
        Link::WithoutRow(_, c) => match f {
            Form::DropRow(x, d) => {
                if !reads_con(alloc, s, c, d)? {
                    return Ok(None);
                }
                Ok(Some(x))
            }
            _ => Ok(None),
        },
    }
}

/// What stands before an operator.
fn left_of_infix<'a, 'p>(
    s: &Here<'p>,
    op: Infix,
    e: &'a plain_tree::Exp,
    f: &'a Form,
    tasks: &mut Vec<Task<'a, 'p>>,
) -> Result<Option<&'a Exp>, AllocError>
    ensures { IfOk result
        (λ o. (test : Fo → Bool) → (at_before o test && all_read tasks.new.items)
        ≡ (reads_infix (scope_view s.now) op test
        (λ g. reads_term (scope_view s.now) (plain.exp_tree e.now) g) (left (form_tree f.now))
        && all_read tasks.old.items)) }
{
    match op {
        Infix::And => Ok(left_of_and(s, e, f, tasks)?),
        Infix::Or => Ok(left_of_or(s, e, f, tasks)?),
        Infix::Concat => match f {
            Form::Cat(x, y) => {
                ask(tasks, s, e, y)?;
                Ok(Some(x))
            }
            _ => Ok(None),
        },
        Infix::Strcat => Ok(left_of_operator(s, Infix::Strcat, e, f, tasks)?),
        Infix::Plus => Ok(left_of_operator(s, Infix::Plus, e, f, tasks)?),
        Infix::Minus => Ok(left_of_operator(s, Infix::Minus, e, f, tasks)?),
        Infix::Times => Ok(left_of_operator(s, Infix::Times, e, f, tasks)?),
        Infix::Divide => Ok(left_of_operator(s, Infix::Divide, e, f, tasks)?),
        Infix::Mod => Ok(left_of_operator(s, Infix::Mod, e, f, tasks)?),
    }
}

/// What stands before an operator that is a call.
#[tactic(auto, using(crate::proofs::Calling::two_are, crate::proofs::Calling::two_are_not))]
fn left_of_operator<'a, 'p>(
    s: &Here<'p>,
    op: Infix,
    e: &'a plain_tree::Exp,
    f: &'a Form,
    tasks: &mut Vec<Task<'a, 'p>>,
) -> Result<Option<&'a Exp>, AllocError>
    ensures { IfOk result
        (λ o. (test : Fo → Bool) → (at_before o test && all_read tasks.new.items)
        ≡ (reads_operator op test (λ g. reads_term (scope_view s.now) (plain.exp_tree e.now) g)
        (left (form_tree f.now)) && all_read tasks.old.items)) }
{
    match f {
        Form::Call(head, sigil, items) => match *sigil {
            Sigil::Plain => {
                if !is_operator(op, standing(head)) {
                    return Ok(None);
                }
                match two_left(items) {
                    None => Ok(None),
                    Some(two) => {
                        ask(tasks, s, e, two.second)?;
                        Ok(Some(two.first))
                    }
                }
            }
            Sigil::At | Sigil::AtAt => Ok(None),
        },
        _ => Ok(None),
    }
}

/// What stands before `&& d`: `case e of True => d | False => False`
#[tactic(auto, using(crate::proofs::Calling::and_is, crate::proofs::Calling::and_is_not))]
fn left_of_and<'a, 'p>(
    s: &Here<'p>,
    e: &'a plain_tree::Exp,
    f: &'a Form,
    tasks: &mut Vec<Task<'a, 'p>>,
) -> Result<Option<&'a Exp>, AllocError>
    ensures { IfOk result
        (λ o. (test : Fo → Bool) → (at_before o test && all_read tasks.new.items)
        ≡ (reads_and (scope_view s.now) test (λ g. reads_term (scope_view s.now) (plain.exp_tree e.now) g)
        (left (form_tree f.now)) && all_read tasks.old.items)) }
{
    match f {
        Form::Case(x, first, rest) => match only_branch(rest) {
            None => Ok(None),
            Some(second) => {
                if !is_bare_of(s, BasisBuilder::True, &first.pat)? {
                    return Ok(None);
                }
                if !is_bare_of(s, BasisBuilder::False, &second.pat)? {
                    return Ok(None);
                }
                if !is_basis_builder(s, BasisBuilder::False, standing(&second.body))? {
                    return Ok(None);
                }
                ask(tasks, s, e, &first.body)?;
                Ok(Some(x))
            }
        },
        _ => Ok(None),
    }
}

/// What stands before `|| d`: `case e of True => True | False => d`
#[tactic(auto, using(crate::proofs::Calling::or_is, crate::proofs::Calling::or_is_not))]
fn left_of_or<'a, 'p>(
    s: &Here<'p>,
    e: &'a plain_tree::Exp,
    f: &'a Form,
    tasks: &mut Vec<Task<'a, 'p>>,
) -> Result<Option<&'a Exp>, AllocError>
    ensures { IfOk result
        (λ o. (test : Fo → Bool) → (at_before o test && all_read tasks.new.items)
        ≡ (reads_or (scope_view s.now) test (λ g. reads_term (scope_view s.now) (plain.exp_tree e.now) g)
        (left (form_tree f.now)) && all_read tasks.old.items)) }
{
    match f {
        Form::Case(x, first, rest) => match only_branch(rest) {
            None => Ok(None),
            Some(second) => {
                if !is_bare_of(s, BasisBuilder::True, &first.pat)? {
                    return Ok(None);
                }
                if !is_basis_builder(s, BasisBuilder::True, standing(&first.body))? {
                    return Ok(None);
                }
                if !is_bare_of(s, BasisBuilder::False, &second.pat)? {
                    return Ok(None);
                }
                ask(tasks, s, e, &second.body)?;
                Ok(Some(x))
            }
        },
        _ => Ok(None),
    }
}

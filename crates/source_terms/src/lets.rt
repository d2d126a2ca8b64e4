//! Declarations of `let`.
ghost use Rattle.std.specs.Prelude.{◌≡◌, ◌&&◌, IfOk};
ghost use Rattle.con_terms.specs.View.{con_tree};
ghost use Rattle.core_terms.specs.Lists.{local_tree};
ghost use Rattle.core_terms.specs.Strip.{strip, strip_locals, strip_named};
ghost use Rattle.core_terms.specs.View.{exp_tree, form_tree, locals_tree, named_list_tree, named_tree};
ghost use Rattle.plain_tree.specs.ConView as con_view;
ghost use Rattle.plain_tree.specs.ExpView as plain;
ghost use Rattle.plain_tree.specs.Trees.{exp_let};
ghost use Rattle.source_names.specs.View.{scope_view};
ghost use Rattle.source_terms.specs.Leaves.{form_of};
ghost use Rattle.source_terms.specs.Left.{left};
ghost use Rattle.source_terms.specs.Parts.{behind_local, reads_local, reads_name, reads_type};
ghost use Rattle.source_terms.specs.Tasks.{all_read};
ghost use Rattle.source_terms.specs.Terms.{reads_form, reads_group, reads_locals, reads_term};

use crate::scopes::{inside_group, name_of, share};
use crate::tasks::{Task, ask};
use con_terms::Con;
use core_terms::{Exp, Form, Local, Locals, Named, NamedList};
use source_names::{Here, is_text, reads_con};
use std::alloc::{AllocError, Global};

/// `let .. in e end`
#[inline(never)]
pub fn is_let<'a, 'p>(
    alloc: Global,
    s: &Here<'p>,
    ls: &'a plain_tree::Locals,
    e: &'a plain_tree::Exp,
    f: &'a Form,
    tasks: &mut Vec<Task<'a, 'p>>,
) -> Result<bool, AllocError>
    ensures { IfOk result
        (λ b. (b && all_read tasks.new.items)
        ≡ (reads_form (scope_view s.now) (exp_let (plain.locals_tree ls.now) (plain.exp_tree e.now))
        (left (form_tree f.now)) && all_read tasks.old.items)) }
{
    match f {
        Form::Let(ms, x) => are_locals(alloc, s, ls, ms, e, x, tasks),
        _ => Ok(false),
    }
}

/// Declarations, and the term behind them.
fn are_locals<'a, 'p>(
    alloc: Global,
    s: &Here<'p>,
    ls: &'a plain_tree::Locals,
    ms: &'a Locals,
    e: &'a plain_tree::Exp,
    x: &'a Exp,
    tasks: &mut Vec<Task<'a, 'p>>,
) -> Result<bool, AllocError>
    ensures { IfOk result
        (λ b. (b && all_read tasks.new.items) ≡ (reads_locals (scope_view s.now) (plain.locals_tree ls.now)
        (λ t. reads_term t (plain.exp_tree e.now) (form_of (strip (exp_tree x.now))))
        (strip_locals (locals_tree ms.now)) && all_read tasks.old.items)) }
{
    if ls.items.len() != ms.items.len() {
        return Ok(false);
    }
    let mut here = share(s)?;
    for i in 0..ls.items.len() {
        let local = &ls.items[i];
        if !is_local(alloc, &here, local, &ms.items[i], tasks)? {
            return Ok(false);
        }
        here = behind(alloc, &here, local)?;
    }
    ask(tasks, &here, e, x)?;
    Ok(true)
}

/// The scope behind a declaration.
fn behind<'p>(alloc: Global, s: &Here<'p>, l: &plain_tree::Local) -> Result<Here<'p>, AllocError>
    ensures { IfOk result
        (λ r. scope_view r ≡ behind_local (plain.local_tree l.now) (scope_view s.now)) }
{
    match l {
        plain_tree::Local::Val(_, n) => s.under_value(alloc, name_of(n)),
        plain_tree::Local::ValRec(_, ns) => inside_group(alloc, s, ns),
    }
}

/// `val x = e`, or `val rec x = e and ..`
#[inline(never)]
fn is_local<'a, 'p>(
    alloc: Global,
    s: &Here<'p>,
    l: &'a plain_tree::Local,
    m: &'a Local,
    tasks: &mut Vec<Task<'a, 'p>>,
) -> Result<bool, AllocError>
    ensures { IfOk result
        (λ b. (b && all_read tasks.new.items)
        ≡ (reads_local (scope_view s.now) (plain.local_tree l.now) (local_tree m.now)
        && all_read tasks.old.items)) }
{
    match l {
        plain_tree::Local::Val(_, n) => match m {
            Local::Val(o) => is_name(alloc, s, n, o, tasks),
            _ => Ok(false),
        },
        plain_tree::Local::ValRec(_, ns) => match m {
            Local::ValRec(os) => {
                let inner = inside_group(alloc, s, ns)?;
                are_names(alloc, &inner, ns, os, tasks)
            }
            _ => Ok(false),
        },
    }
}

/// Whether a type is written where the source has it, and is that one.
fn is_typed_so(
    alloc: Global,
    s: &Here<'_>,
    source: &Option<plain_tree::Con>,
    written: bool,
    con: &Con,
) -> Result<bool, AllocError>
    ensures { IfOk result
        (λ b. b ≡ reads_type (scope_view s.now) (con_view.maybe_con source.now) written (con_tree con.now)) }
{
    match source {
        None => Ok(!written),
        Some(c) => {
            if !written {
                return Ok(false);
            }
            reads_con(alloc, s, c, con)
        }
    }
}

/// A name with its term, and its type where the source has it.
#[inline(never)]
pub fn is_name<'a, 'p>(
    alloc: Global,
    s: &Here<'p>,
    n: &'a plain_tree::Named,
    m: &'a Named,
    tasks: &mut Vec<Task<'a, 'p>>,
) -> Result<bool, AllocError>
    ensures { IfOk result
        (λ b. (b && all_read tasks.new.items)
        ≡ (reads_name (scope_view s.now) (plain.named_tree n.now) (named_tree m.now)
        && all_read tasks.old.items)) }
{
    if !is_text(s, m.name, &n.name.text)? {
        return Ok(false);
    }
    if !is_typed_so(alloc, s, &n.con, m.written, &m.con)? {
        return Ok(false);
    }
    ask(tasks, s, &n.exp, &m.exp)?;
    Ok(true)
}

/// Names that are declared together.
pub fn are_names<'a, 'p>(
    alloc: Global,
    s: &Here<'p>,
    ns: &'a plain_tree::NamedList,
    ms: &'a NamedList,
    tasks: &mut Vec<Task<'a, 'p>>,
) -> Result<bool, AllocError>
    ensures { IfOk result
        (λ b. (b && all_read tasks.new.items) ≡ (reads_group (scope_view s.now) (plain.named_list_tree ns.now)
        (strip_named (named_list_tree ms.now)) && all_read tasks.old.items)) }
{
    if ns.items.len() != ms.items.len() {
        return Ok(false);
    }
    for i in 0..ns.items.len() {
        if !is_name(alloc, s, &ns.items[i], &ms.items[i], tasks)? {
            return Ok(false);
        }
    }
    Ok(true)
}

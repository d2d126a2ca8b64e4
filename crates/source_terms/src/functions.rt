//! Functions, parameter by parameter, and cases.
ghost use Rattle.std.specs.Prelude.{◌≡◌, ◌&&◌, Bool, IfOk};
ghost use Rattle.core_terms.specs.Lists.{branch_tree};
ghost use Rattle.core_terms.specs.Strip.{strip, strip_branches, strip_pattern};
ghost use Rattle.core_terms.specs.Trees.{Fo};
ghost use Rattle.core_terms.specs.View.{branches_tree, exp_tree, form_tree};
ghost use Rattle.plain_tree.specs.ExpView as plain;
ghost use Rattle.plain_tree.specs.Trees.{exp_case, exp_fn};
ghost use Rattle.source_names.specs.Scopes.{Scope};
ghost use Rattle.source_names.specs.View.{scope_view};
ghost use Rattle.source_terms.specs.Leaves.{form_of};
ghost use Rattle.source_terms.specs.Left.{left};
ghost use Rattle.source_terms.specs.Tasks.{all_read, at_inside};
ghost use Rattle.source_terms.specs.Terms.{reads_branch, reads_branches, reads_form, reads_param, reads_params};
ghost use Rattle.source_terms.specs.Terms.{reads_term};

use crate::patterns::is_pat;
use crate::scopes::{inside_pattern, share};
use crate::standing::standing;
use crate::tasks::{Task, ask};
use con_terms::same_kind;
use core_terms::{Branch, Branches, Exp, Form};
use plain_tree::{Arg, Args};
use source_names::{Here, is_text, reads_con};
use std::alloc::{AllocError, Global};

/// What is inside of a parameter, and its scope.
#[derive(Drop)]
pub struct Entered<'a, 'p> {
    pub here: Here<'p>,
    pub term: &'a Exp,
}

/// `fn .. => e`
pub fn is_function<'a, 'p>(
    alloc: Global,
    s: &Here<'p>,
    args: &Args,
    body: &'a plain_tree::Exp,
    x: &'a Exp,
    tasks: &mut Vec<Task<'a, 'p>>,
) -> Result<bool, AllocError>
    ensures { IfOk result
        (λ b. (b && all_read tasks.new.items)
        ≡ (reads_form (scope_view s.now) (exp_fn (plain.args_tree args.now) (plain.exp_tree body.now))
        (form_of (strip (exp_tree x.now))) && all_read tasks.old.items)) }
{
    match inside_all(alloc, s, args, x)? {
        None => Ok(false),
        Some(entered) => {
            ask(tasks, &entered.here, body, entered.term)?;
            Ok(true)
        }
    }
}

/// What is inside of parameters.
fn inside_all<'a, 'p>(
    alloc: Global,
    s: &Here<'p>,
    args: &Args,
    x: &'a Exp,
) -> Result<Option<Entered<'a, 'p>>, AllocError>
    ensures { IfOk result
        (λ o. (inside : Scope → Fo → Bool) → at_inside o inside
        ≡ reads_params (scope_view s.now) (plain.args_tree args.now) inside (form_of (strip (exp_tree x.now)))) }
{
    let mut entered = Entered {
        here: share(s)?,
        term: x,
    };
    for i in 0..args.items.len() {
        match inside(alloc, &entered.here, &args.items[i], standing(entered.term))? {
            None => return Ok(None),
            Some(more) => entered = more,
        }
    }
    Ok(Some(entered))
}

/// What is inside of a parameter.
fn inside<'a, 'p>(
    alloc: Global,
    s: &Here<'p>,
    arg: &Arg,
    f: &'a Form,
) -> Result<Option<Entered<'a, 'p>>, AllocError>
    ensures { IfOk result
        (λ o. (inside : Scope → Fo → Bool) → at_inside o inside
        ≡ reads_param (scope_view s.now) (plain.arg_tree arg.now) inside (left (form_tree f.now))) }
{
    match arg {
        Arg::Pat(p) => match f {
            Form::Fn(q, _, x) => {
                if !is_pat(alloc, s, p, q)? {
                    return Ok(None);
                }
                let here = inside_pattern(alloc, s, p)?;
                Ok(Some(Entered { here, term: x }))
            }
            _ => Ok(None),
        },
        Arg::Con(_, implicit, has_kind, name, kind) => match f {
            Form::FnCon(y, hidden, written, found, x) => {
                if !is_text(s, *y, &name.text)? {
                    return Ok(None);
                }
                if *implicit != *hidden {
                    return Ok(None);
                }
                if *has_kind != *written {
                    return Ok(None);
                }
                if !same_kind(kind, found) {
                    return Ok(None);
                }
                let here = s.under_variable(alloc, &name.text)?;
                Ok(Some(Entered { here, term: x }))
            }
            _ => Ok(None),
        },
        Arg::Guard(_, c, d) => match f {
            Form::FnGuard(a, b, x) => {
                if !reads_con(alloc, s, c, a)? {
                    return Ok(None);
                }
                if !reads_con(alloc, s, d, b)? {
                    return Ok(None);
                }
                let here = share(s)?;
                Ok(Some(Entered { here, term: x }))
            }
            _ => Ok(None),
        },
    }
}

/// `case e of p => d | ..`
#[inline(never)]
pub fn is_case<'a, 'p>(
    alloc: Global,
    s: &Here<'p>,
    e: &'a plain_tree::Exp,
    first: &'a plain_tree::Branch,
    rest: &'a plain_tree::Branches,
    f: &'a Form,
    tasks: &mut Vec<Task<'a, 'p>>,
) -> Result<bool, AllocError>
    ensures { IfOk result
        (λ b. (b && all_read tasks.new.items) ≡ (reads_form (scope_view s.now)
        (exp_case (plain.exp_tree e.now) (plain.branch_tree first.now) (plain.branches_tree rest.now))
        (left (form_tree f.now)) && all_read tasks.old.items)) }
{
    match f {
        Form::Case(x, branch, branches) => {
            Ok(are_cases(alloc, s, e, first, rest, x, branch, branches, tasks)?)
        }
        _ => Ok(false),
    }
}

/// What a case looks at, and its branches.
fn are_cases<'a, 'p>(
    alloc: Global,
    s: &Here<'p>,
    e: &'a plain_tree::Exp,
    first: &'a plain_tree::Branch,
    rest: &'a plain_tree::Branches,
    x: &'a Exp,
    branch: &'a Branch,
    branches: &'a Branches,
    tasks: &mut Vec<Task<'a, 'p>>,
) -> Result<bool, AllocError>
    ensures { IfOk result
        (λ b. (b && all_read tasks.new.items)
        ≡ ((reads_term (scope_view s.now) (plain.exp_tree e.now) (form_of (strip (exp_tree x.now)))
        && reads_branch (scope_view s.now) (plain.branch_tree first.now) (strip_pattern (branch_tree branch.now).1)
        (form_of (strip (branch_tree branch.now).2))
        && reads_branches (scope_view s.now) (plain.branches_tree rest.now)
        (strip_branches (branches_tree branches.now)))
        && all_read tasks.old.items)) }
{
    ask(tasks, s, e, x)?;
    if !is_branch(alloc, s, first, branch, tasks)? {
        return Ok(false);
    }
    let found = are_branches(alloc, s, rest, branches, tasks)?;
    Ok(found)
}

/// `p => e`
#[inline(never)]
fn is_branch<'a, 'p>(
    alloc: Global,
    s: &Here<'p>,
    b: &'a plain_tree::Branch,
    c: &'a Branch,
    tasks: &mut Vec<Task<'a, 'p>>,
) -> Result<bool, AllocError>
    ensures { IfOk result
        (λ r. (r && all_read tasks.new.items)
        ≡ (reads_branch (scope_view s.now) (plain.branch_tree b.now) (strip_pattern (branch_tree c.now).1)
        (form_of (strip (branch_tree c.now).2)) && all_read tasks.old.items)) }
{
    if !is_pat(alloc, s, &b.pat, &c.pat)? {
        return Ok(false);
    }
    let inner = inside_pattern(alloc, s, &b.pat)?;
    ask(tasks, &inner, &b.body, &c.body)?;
    Ok(true)
}

/// Branches behind the first.
fn are_branches<'a, 'p>(
    alloc: Global,
    s: &Here<'p>,
    bs: &'a plain_tree::Branches,
    cs: &'a Branches,
    tasks: &mut Vec<Task<'a, 'p>>,
) -> Result<bool, AllocError>
    ensures { IfOk result
        (λ b. (b && all_read tasks.new.items) ≡ (reads_branches (scope_view s.now) (plain.branches_tree bs.now)
        (strip_branches (branches_tree cs.now)) && all_read tasks.old.items)) }
{
    if bs.items.len() != cs.items.len() {
        return Ok(false);
    }
    for i in 0..bs.items.len() {
        if !is_branch(alloc, s, &bs.items[i], &cs.items[i], tasks)? {
            return Ok(false);
        }
    }
    Ok(true)
}

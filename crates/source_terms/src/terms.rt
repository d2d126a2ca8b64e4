//! Terms. Each function compares what it is given, and adds the terms in it to the tasks.
ghost use Rattle.std.specs.Prelude.{◌≡◌, ◌&&◌, IfOk};
ghost use Rattle.core_terms.specs.Lists.{field_tree};
ghost use Rattle.core_terms.specs.Strip.{strip, strip_fields, strip_named};
ghost use Rattle.core_terms.specs.View.{exp_tree, fields_tree, form_tree, named_list_tree, named_tree};
ghost use Rattle.plain_tree.specs.ConView as con_view;
ghost use Rattle.plain_tree.specs.ExpView as plain;
ghost use Rattle.plain_tree.specs.Trees.{exp_int, exp_rec, exp_typed, exp_words};
ghost use Rattle.source_names.specs.View.{scope_view};
ghost use Rattle.source_terms.specs.Leaves.{form_of};
ghost use Rattle.source_terms.specs.Left.{left};
ghost use Rattle.source_terms.specs.Parts.{reads_field, reads_name};
ghost use Rattle.source_terms.specs.Tasks.{all_read, is_read};
ghost use Rattle.source_terms.specs.Terms.{reads_exp, reads_fields, reads_form, reads_group, reads_term};

use crate::calls::{is_builder_alone, is_call, is_name_alone};
use crate::chains::is_chain;
use crate::forms::is_sugar;
use crate::functions::{is_case, is_function};
use crate::leaves::{is_number, is_words};
use crate::lets::{are_names, is_let, is_name};
use crate::markup::is_page;
use crate::standing::standing;
use crate::tasks::{Task, ask};
use core_terms::{Exp, Field, Fields, Form, Named, NamedList};
use source_names::{Here, reads_con};
use std::alloc::{AllocError, Global};
use table_rows::Text;

/// Whether a term, without what was inserted, is one of the source with its names resolved.
pub fn is_exp(alloc: Global, s: &Here<'_>, e: &plain_tree::Exp, x: &Exp) -> Result<bool, AllocError>
    ensures { IfOk result
        (λ b. b ≡ reads_exp (scope_view s.now) (plain.exp_tree e.now) (strip (exp_tree x.now))) }
{
    let mut tasks = Vec::new(alloc);
    ask(&mut tasks, s, e, x)?;
    Ok(are_done(alloc, tasks)?)
}

/// Whether a name with its term is one of the source, in the scope of the term.
pub fn is_named(
    alloc: Global,
    s: &Here<'_>,
    n: &plain_tree::Named,
    m: &Named,
) -> Result<bool, AllocError>
    ensures { IfOk result
        (λ b. b ≡ reads_name (scope_view s.now) (plain.named_tree n.now) (named_tree m.now)) }
{
    let mut tasks = Vec::new(alloc);
    if !is_name(alloc, s, n, m, &mut tasks)? {
        return Ok(false);
    }
    Ok(are_done(alloc, tasks)?)
}

/// Whether names with their terms are those of the source, in the scope of the terms.
pub fn is_group(
    alloc: Global,
    s: &Here<'_>,
    ns: &plain_tree::NamedList,
    ms: &NamedList,
) -> Result<bool, AllocError>
    ensures { IfOk result
        (λ b. b ≡ reads_group (scope_view s.now) (plain.named_list_tree ns.now)
        (strip_named (named_list_tree ms.now))) }
{
    let mut tasks = Vec::new(alloc);
    if !are_names(alloc, s, ns, ms, &mut tasks)? {
        return Ok(false);
    }
    Ok(are_done(alloc, tasks)?)
}

/// Whether the term of each task is the one of the source.
#[tactic(auto, using(crate::proofs::Tasking::all_push))]
fn are_done<'a, 'p>(alloc: Global, tasks: Vec<Task<'a, 'p>>) -> Result<bool, AllocError>
    ensures { IfOk result (λ b. b ≡ all_read tasks.entry.items) }
{
    let mut waiting = tasks;
    for _ in 0..u64::MAX {
        match waiting.pop() {
            None => return Ok(true),
            Some(task) => {
                if !is_done(alloc, task, &mut waiting)? {
                    return Ok(false);
                }
            }
        }
    }
    Err(AllocError)
}

/// Whether the term of a task is the one of the source, if those are that are added.
fn is_done<'a, 'p>(
    alloc: Global,
    task: Task<'a, 'p>,
    tasks: &mut Vec<Task<'a, 'p>>,
) -> Result<bool, AllocError>
    ensures { IfOk result
        (λ b. (b && all_read tasks.new.items) ≡ (is_read task.entry && all_read tasks.old.items)) }
{
    let Task { here, source, term } = task;
    Ok(is_form(alloc, &here, &source.form, term, tasks)?)
}

/// Whether a term is of a form of the source.
#[tactic(auto, using(crate::proofs::Calling::call_is_read))]
fn is_form<'a, 'p>(
    alloc: Global,
    s: &Here<'p>,
    e: &'a plain_tree::Form,
    x: &'a Exp,
    tasks: &mut Vec<Task<'a, 'p>>,
) -> Result<bool, AllocError>
    ensures { IfOk result
        (λ b. (b && all_read tasks.new.items)
        ≡ (reads_form (scope_view s.now) (plain.form_tree e.now) (form_of (strip (exp_tree x.now)))
        && all_read tasks.old.items)) }
{
    let f = standing(x);
    match e {
        plain_tree::Form::Int(digits) => Ok(is_int(s, *digits, f)),
        plain_tree::Form::Words(t) => Ok(is_text(s, t, f)),
        plain_tree::Form::Name(sigil, p) => Ok(is_name_alone(s, *sigil, p, f)?),
        plain_tree::Form::Builder(sigil, p) => Ok(is_builder_alone(s, *sigil, p, f)?),
        plain_tree::Form::Basis(b) => Ok(is_sugar(s, *b, f)?),
        plain_tree::Form::Sql(_, _) => Ok(false),
        plain_tree::Form::Call(head, items) => Ok(is_call(alloc, s, head, items, f, tasks)?),
        plain_tree::Form::Fn(args, body) => Ok(is_function(alloc, s, args, body, x, tasks)?),
        plain_tree::Form::Case(of, first, rest) => {
            Ok(is_case(alloc, s, of, first, rest, f, tasks)?)
        }
        plain_tree::Form::Let(locals, body) => Ok(is_let(alloc, s, locals, body, f, tasks)?),
        plain_tree::Form::Typed(inner, c) => Ok(is_typed(alloc, s, inner, c, f, tasks)?),
        plain_tree::Form::Rec(fields) => Ok(is_record(alloc, s, fields, f, tasks)?),
        plain_tree::Form::Chain(first, links) => { Ok(is_chain(alloc, s, first, links, x, tasks)?) }
        plain_tree::Form::Xml(nodes) => Ok(is_page(alloc, s, nodes, f, tasks)?),
    }
}

/// A number.
fn is_int(_s: &Here<'_>, digits: u64, f: &Form) -> bool
    ensures { result ≡ reads_form (scope_view _s.now) (exp_int digits) (left (form_tree f.now)) }
{
    match f {
        Form::Int(z) => is_number(*z, false, digits),
        _ => false,
    }
}

/// A text.
fn is_text(_s: &Here<'_>, t: &Text, f: &Form) -> bool
    ensures { result ≡ reads_form (scope_view _s.now) (exp_words t.now) (left (form_tree f.now)) }
{
    match f {
        Form::Words(u) => is_words(u, t),
        _ => false,
    }
}

/// `(e : c)`
#[inline(never)]
fn is_typed<'a, 'p>(
    alloc: Global,
    s: &Here<'p>,
    e: &'a plain_tree::Exp,
    c: &'a plain_tree::Con,
    f: &'a Form,
    tasks: &mut Vec<Task<'a, 'p>>,
) -> Result<bool, AllocError>
    ensures { IfOk result
        (λ b. (b && all_read tasks.new.items)
        ≡ (reads_form (scope_view s.now) (exp_typed (plain.exp_tree e.now) (con_view.con_tree c.now))
        (left (form_tree f.now)) && all_read tasks.old.items)) }
{
    match f {
        Form::Typed(x, t) => {
            if !reads_con(alloc, s, c, t)? {
                return Ok(false);
            }
            ask(tasks, s, e, x)?;
            Ok(true)
        }
        _ => Ok(false),
    }
}

/// `{c = e, ..}`
#[inline(never)]
fn is_record<'a, 'p>(
    alloc: Global,
    s: &Here<'p>,
    fs: &'a plain_tree::Fields,
    f: &'a Form,
    tasks: &mut Vec<Task<'a, 'p>>,
) -> Result<bool, AllocError>
    ensures { IfOk result
        (λ b. (b && all_read tasks.new.items)
        ≡ (reads_form (scope_view s.now) (exp_rec (plain.fields_tree fs.now)) (left (form_tree f.now))
        && all_read tasks.old.items)) }
{
    match f {
        Form::Rec(gs) => are_fields(alloc, s, fs, gs, tasks),
        _ => Ok(false),
    }
}

/// Whether fields are those of the source.
fn are_fields<'a, 'p>(
    alloc: Global,
    s: &Here<'p>,
    fs: &'a plain_tree::Fields,
    gs: &'a Fields,
    tasks: &mut Vec<Task<'a, 'p>>,
) -> Result<bool, AllocError>
    ensures { IfOk result
        (λ b. (b && all_read tasks.new.items)
        ≡ (reads_fields (scope_view s.now) (plain.fields_tree fs.now) (strip_fields (fields_tree gs.now))
        && all_read tasks.old.items)) }
{
    if fs.items.len() != gs.items.len() {
        return Ok(false);
    }
    for i in 0..fs.items.len() {
        if !is_field(alloc, s, &fs.items[i], &gs.items[i], tasks)? {
            return Ok(false);
        }
    }
    Ok(true)
}

/// `c = e`
#[inline(never)]
fn is_field<'a, 'p>(
    alloc: Global,
    s: &Here<'p>,
    f: &'a plain_tree::Field,
    g: &'a Field,
    tasks: &mut Vec<Task<'a, 'p>>,
) -> Result<bool, AllocError>
    ensures { IfOk result
        (λ b. (b && all_read tasks.new.items)
        ≡ (reads_field (scope_view s.now) (plain.field_tree f.now) (field_tree g.now)
        && all_read tasks.old.items)) }
{
    if !reads_con(alloc, s, &f.name, &g.name)? {
        return Ok(false);
    }
    ask(tasks, s, &f.value, &g.value)?;
    Ok(true)
}

//! Names in patterns and parameters, and what these bind.
ghost use Rattle.std.specs.Prelude.{◌≡◌, IfOk, map};
ghost use Rattle.plain_tree.specs.ConView.{pat_field_tree, pat_fields_tree, pat_tree};
ghost use Rattle.plain_tree.specs.ExpView.{arg_tree, args_tree};
ghost use Rattle.source_names.specs.Scopes.{under_values};
ghost use Rattle.unbound_names.specs.Patterns as patterns;
ghost use Rattle.unbound_names.specs.View.{around_view, ask_view};

use crate::around::Around;
use crate::asked::{Asked, is_path};
use crate::cons::unbound_con;
use crate::in_scope::builder_in_scope;
use plain_tree::{Arg, Args, Builder, Pat, PatField, PatFields, PatForm, Path};
use std::alloc::{AllocError, Global};

/// Whether a constructor of a datatype at a byte is the one that is asked of, and isn't in scope.
pub fn unbound_constructor(
    q: &Asked<'_>,
    s: &Around<'_>,
    at: u32,
    path: &Path,
) -> Result<bool, AllocError>
    ensures { IfOk result
        (λ b. b ≡ patterns.unbound_constructor (ask_view q.now) (around_view s.now) at path.now) }
{
    Ok(is_path(q, at, path)? && !builder_in_scope(s, path))
}

/// The same in a pattern.
fn unbound_builder(
    q: &Asked<'_>,
    s: &Around<'_>,
    at: u32,
    builder: &Builder,
) -> Result<bool, AllocError>
    ensures { IfOk result
        (λ b. b ≡ patterns.unbound_builder (ask_view q.now) (around_view s.now) at builder.now) }
{
    match builder {
        Builder::Named(path) => unbound_constructor(q, s, at, path),
        Builder::Basis(_) => Ok(false),
    }
}

/// Whether the name that is asked of stands in a pattern, and isn't in scope there.
#[cycle(unbound_pat)]
pub fn unbound_pat(q: &Asked<'_>, s: &Around<'_>, p: &Pat) -> Result<bool, AllocError>
    ensures { IfOk result
        (λ b. b ≡ patterns.unbound_pat (ask_view q.now) (around_view s.now) (pat_tree p.now)) }
{
    match &p.form {
        PatForm::Bare(builder) => unbound_builder(q, s, p.at, builder),
        PatForm::Holding(builder, inner) => {
            if unbound_builder(q, s, p.at, builder)? {
                return Ok(true);
            }
            unbound_pat(q, s, inner)
        }
        PatForm::Rec(fields, _) => unbound_fields(q, s, fields),
        PatForm::Typed(inner, c) => {
            if unbound_pat(q, s, inner)? {
                return Ok(true);
            }
            unbound_con(q, s, c)
        }
        PatForm::Any | PatForm::Bind(_) | PatForm::Int(_, _) | PatForm::Words(_) => Ok(false),
    }
}

/// The same for the patterns of fields.
#[cycle(unbound_pat)]
#[inline(never)]
fn unbound_fields(q: &Asked<'_>, s: &Around<'_>, fs: &PatFields) -> Result<bool, AllocError>
    ensures { IfOk result
        (λ b. b ≡ patterns.unbound_pat_fields (ask_view q.now) (around_view s.now) (pat_fields_tree fs.now)) }
{
    for i in 0..fs.items.len() {
        if unbound_field(q, s, &fs.items[i])? {
            return Ok(true);
        }
    }
    Ok(false)
}

/// The same for the pattern of a field.
#[cycle(unbound_pat)]
fn unbound_field(q: &Asked<'_>, s: &Around<'_>, f: &PatField) -> Result<bool, AllocError>
    ensures { IfOk result
        (λ b. b ≡ patterns.unbound_pat_field (ask_view q.now) (around_view s.now) (pat_field_tree f.now)) }
{
    if unbound_con(q, s, &f.name)? {
        return Ok(true);
    }
    unbound_pat(q, s, &f.pat)
}

/// The scope inside of a pattern, whose last variable is the innermost.
pub fn inside_pattern<'p>(alloc: Global, s: &Around<'p>, p: &Pat) -> Result<Around<'p>, AllocError>
    ensures { IfOk result (λ r. around_view r ≡ patterns.under_pattern (pat_tree p.now) (around_view s.now)) }
{
    let here = s.share()?;
    Ok(under_pattern(alloc, here, p)?)
}

/// The same, of a scope that isn't used any more.
#[cycle(under)]
fn under_pattern<'p>(alloc: Global, s: Around<'p>, p: &Pat) -> Result<Around<'p>, AllocError>
    ensures { IfOk result
        (λ r. around_view r ≡ under_values (patterns.pattern_names (pat_tree p.now)) (around_view s.entry)) }
{
    match &p.form {
        PatForm::Bind(x) => s.under_value(alloc, x),
        PatForm::Holding(_, inner) => under_pattern(alloc, s, inner),
        PatForm::Rec(fs, _) => under_fields(alloc, s, fs),
        PatForm::Typed(inner, _) => under_pattern(alloc, s, inner),
        PatForm::Any | PatForm::Int(_, _) | PatForm::Words(_) | PatForm::Bare(_) => Ok(s),
    }
}

/// The scope inside of the patterns of fields.
#[cycle(under)]
fn under_fields<'p>(alloc: Global, s: Around<'p>, fs: &PatFields) -> Result<Around<'p>, AllocError>
    ensures { IfOk result
        (λ r. around_view r ≡ under_values (patterns.fields_names (pat_fields_tree fs.now)) (around_view s.entry)) }
{
    let mut here = s;
    for i in 0..fs.items.len() {
        here = under_field(alloc, here, &fs.items[i])?;
    }
    Ok(here)
}

/// The scope inside of the pattern of a field.
#[cycle(under)]
fn under_field<'p>(alloc: Global, s: Around<'p>, f: &PatField) -> Result<Around<'p>, AllocError>
    ensures { IfOk result
        (λ r. around_view r ≡ under_values (patterns.field_names (pat_field_tree f.now)) (around_view s.entry)) }
{
    under_pattern(alloc, s, &f.pat)
}

/// Whether the name that is asked of stands in a parameter, and isn't in scope there.
fn unbound_arg(q: &Asked<'_>, s: &Around<'_>, a: &Arg) -> Result<bool, AllocError>
    ensures { IfOk result
        (λ b. b ≡ patterns.unbound_arg (ask_view q.now) (around_view s.now) (arg_tree a.now)) }
{
    match a {
        Arg::Pat(p) => unbound_pat(q, s, p),
        Arg::Con(_, _, _, _, _) => Ok(false),
        Arg::Guard(_, left, right) => {
            if unbound_con(q, s, left)? {
                return Ok(true);
            }
            unbound_con(q, s, right)
        }
    }
}

/// The scope inside of a parameter.
fn inside_arg<'p>(alloc: Global, s: &Around<'p>, a: &Arg) -> Result<Around<'p>, AllocError>
    ensures { IfOk result (λ r. around_view r ≡ patterns.under_arg (arg_tree a.now) (around_view s.now)) }
{
    match a {
        Arg::Pat(p) => inside_pattern(alloc, s, p),
        Arg::Con(_, _, _, x, _) => s.under_variable(alloc, &x.text),
        Arg::Guard(_, _, _) => s.share(),
    }
}

/// Whether the name that is asked of stands in a parameter, and isn't in scope there. Each parameter sees those
/// before it.
pub fn unbound_args(q: &Asked<'_>, s: &Around<'_>, args: &Args) -> Result<bool, AllocError>
    ensures { IfOk result
        (λ b. b ≡ patterns.unbound_args (ask_view q.now) (around_view s.now) (args_tree args.now)) }
{
    let mut here = s.share()?;
    for i in 0..args.items.len() {
        if unbound_arg(q, &here, &args.items[i])? {
            return Ok(true);
        }
        here = inside_arg(q.alloc, &here, &args.items[i])?;
    }
    Ok(false)
}

/// The scope inside of parameters.
pub fn inside_args<'p>(alloc: Global, s: &Around<'p>, args: &Args) -> Result<Around<'p>, AllocError>
    ensures { IfOk result (λ r. around_view r ≡ patterns.under_args (args_tree args.now) (around_view s.now)) }
{
    let mut here = s.share()?;
    for i in 0..args.items.len() {
        here = inside_arg(alloc, &here, &args.items[i])?;
    }
    Ok(here)
}

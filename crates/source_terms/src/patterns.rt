//! Patterns.
ghost use Rattle.std.specs.Prelude.{◌≡◌, IfOk};
ghost use Rattle.core_terms.specs.Lists.{pat_field_tree};
ghost use Rattle.core_terms.specs.Strip.{strip_pattern};
ghost use Rattle.core_terms.specs.View.{pat_tree, pat_fields_tree};
ghost use Rattle.plain_tree.specs.ConView as plain;
ghost use Rattle.source_names.specs.Scopes.{under_values};
ghost use Rattle.source_names.specs.View.{scope_view};
ghost use Rattle.source_terms.specs.Parts.{reads_pat_field};
ghost use Rattle.source_terms.specs.Patterns as patterns;

use crate::leaves::{is_number, is_words};
use con_terms::Sym;
use core_terms::{Pat, PatField, PatFields, PatForm};
use plain_tree::Builder;
use source_names::{Here, is_text, names_basis_builder, names_builder, reads_con};
use std::alloc::{AllocError, Global};

/// Whether a constructor of a pattern is the one at a place of the datatype with a symbol.
fn is_builder(s: &Here<'_>, b: &Builder, datatype: Sym, index: u32) -> Result<bool, AllocError>
    ensures { IfOk result
        (λ r. r ≡ patterns.is_builder (scope_view s.now) b.now datatype.number index) }
{
    match b {
        Builder::Named(path) => names_builder(s, path, datatype, index),
        Builder::Basis(b) => names_basis_builder(s, *b, datatype, index),
    }
}

/// Whether a pattern is one of the source with its names resolved.
#[tactic(auto, using(crate::proofs::PatternReading::reads_stripped))]
pub fn is_pat(alloc: Global, s: &Here<'_>, p: &plain_tree::Pat, q: &Pat) -> Result<bool, AllocError>
    ensures { IfOk result
        (λ b. b ≡ patterns.reads_pat (scope_view s.now) (plain.pat_tree p.now) (strip_pattern (pat_tree q.now))) }
{
    Ok(reads(alloc, s, p, q)?)
}

/// The same, whatever the types of variables that the source doesn't tell.
#[cycle(reads)]
fn reads(alloc: Global, s: &Here<'_>, p: &plain_tree::Pat, q: &Pat) -> Result<bool, AllocError>
    ensures { IfOk result
        (λ b. b ≡ patterns.reads_pat (scope_view s.now) (plain.pat_tree p.now) (pat_tree q.now)) }
{
    match &p.form {
        plain_tree::PatForm::Any => Ok(matches!(&q.form, PatForm::Any)),
        plain_tree::PatForm::Bind(x) => match &q.form {
            PatForm::Bind(y, _) => is_text(s, *y, x),
            _ => Ok(false),
        },
        plain_tree::PatForm::Int(negative, digits) => match &q.form {
            PatForm::Int(z) => Ok(is_number(*z, *negative, *digits)),
            _ => Ok(false),
        },
        plain_tree::PatForm::Words(t) => match &q.form {
            PatForm::Words(u) => Ok(is_words(u, t)),
            _ => Ok(false),
        },
        plain_tree::PatForm::Bare(b) => match &q.form {
            PatForm::Build(d, i, None) => is_builder(s, b, *d, *i),
            _ => Ok(false),
        },
        plain_tree::PatForm::Holding(b, inner) => match &q.form {
            PatForm::Build(d, i, Some(held)) => {
                if !is_builder(s, b, *d, *i)? {
                    return Ok(false);
                }
                reads(alloc, s, inner, held)
            }
            _ => Ok(false),
        },
        plain_tree::PatForm::Rec(fs, more) => match &q.form {
            PatForm::Rec(gs, others) => {
                if *more != *others {
                    return Ok(false);
                }
                read_fields(alloc, s, fs, gs)
            }
            _ => Ok(false),
        },
        plain_tree::PatForm::Typed(inner, c) => match &q.form {
            PatForm::Typed(typed, t) => {
                if !reads_con(alloc, s, c, t)? {
                    return Ok(false);
                }
                reads(alloc, s, inner, typed)
            }
            _ => Ok(false),
        },
    }
}

/// Whether the fields of a record pattern are those of the source.
#[cycle(reads)]
fn read_fields(
    alloc: Global,
    s: &Here<'_>,
    fs: &plain_tree::PatFields,
    gs: &PatFields,
) -> Result<bool, AllocError>
    ensures { IfOk result
        (λ b. b ≡ patterns.reads_pat_fields (scope_view s.now) (plain.pat_fields_tree fs.now)
        (pat_fields_tree gs.now)) }
{
    if fs.items.len() != gs.items.len() {
        return Ok(false);
    }
    for i in 0..fs.items.len() {
        if !reads_field(alloc, s, &fs.items[i], &gs.items[i])? {
            return Ok(false);
        }
    }
    Ok(true)
}

/// Whether a field of a record pattern is one of the source.
#[cycle(reads)]
fn reads_field(
    alloc: Global,
    s: &Here<'_>,
    f: &plain_tree::PatField,
    g: &PatField,
) -> Result<bool, AllocError>
    ensures { IfOk result
        (λ b. b ≡ reads_pat_field (scope_view s.now) (plain.pat_field_tree f.now) (pat_field_tree g.now)) }
{
    if !reads_con(alloc, s, &f.name, &g.name)? {
        return Ok(false);
    }
    reads(alloc, s, &f.pat, &g.pat)
}

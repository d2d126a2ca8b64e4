//! Scopes inside of binders.
ghost use Rattle.std.specs.Prelude.{◌≡◌, IfOk};
ghost use Rattle.plain_tree.specs.ConView.{pat_field_tree, pat_fields_tree, pat_tree};
ghost use Rattle.plain_tree.specs.ExpView.{named_list_tree, named_tree};
ghost use Rattle.source_names.specs.Scopes.{under_values};
ghost use Rattle.source_names.specs.View.{scope_view};
ghost use Rattle.source_terms.specs.Parts.{field_names};
ghost use Rattle.source_terms.specs.Patterns.{fields_names, pattern_names};
ghost use Rattle.source_terms.specs.Terms as terms;
ghost use Rattle.source_terms.specs.Terms.{group_names};

use plain_tree::{Named, NamedList, Pat, PatField, PatFields, PatForm};
use source_names::Here;
use std::alloc::{AllocError, Global};
use table_rows::Text;

/// The same scope once more.
pub fn share<'p>(s: &Here<'p>) -> Result<Here<'p>, AllocError>
    ensures { IfOk result (λ r. scope_view r ≡ scope_view s.now) }
{
    Ok(Here {
        known: s.known,
        program: s.program,
        values: s.values.clone()?,
        variables: s.variables.clone()?,
    })
}

/// The scope inside of a pattern, whose last variable is the innermost.
pub fn inside_pattern<'p>(alloc: Global, s: &Here<'p>, p: &Pat) -> Result<Here<'p>, AllocError>
    ensures { IfOk result
        (λ r. scope_view r ≡ under_values (pattern_names (pat_tree p.now)) (scope_view s.now)) }
{
    let here = share(s)?;
    Ok(under_pattern(alloc, here, p)?)
}

/// The same, of a scope that isn't used any more.
#[cycle(under)]
fn under_pattern<'p>(alloc: Global, s: Here<'p>, p: &Pat) -> Result<Here<'p>, AllocError>
    ensures { IfOk result
        (λ r. scope_view r ≡ under_values (pattern_names (pat_tree p.now)) (scope_view s.entry)) }
{
    match &p.form {
        PatForm::Bind(x) => s.under_value(alloc, x),
        PatForm::Holding(_, inner) => under_pattern(alloc, s, inner),
        PatForm::Rec(fs, _) => under_fields(alloc, s, fs),
        PatForm::Typed(inner, _) => under_pattern(alloc, s, inner),
        PatForm::Any | PatForm::Int(_, _) | PatForm::Words(_) | PatForm::Bare(_) => Ok(s),
    }
}

/// The scope inside of the patterns of fields.
#[cycle(under)]
fn under_fields<'p>(alloc: Global, s: Here<'p>, fs: &PatFields) -> Result<Here<'p>, AllocError>
    ensures { IfOk result
        (λ r. scope_view r ≡ under_values (fields_names (pat_fields_tree fs.now)) (scope_view s.entry)) }
{
    let mut here = s;
    for i in 0..fs.items.len() {
        here = under_field(alloc, here, &fs.items[i])?;
    }
    Ok(here)
}

/// The scope inside of the pattern of a field.
#[cycle(under)]
fn under_field<'p>(alloc: Global, s: Here<'p>, f: &PatField) -> Result<Here<'p>, AllocError>
    ensures { IfOk result
        (λ r. scope_view r ≡ under_values (field_names (pat_field_tree f.now)) (scope_view s.entry)) }
{
    under_pattern(alloc, s, &f.pat)
}

/// The name of a value.
pub fn name_of(n: &Named) -> &Text
    ensures { result.now ≡ terms.name_of (named_tree n.now) }
{
    &n.name.text
}

/// The scope inside of names that are declared together.
pub fn inside_group<'p>(alloc: Global, s: &Here<'p>, ns: &NamedList) -> Result<Here<'p>, AllocError>
    ensures { IfOk result
        (λ r. scope_view r ≡ under_values (group_names (named_list_tree ns.now)) (scope_view s.now)) }
{
    let mut here = share(s)?;
    for i in 0..ns.items.len() {
        here = here.under_value(alloc, name_of(&ns.items[i]))?;
    }
    Ok(here)
}

//! Scopes inside of binders.
ghost use Rattle.std.specs.Prelude.{◌≡◌, IfOk};
ghost use Rattle.con_terms.specs.View.{con_tree};
ghost use Rattle.core_terms.specs.Lists.{pat_field_tree};
ghost use Rattle.core_terms.specs.View.{named_list_tree, named_tree, pat_fields_tree, pat_tree};
ghost use Rattle.inserted_terms.specs.Inside as inside;
ghost use Rattle.inserted_terms.specs.View.{at_view};

use crate::at::At;
use con_terms::{Con, Sym, copy_con};
use core_terms::{Named, NamedList, Pat, PatField, PatFields, PatForm};
use judgements::{Locals, with_local};
use source_names::Here;
use std::alloc::{AllocError, Global};
use std::rc::Rc;

/// The same scope once more.
pub fn share<'p>(h: &At<'p>) -> Result<At<'p>, AllocError>
    ensures { IfOk result (λ r. at_view r ≡ at_view h.now) }
{
    Ok(At {
        names: Here {
            known: h.names.known,
            program: h.names.program,
            values: h.names.values.clone()?,
            variables: h.names.variables.clone()?,
        },
        program: h.program,
        tops: h.tops,
        basis: h.basis,
        locals: h.locals.clone()?,
    })
}

/// The scope inside of a binder of a variable. A name without a text counts as want of memory.
pub fn inside_binder<'p>(alloc: Global, h: &At<'p>, x: Sym, t: &Con) -> Result<At<'p>, AllocError>
    ensures { IfOk result
        (λ r. at_view r ≡ inside.inside_binder x.number (con_tree t.now) (at_view h.now)) }
{
    let index = x.number as usize;
    let texts = &h.names.program.names;
    if index >= texts.len() {
        return Err(AllocError);
    }
    let names = h.names.under_value(alloc, texts.at(index))?;
    let locals = with_local(alloc, copy_con(alloc, t)?, &h.locals)?;
    Ok(At {
        names,
        program: h.program,
        tops: h.tops,
        basis: h.basis,
        locals,
    })
}

/// The scope inside of a binder of a constructor variable.
pub fn inside_variable<'p>(alloc: Global, h: &At<'p>) -> Result<At<'p>, AllocError>
    ensures { IfOk result (λ r. at_view r ≡ inside.inside_variable (at_view h.now)) }
{
    let locals = Rc::new(alloc, Locals::Binder(h.locals.clone()?)).map_err(AllocError::from)?;
    let same = share(h)?;
    Ok(At {
        names: same.names,
        program: same.program,
        tops: same.tops,
        basis: same.basis,
        locals,
    })
}

/// The scope inside of a pattern, whose last variable is the innermost.
pub fn inside_pattern<'p>(alloc: Global, h: &At<'p>, p: &Pat) -> Result<At<'p>, AllocError>
    ensures { IfOk result (λ r. at_view r ≡ inside.inside (pat_tree p.now) (at_view h.now)) }
{
    under_pattern(alloc, share(h)?, p)
}

/// The same, of a scope that isn't used any more.
#[cycle(under)]
fn under_pattern<'p>(alloc: Global, h: At<'p>, p: &Pat) -> Result<At<'p>, AllocError>
    ensures { IfOk result (λ r. at_view r ≡ inside.inside (pat_tree p.now) (at_view h.entry)) }
{
    match &p.form {
        PatForm::Bind(x, t) => inside_binder(alloc, &h, *x, t),
        PatForm::Build(_, _, held) => match held {
            None => Ok(h),
            Some(inner) => under_pattern(alloc, h, inner),
        },
        PatForm::Rec(fs, _) => under_fields(alloc, h, fs),
        PatForm::Typed(inner, _) => under_pattern(alloc, h, inner),
        PatForm::Any | PatForm::Int(_) | PatForm::Words(_) => Ok(h),
    }
}

/// The scope inside of the patterns of fields.
#[cycle(under)]
fn under_fields<'p>(alloc: Global, h: At<'p>, fs: &PatFields) -> Result<At<'p>, AllocError>
    ensures { IfOk result
        (λ r. at_view r ≡ inside.inside_fields (pat_fields_tree fs.now) (at_view h.entry)) }
{
    let mut here = h;
    for i in 0..fs.items.len() {
        here = under_field(alloc, here, &fs.items[i])?;
    }
    Ok(here)
}

/// The scope inside of the pattern of a field.
#[cycle(under)]
fn under_field<'p>(alloc: Global, h: At<'p>, f: &PatField) -> Result<At<'p>, AllocError>
    ensures { IfOk result (λ r. at_view r ≡ inside.inside (pat_field_tree f.now).2 (at_view h.entry)) }
{
    under_pattern(alloc, h, &f.pat)
}

/// The scope inside of a name with its term.
pub fn inside_named<'p>(alloc: Global, h: &At<'p>, n: &Named) -> Result<At<'p>, AllocError>
    ensures { IfOk result
        (λ r. at_view r ≡ inside.inside_binder (named_tree n.now).1 (named_tree n.now).3 (at_view h.now)) }
{
    inside_binder(alloc, h, n.name, &n.con)
}

/// The scope inside of names that are declared together.
pub fn inside_names<'p>(alloc: Global, h: &At<'p>, ns: &NamedList) -> Result<At<'p>, AllocError>
    ensures { IfOk result
        (λ r. at_view r ≡ inside.inside_names (named_list_tree ns.now) (at_view h.now)) }
{
    let mut here = share(h)?;
    for i in 0..ns.items.len() {
        here = inside_named(alloc, &here, &ns.items[i])?;
    }
    Ok(here)
}

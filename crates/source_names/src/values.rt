//! What names of values stand for.
ghost use Rattle.std.specs.Prelude.{◌≡◌, IfOk, map};
ghost use Rattle.core_terms.specs.View.{foreign_view, form_tree};
ghost use Rattle.source_names.specs.Standing as standing;
ghost use Rattle.source_names.specs.View.{scope_view};

use crate::here::{Here, binder_at};
use crate::texts::same_text;
use core_terms::{Foreigns, Form};
use plain_tree::Path;
use std::alloc::AllocError;
use table_rows::Text;
use type_makers::value_text;

/// Whether a form is the variable of a binder.
fn is_binder(form: &Form, number: u32) -> bool
    ensures { result ≡ standing.is_meant (standing.a_binder number) (form_tree form.now) }
{
    match form {
        Form::Var(i) => number == *i,
        _ => false,
    }
}

/// Whether a form is the top-level value with a number.
fn is_top(form: &Form, number: usize) -> bool
    ensures { result ≡ standing.is_meant (standing.a_top number) (form_tree form.now) }
{
    match form {
        Form::Top(i) => number == *i as usize,
        _ => false,
    }
}

/// Whether a form is the foreign effect with a number.
fn is_effect(form: &Form, number: usize) -> bool
    ensures { result ≡ standing.is_meant (standing.an_effect number) (form_tree form.now) }
{
    match form {
        Form::Foreign(i) => number == *i as usize,
        _ => false,
    }
}

/// Whether a form is the value of a name that every program has.
fn is_basis(form: &Form, name: &Text) -> bool
    ensures { result ≡ standing.is_meant (standing.of_basis name.now) (form_tree form.now) }
{
    match form {
        Form::Basis(value) => value_text(*value) == name.as_str(),
        Form::Fold(_) => "fold" == name.as_str(),
        _ => false,
    }
}

/// The number of the first foreign effect of a module's name and a name.
fn effect_in(home: &Text, name: &Text, effects: &Foreigns) -> Option<usize>
    ensures { result ≡ standing.effect_in home.now name.now (map foreign_view effects.now.items.items) }
{
    for i in 0..effects.items.len() {
        let effect = &effects.items[i];
        if same_text(&effect.module, home) && same_text(&effect.name, name) {
            return Some(i);
        }
    }
    None
}

/// Whether a form is what a name stands for that nothing declares.
fn is_undeclared(s: &Here<'_>, path: &Path, form: &Form) -> bool
    ensures { result ≡ standing.is_meant
        (standing.undeclared (scope_view s.now).tables path.now.modules path.now.name) (form_tree form.now) }
{
    match path.modules.items.as_slice() {
        [] => is_basis(form, &path.name),
        [home] => match effect_in(home, &path.name, &s.program.foreign) {
            None => false,
            Some(number) => is_effect(form, number),
        },
        _ => false,
    }
}

/// Whether a name of a value stands for what a form is.
pub fn names_value(s: &Here<'_>, path: &Path, form: &Form) -> Result<bool, AllocError>
    ensures { IfOk result (λ b. b ≡ standing.names_value (scope_view s.now) path.now (form_tree form.now)) }
{
    match binder_at(path, &s.values)? {
        Some(number) => Ok(is_binder(form, number)),
        None => match s.known.value(path) {
            Some(number) => Ok(is_top(form, number)),
            None => Ok(is_undeclared(s, path, form)),
        },
    }
}

//! Names in constructors of the type level.
ghost use Rattle.std.specs.Prelude.{◌≡◌, IfOk};
ghost use Rattle.plain_tree.specs.ConView.{con_tree, cons_tree, con_field_tree, con_fields_tree, maybe_con};
ghost use Rattle.source_names.specs.Scopes.{under_variable};
ghost use Rattle.unbound_names.specs.Types as types;
ghost use Rattle.unbound_names.specs.View.{around_view, ask_view};

use crate::around::Around;
use crate::asked::{Asked, is_path};
use crate::in_scope::type_in_scope;
use plain_tree::{Con, ConField, ConFields, ConForm, Cons, Path};
use std::alloc::AllocError;
use table_rows::Text;

/// Whether a name of the type level at a byte is the one that is asked of, and isn't in scope.
fn unbound_type(q: &Asked<'_>, s: &Around<'_>, at: u32, path: &Path) -> Result<bool, AllocError>
    ensures { IfOk result (λ b. b ≡ types.unbound_type (ask_view q.now) (around_view s.now) at path.now) }
{
    Ok(is_path(q, at, path)? && !type_in_scope(s, path))
}

/// Whether the name that is asked of stands in a constructor, and isn't in scope there.
#[cycle(unbound_con)]
pub fn unbound_con(q: &Asked<'_>, s: &Around<'_>, c: &Con) -> Result<bool, AllocError>
    ensures { IfOk result
        (λ b. b ≡ types.unbound_con (ask_view q.now) (around_view s.now) (con_tree c.now)) }
{
    match &c.form {
        ConForm::Name(path) => unbound_type(q, s, c.at, path),
        ConForm::Wild | ConForm::Label(_) | ConForm::Unit => Ok(false),
        ConForm::Arrow(from, to) => {
            if unbound_con(q, s, from)? {
                return Ok(true);
            }
            unbound_con(q, s, to)
        }
        ConForm::Poly(_, name, _, body) => unbound_under(q, s, name, body),
        ConForm::Guarded(left, right, body) => {
            if unbound_con(q, s, left)? {
                return Ok(true);
            }
            if unbound_con(q, s, right)? {
                return Ok(true);
            }
            unbound_con(q, s, body)
        }
        ConForm::Lambda(name, _, body) => unbound_under(q, s, name, body),
        ConForm::Record(_, row) => unbound_con(q, s, row),
        ConForm::Apply(function, arguments) => {
            if unbound_con(q, s, function)? {
                return Ok(true);
            }
            unbound_cons(q, s, arguments)
        }
        ConForm::Concat(first, more) => {
            if unbound_con(q, s, first)? {
                return Ok(true);
            }
            unbound_cons(q, s, more)
        }
        ConForm::Tuple(parts) => unbound_cons(q, s, parts),
        ConForm::Kinded(part, _) => unbound_con(q, s, part),
        ConForm::Row(fields) => unbound_fields(q, s, fields),
        ConForm::Proj(tuple, _) => unbound_con(q, s, tuple),
    }
}

/// The same inside of a binder of a constructor variable.
#[cycle(unbound_con)]
#[inline(never)]
fn unbound_under(q: &Asked<'_>, s: &Around<'_>, name: &Text, c: &Con) -> Result<bool, AllocError>
    ensures { IfOk result (λ b. b ≡
        types.unbound_con (ask_view q.now) (under_variable name.now (around_view s.now)) (con_tree c.now)) }
{
    let under = s.under_variable(q.alloc, name)?;
    unbound_con(q, &under, c)
}

/// The same for constructors one after another.
#[cycle(unbound_con)]
#[inline(never)]
fn unbound_cons(q: &Asked<'_>, s: &Around<'_>, cs: &Cons) -> Result<bool, AllocError>
    ensures { IfOk result
        (λ b. b ≡ types.unbound_cons (ask_view q.now) (around_view s.now) (cons_tree cs.now)) }
{
    for i in 0..cs.items.len() {
        if unbound_con(q, s, &cs.items[i])? {
            return Ok(true);
        }
    }
    Ok(false)
}

/// The same for the fields of a row.
#[cycle(unbound_con)]
#[inline(never)]
fn unbound_fields(q: &Asked<'_>, s: &Around<'_>, fs: &ConFields) -> Result<bool, AllocError>
    ensures { IfOk result
        (λ b. b ≡ types.unbound_con_fields (ask_view q.now) (around_view s.now) (con_fields_tree fs.now)) }
{
    for i in 0..fs.items.len() {
        if unbound_field(q, s, &fs.items[i])? {
            return Ok(true);
        }
    }
    Ok(false)
}

/// The same for a field of a row.
#[cycle(unbound_con)]
fn unbound_field(q: &Asked<'_>, s: &Around<'_>, f: &ConField) -> Result<bool, AllocError>
    ensures { IfOk result
        (λ b. b ≡ types.unbound_con_field (ask_view q.now) (around_view s.now) (con_field_tree f.now)) }
{
    if unbound_con(q, s, &f.name)? {
        return Ok(true);
    }
    unbound_con(q, s, &f.value)
}

/// The same where a constructor may be left out.
pub fn unbound_maybe(q: &Asked<'_>, s: &Around<'_>, c: &Option<Con>) -> Result<bool, AllocError>
    ensures { IfOk result
        (λ b. b ≡ types.unbound_maybe (ask_view q.now) (around_view s.now) (maybe_con c.now)) }
{
    match c {
        None => Ok(false),
        Some(c) => unbound_con(q, s, c),
    }
}

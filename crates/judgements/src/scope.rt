//! What is in scope where a term stands.
ghost use Rattle.std.specs.Prelude.{◌≡◌, IfOk, slice_get, map};
ghost use Rattle.con_terms.specs.View.{con_tree, kind_tree};
ghost use Rattle.core_terms.specs.View.{maybe_con};
ghost use Rattle.core_typing.specs.Scopes.{under_con as under_con_in, under_guard as under_guard_in};
ghost use Rattle.judgements.specs.Bindings.{having};
ghost use Rattle.judgements.specs.View.{locals_view, sc_view};
ghost use Rattle.row_normal.specs.View.{normal_tree};

use crate::called::Called;
use crate::compare::copied;
use crate::globals::Globals;
use crate::locals::{Locals, look_up};
use con_terms::{Con, Kind, Sym};
use kind_rules::Scope;
use row_normal::Normal;
use std::alloc::{AllocError, Global};
use std::rc::Rc;

/// Kinds and guards, what the constructor variables are called, and the types of the variables. With the globals,
/// contracts see it as the scope `sc_view`.
#[derive(Drop)]
pub struct Here {
    pub kinds: Rc<Scope>,
    pub called: Rc<Called>,
    pub locals: Rc<Locals>,
}

/// The type of a variable.
pub fn local_type(alloc: Global, s: &Here, i: u32) -> Result<Option<Con>, AllocError>
    ensures { IfOk result (λ o. maybe_con o ≡ slice_get (locals_view s.now.locals.value) i) }
{
    look_up(alloc, &s.locals, i, 0)
}

/// The type of a top-level value.
pub fn top_type(alloc: Global, g: &Globals, i: u32) -> Result<Option<Con>, AllocError>
    ensures { IfOk result (λ o. maybe_con o ≡ slice_get (map con_tree g.now.tops.items) i) }
{
    let index = i as usize;
    if index < g.tops.len() {
        Ok(Some(copied(alloc, &g.tops[index])?))
    } else {
        Ok(None)
    }
}

/// The scope with other variables.
pub fn with_locals(s: &Here, locals: Rc<Locals>) -> Result<Here, AllocError>
    ensures { IfOk result (λ r. (g : _) → sc_view g r ≡ having (locals_view locals.value) (sc_view g s.now)) }
{
    Ok(Here {
        kinds: s.kinds.clone()?,
        called: s.called.clone()?,
        locals,
    })
}

/// The scope under one more constructor variable.
pub fn under_con(alloc: Global, s: &Here, x: Sym, k: &Kind) -> Result<Here, AllocError>
    ensures { IfOk result
        (λ r. (g : _) → sc_view g r ≡ under_con_in x.number (kind_tree k.now) (sc_view g s.now)) }
{
    let kinds = s.kinds.bind(k)?;
    Ok(Here {
        kinds: Rc::new(alloc, kinds).map_err(AllocError::from)?,
        called: Rc::new(alloc, Called::Under(x, s.called.clone()?)).map_err(AllocError::from)?,
        locals: Rc::new(alloc, Locals::Binder(s.locals.clone()?)).map_err(AllocError::from)?,
    })
}

/// The scope with one more guard: these two rows are apart.
pub fn under_guard(
    alloc: Global,
    s: &Here,
    left: &Normal,
    right: &Normal,
) -> Result<Here, AllocError>
    ensures { IfOk result
        (λ r. (g : _) → sc_view g r ≡ under_guard_in (normal_tree left.now) (normal_tree right.now) (sc_view g s.now)) }
{
    let kinds = s.kinds.assume(left, right)?;
    Ok(Here {
        kinds: Rc::new(alloc, kinds).map_err(AllocError::from)?,
        called: s.called.clone()?,
        locals: s.locals.clone()?,
    })
}

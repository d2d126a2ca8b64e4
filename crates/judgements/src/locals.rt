//! The types of the variables in scope.
ghost use Rattle.std.specs.Prelude.{◌≡◌, ◌∷◌, ◌<◌, ◌^◌, IfOk, option_map, slice_get};
ghost use Rattle.con_terms.specs.Substitution.{shift as shifted};
ghost use Rattle.con_terms.specs.View.{con_tree};
ghost use Rattle.core_terms.specs.View.{maybe_con};
ghost use Rattle.judgements.specs.View.{locals_view};

use con_terms::{Con, has_room, shift};
use std::alloc::{AllocError, Global};
use std::rc::Rc;

/// The types of the variables, the innermost first. Behind a binder stand types that are seen from outside of it.
#[derive(Drop)]
pub enum Locals {
    Empty,
    Typed(Rc<Con>, Rc<Locals>),
    Binder(Rc<Locals>),
}

/// What binders may nest below.
const BINDERS: u32 = 1 << 31;

/// A type as it is seen from under so many binders more. One without room for that counts as want of memory.
fn raised(alloc: Global, c: &Con, by: u32) -> Result<Con, AllocError>
    ensures { IfOk result (λ new. con_tree new ≡ shifted by (con_tree c.now) 0) }
{
    if by >= BINDERS || !has_room(c) {
        return Err(AllocError);
    }
    shift(alloc, c, by, 0)
}

/// The type of a variable, seen from under so many binders more.
#[cycle(look_up)]
pub fn look_up(alloc: Global, locals: &Locals, i: u32, by: u32) -> Result<Option<Con>, AllocError>
    ensures { IfOk result
        (λ o. maybe_con o ≡ option_map (λ t. shifted by t 0) (slice_get (locals_view locals.now) i)) }
{
    match locals {
        Locals::Empty => Ok(None),
        Locals::Typed(t, rest) => {
            if i == 0 {
                Ok(Some(raised(alloc, t, by)?))
            } else {
                look_up(alloc, rest, i - 1, by)
            }
        }
        Locals::Binder(rest) => {
            if by >= BINDERS {
                return Err(AllocError);
            }
            look_up(alloc, rest, i, by + 1)
        }
    }
}

/// The types with one more variable, which is the innermost.
pub fn with_local(alloc: Global, t: Con, rest: &Rc<Locals>) -> Result<Rc<Locals>, AllocError>
    ensures { IfOk result (λ r. locals_view r.value ≡ con_tree t ∷ locals_view rest.now.value) }
{
    let t = Rc::new(alloc, t).map_err(AllocError::from)?;
    Ok(Rc::new(alloc, Locals::Typed(t, rest.clone()?)).map_err(AllocError::from)?)
}

//! The forms of types, with their rows as written.
ghost use Rattle.std.specs.Prelude.{◌≡◌, IfOk, option_and_then};
ghost use Rattle.con_terms.specs.View.{con_tree};
ghost use Rattle.core_terms.specs.View.{maybe_con};
ghost use Rattle.guided_terms.specs.Forms as forms;
ghost use Rattle.inserted_terms.specs.Asked as asked;

use con_terms::Con;
use judgements::put;
use kind_rules::comparison_fuel;
use row_normal::written::reduce;
use row_normal::{NormalFault, reduce_head};
use std::alloc::{AllocError, Global};

/// What steps leave of a type as soon as its form is known; none where it is too large.
pub fn head_of(alloc: Global, c: &Con) -> Result<Option<Con>, AllocError>
    ensures { IfOk result (λ o. maybe_con o ≡ forms.head_of (con_tree c.now)) }
{
    let mut fuel = comparison_fuel();
    match reduce_head(alloc, c, &mut fuel) {
        Ok(head) => Ok(Some(head)),
        Err(NormalFault::TooLarge) => Ok(None),
        Err(NormalFault::Memory) => Err(AllocError),
    }
}

/// What all steps leave of a type, with rows as written; none where it is too large.
pub fn steps_of(alloc: Global, c: &Con) -> Result<Option<Con>, AllocError>
    ensures { IfOk result (λ o. maybe_con o ≡ forms.steps_of (con_tree c.now)) }
{
    let mut fuel = comparison_fuel();
    match reduce(alloc, c, &mut fuel) {
        Ok(row) => Ok(Some(row)),
        Err(NormalFault::TooLarge) => Ok(None),
        Err(NormalFault::Memory) => Err(AllocError),
    }
}

/// A type as far as its form is known: as it is where it takes something.
fn form_of(alloc: Global, t: Con) -> Result<Option<Con>, AllocError>
    ensures { IfOk result (λ o. maybe_con o ≡ asked.form_of (con_tree t)) }
{
    match t {
        Con::Arrow(a, b) => Ok(Some(Con::Arrow(a, b))),
        Con::Poly(i, k, b) => Ok(Some(Con::Poly(i, k, b))),
        Con::Guarded(c, d, b) => Ok(Some(Con::Guarded(c, d, b))),
        t => head_of(alloc, &t),
    }
}

/// The form of a type, where there is one.
fn form_of_some(alloc: Global, t: Option<Con>) -> Result<Option<Con>, AllocError>
    ensures { IfOk result (λ o. maybe_con o ≡ option_and_then asked.form_of (maybe_con t)) }
{
    match t {
        None => Ok(None),
        Some(t) => form_of(alloc, t),
    }
}

/// What is left of a type behind a constructor.
pub fn past_con(alloc: Global, c: &Con, t: Option<Con>) -> Result<Option<Con>, AllocError>
    ensures { IfOk result (λ o. maybe_con o ≡ asked.past_con (con_tree c.now) (maybe_con t)) }
{
    match form_of_some(alloc, t)? {
        Some(Con::Poly(_, _, body)) => Ok(Some(put(alloc, &body, c)?)),
        _ => Ok(None),
    }
}

/// What is left of a type behind a guard's proof.
pub fn past_guard(alloc: Global, t: Option<Con>) -> Result<Option<Con>, AllocError>
    ensures { IfOk result (λ o. maybe_con o ≡ asked.past_guard (maybe_con t)) }
{
    match form_of_some(alloc, t)? {
        Some(Con::Guarded(_, _, body)) => Ok(Some(Box::into_inner(body))),
        _ => Ok(None),
    }
}

/// The type of the parameter that a term is for, and what is left behind it; none of both where no term is taken.
#[derive(Drop)]
pub struct Split {
    pub taken: Option<Con>,
    pub rest: Option<Con>,
}

/// What a type takes, and what is left of it behind a term.
pub fn taken_apart(alloc: Global, t: Option<Con>) -> Result<Split, AllocError>
    ensures taken { IfOk result (λ s. maybe_con s.taken ≡ asked.parameter (maybe_con t)) }
    ensures rest { IfOk result (λ s. maybe_con s.rest ≡ asked.past_term (maybe_con t)) }
{
    match form_of_some(alloc, t)? {
        Some(Con::Arrow(a, b)) => Ok(Split {
            taken: Some(Box::into_inner(a)),
            rest: Some(Box::into_inner(b)),
        }),
        _ => Ok(Split {
            taken: None,
            rest: None,
        }),
    }
}

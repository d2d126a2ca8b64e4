//! Tasks over what is declared so far. Where one wants a symbol of `folder` that isn't there yet, the
//! symbol is made and the task begins anew.
use crate::fault::{Refusal, memory, refused};
use crate::terms::Env;
use core_terms::Decl;
use name_scopes::{ElabFault, MOST_TYPES, Scope, Tops};
use std::alloc::{AllocError, Global};
use std::rc::Rc;

/// What is made of a declaration, or of a part of it, in the scope where it stands.
pub trait Task {
    type Made: Drop;

    /// Makes it.
    fn make(&self, alloc: Global, env: &Env) -> Result<Self::Made, ElabFault>;
}

/// What was made, and what is declared.
#[derive(Drop)]
pub struct Done<M> {
    pub tops: Tops,
    pub made: M,
}

/// A scope at the top of a file.
fn env_of(alloc: Global, tops: Tops, file: u32) -> Result<Env, AllocError> {
    let shared = Rc::new(alloc, tops).map_err(AllocError::from)?;
    Ok(Env {
        scope: Scope::new(shared)?,
        file,
    })
}

/// What was made at the scope's end, or why nothing was.
#[derive(Drop)]
struct Attempt<M> {
    tops: Tops,
    made: Result<M, ElabFault>,
}

/// Makes it once.
fn attempted<T: Task>(
    alloc: Global,
    tops: Tops,
    file: u32,
    task: &T,
) -> Result<Attempt<T::Made>, AllocError> {
    let env = env_of(alloc, tops, file)?;
    let made = task.make(alloc, &env);
    let Env { scope, file: _ } = env;
    Ok(Attempt {
        tops: scope.into_tops()?,
        made,
    })
}

/// What is declared, with the symbol of `folder` that a fault wants. Another fault refuses.
fn with_folder(alloc: Global, tops: Tops, fault: ElabFault) -> Result<Tops, Refusal> {
    let mut tops = tops;
    match fault {
        ElabFault::WantsFolder(kind) => match tops.add_folder(Box::into_inner(kind)) {
            Ok(()) => Ok(tops),
            Err(_) => Err(memory(alloc)),
        },
        fault => Err(refused(alloc, fault, &tops)),
    }
}

/// What comes of making it once.
#[derive(Drop)]
enum Step<M> {
    /// It is made.
    Made(Done<M>),
    /// One symbol of `folder` more is declared.
    Again(Tops),
}

/// Makes it once, or declares a symbol of `folder` that it wants.
fn tried_once<T: Task>(
    alloc: Global,
    tops: Tops,
    file: u32,
    task: &T,
) -> Result<Step<T::Made>, Refusal> {
    let Ok(tried) = attempted(alloc, tops, file, task) else {
        return Err(memory(alloc));
    };
    let Attempt { tops, made } = tried;
    match made {
        Ok(made) => Ok(Step::Made(Done { tops, made })),
        Err(fault) => Ok(Step::Again(with_folder(alloc, tops, fault)?)),
    }
}

/// Makes it, with all symbols of `folder` that it wants.
pub fn perform<T: Task>(
    alloc: Global,
    tops: Tops,
    file: u32,
    task: &T,
) -> Result<Done<T::Made>, Refusal> {
    let mut tops = tops;
    for _ in 0..MOST_TYPES {
        match tried_once(alloc, tops, file, task)? {
            Step::Made(done) => return Ok(done),
            Step::Again(behind) => tops = behind,
        }
    }
    Err(memory(alloc))
}

/// A value on the heap.
pub fn on_heap<T: Drop>(alloc: Global, value: T) -> Result<Box<T>, AllocError> {
    Ok(Box::new(alloc, value)?)
}

/// A declaration that was made, with what is declared.
pub fn declared(alloc: Global, tops: Tops, decl: Decl) -> Result<Done<Box<Decl>>, Refusal> {
    match on_heap(alloc, decl) {
        Ok(made) => Ok(Done { tops, made }),
        Err(_) => Err(memory(alloc)),
    }
}

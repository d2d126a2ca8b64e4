//! A whole program: kept where no fault is told, given back with the fault where one is.
ghost use Rattle.std.specs.Prelude.{◌≡◌, IfErr, IfOk, None};
ghost use Rattle.core_checker.specs.Refusals.{GivesBack};
ghost use Rattle.core_checker.specs.Told.{IsTold, ToldOf};
ghost use Rattle.core_terms.specs.View.{program_view};
ghost use Rattle.core_typing.specs.Accepts.{Accepts, Formed};
ghost use Rattle.core_typing.specs.Tells.{Clear};
ghost use Rattle.type_faults.specs.View.{maybe_fault};

use crate::told::fault_told;
use core_terms::Program;
use core_typing::what_is_found_is_accepted;
use program_forms::is_formed;
use std::alloc::{AllocError, Global};
use type_faults::Fault;

/// A program that is refused, with what is told of it.
#[derive(Drop)]
pub struct Refused {
    pub program: Program,
    pub fault: Fault,
}

/// Why a program isn't kept.
#[derive(Drop)]
pub enum CheckFault {
    Refused(Box<Refused>),
    /// Memory ran out, or a term, a pattern or a type is nested too deep.
    Memory,
}

impl From<AllocError> for CheckFault {
    ghost use Rattle.core_checker.specs.declared.programs.CheckFault.TheVariants.{Memory};

    ghost from_gives = { λ _ e. e ≡ Memory };

    fn from(_error: AllocError) -> CheckFault {
        CheckFault::Memory
    }
}

/// The fault that is told of a program; one of which none is told is accepted.
fn told(alloc: Global, p: &Program) -> Result<Option<Fault>, AllocError>
    ensures accepted { IfOk result (λ o. o ≡ None → Formed (program_view p.now) → Accepts (program_view p.now)) }
    ensures told { IfOk result (λ o. IsTold (program_view p.now) (maybe_fault o)) }
{
    what_is_found_is_accepted();
    fault_told(alloc, p)
}

/// The program, where it is formed and no fault is told of it: then it is accepted, and no premise fails in it. A
/// refusal gives it back with the fault that it tells: the first in text order, and the inner first where two begin at
/// one byte. One that isn't formed counts as want of memory, since no elaborator of this repository builds one.
pub fn checked(alloc: Global, p: Program) -> Result<Program, CheckFault>
    ensures kept { IfOk result (λ q. q ≡ p) }
    ensures accepted { IfOk result (λ q. Accepts (program_view q)) }
    ensures clear { IfOk result (λ q. Clear (program_view q)) }
    ensures given_back { IfErr result (λ e. GivesBack p e) }
    ensures told { IfErr result (λ e. ToldOf (program_view p) e) }
{
    if !is_formed(alloc, &p)? {
        return Err(CheckFault::Memory);
    }
    match told(alloc, &p)? {
        None => Ok(p),
        Some(fault) => {
            let refused = Box::new(alloc, Refused { program: p, fault }).map_err(AllocError::from)?;
            Err(CheckFault::Refused(refused))
        }
    }
}

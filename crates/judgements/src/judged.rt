//! What is found for a term and for a pattern.
ghost use Rattle.std.specs.Prelude.{◌≡◌};
ghost use Rattle.con_terms.specs.View.{con_tree};
ghost use Rattle.core_terms.specs.View.{maybe_con};
ghost use Rattle.judgements.specs.Bindings.{of_name as name_found};
ghost use Rattle.judgements.specs.View.{judged_tree};
ghost use Rattle.told_faults.specs.Computed as computed;
ghost use Rattle.type_faults.specs.View.{fault_tree};

use crate::locals::Locals;
use con_terms::Con;
use std::rc::Rc;
use type_faults::Fault;

/// What is found for a term: its type, where it has one, and the fault that is told, where there is one. Contracts see
/// it as `judged_tree`.
#[derive(Drop)]
pub struct Judged {
    pub ty: Option<Con>,
    pub told: Option<Fault>,
}

/// The types of the variables with those that a pattern binds, or what is told of the pattern. Contracts see it as
/// `bound_tree`.
#[derive(Drop)]
pub enum Bound {
    Under(Rc<Locals>),
    Bad(Fault),
}

/// A fault alone.
pub fn faulty(f: Fault) -> Judged
    ensures { judged_tree result ≡ computed.faulty (fault_tree f) }
{
    Judged {
        ty: None,
        told: Some(f),
    }
}

/// A type alone.
pub fn typed(t: Con) -> Judged
    ensures { judged_tree result ≡ computed.typed (con_tree t) }
{
    Judged {
        ty: Some(t),
        told: None,
    }
}

/// Neither a type nor a fault.
pub fn neither() -> Judged
    ensures { judged_tree result ≡ computed.neither }
{
    Judged {
        ty: None,
        told: None,
    }
}

/// A name, by its type where it is bound.
pub fn of_name(f: Fault, o: Option<Con>) -> Judged
    ensures { judged_tree result ≡ name_found (fault_tree f) (maybe_con o) }
{
    match o {
        None => faulty(f),
        Some(t) => typed(t),
    }
}

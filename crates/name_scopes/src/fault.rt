//! Why a source isn't elaborated.
use con_terms::{Kind, Place};
use std::alloc::AllocError;
use std::fmt;
use table_rows::Text;
use type_faults::Fault;

/// Why a source isn't elaborated, and where.
#[derive(Drop)]
pub enum ElabFault {
    /// A name that isn't in scope where it stands.
    Unbound(Place, Text),
    /// What the checker would tell, where elaboration can't go on without it.
    Told(Fault),
    /// No value has the type of an instance that a call wants.
    NoInstance(Place),
    /// A call wants the folder of a row that isn't literal.
    NoFolder(Place),
    /// A type, a kind or a constructor that the rules of inference leave open.
    Unsolved(Place),
    /// A form for which there are no rules yet.
    NotBuilt(Place),
    /// A symbol is wanted for folders of rows whose values have this kind. It is made, and the
    /// declaration is elaborated anew, so no source is refused so.
    WantsFolder(Box<Kind>),
    /// Memory ran out.
    Memory,
}

impl From<AllocError> for ElabFault {
    ghost use Rattle.std.specs.Prelude.{◌≡◌};
    ghost use Rattle.name_scopes.specs.declared.fault.ElabFault.TheVariants.{Memory};

    ghost from_gives = { λ _ e. e ≡ Memory };

    fn from(_error: AllocError) -> ElabFault {
        ElabFault::Memory
    }
}

impl fmt::Debug for ElabFault {
    fn fmt<W: fmt::Write>(&self, f: &mut fmt::Formatter<W>) -> fmt::Result {
        let name = match self {
            ElabFault::Unbound(_, _) => "Unbound",
            ElabFault::Told(_) => "Told",
            ElabFault::NoInstance(_) => "NoInstance",
            ElabFault::NoFolder(_) => "NoFolder",
            ElabFault::Unsolved(_) => "Unsolved",
            ElabFault::NotBuilt(_) => "NotBuilt",
            ElabFault::WantsFolder(_) => "WantsFolder",
            ElabFault::Memory => "Memory",
        };
        f.write_str(name)
    }
}

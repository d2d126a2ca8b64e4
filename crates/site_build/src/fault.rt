//! Why a project isn't built.
use project_sources::SourceFault;
use std::alloc::AllocError;
use std::fmt;
use table_rows::Text;
use thiserror::Error;

/// Why a project isn't built, in the order in which it is asked.
#[derive(Drop, Error)]
pub enum BuildFault {
    /// Its sources aren't read.
    #[error("the sources aren't read")]
    Source(SourceFault),
    /// At this byte of this file stands the first form that isn't built yet.
    #[error("{}: a form that isn't built yet stands at byte {at}", .file.as_str())]
    NotBuilt { file: Text, at: u32 },
    /// Its program is refused: the file and the byte, and what the line says behind them.
    #[error("the program is refused")]
    Refused { file: Text, at: u32, told: String },
    /// Reading failed.
    #[error("reading failed")]
    ReadFault,
    /// Memory ran out.
    #[error("out of memory")]
    Memory,
}

impl fmt::Debug for BuildFault {
    fn fmt<W: fmt::Write>(&self, f: &mut fmt::Formatter<W>) -> fmt::Result {
        write!(f, "{self}")
    }
}

impl From<AllocError> for BuildFault {
    ghost use Rattle.std.specs.Prelude.{◌≡◌};
    ghost use Rattle.site_build.specs.declared.fault.BuildFault.TheVariants.{Memory};

    ghost from_gives = { λ _ made. made ≡ Memory };

    fn from(_: AllocError) -> BuildFault {
        BuildFault::Memory
    }
}

impl From<SourceFault> for BuildFault {
    ghost use Rattle.std.specs.Prelude.{◌≡◌};
    ghost use Rattle.site_build.specs.Lines.{of_source};

    ghost from_gives = { λ fault made. made ≡ of_source fault };

    fn from(fault: SourceFault) -> BuildFault {
        match fault {
            SourceFault::ReadFault => BuildFault::ReadFault,
            SourceFault::Memory => BuildFault::Memory,
            other => BuildFault::Source(other),
        }
    }
}

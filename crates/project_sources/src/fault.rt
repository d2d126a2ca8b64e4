//! Why a project's sources aren't read.
ghost use Rattle.std.specs.Prelude.{◌≡◌};

use std::alloc::AllocError;
use surface_grammar::ParseFault;
use table_rows::Text;
use thiserror::Error;
use ur_lexer::LexFault;

/// Why a project's sources aren't read, in the order in which it is asked.
#[derive(Debug, Drop, Error)]
pub enum SourceFault {
    /// The project file may not have this line, counted from 1. Line 0 of the folder: it isn't there, or holds not
    /// exactly one project file.
    #[error("line {line} of {} may not stand there", .file.as_str())]
    BadProject { file: Text, line: usize },
    /// The project names a foreign module that isn't there.
    #[error("there is no foreign module {}", .name.as_str())]
    UnknownForeign { name: Text },
    /// The file of a module isn't there.
    #[error("{} isn't there", .file.as_str())]
    MissingFile { file: Text },
    /// The file is longer than 4,194,304 bytes.
    #[error("{} is longer than 4,194,304 bytes", .file.as_str())]
    FileTooLong { file: Text },
    /// The file isn't UTF-8.
    #[error("{} isn't UTF-8", .file.as_str())]
    NotUtf8 { file: Text },
    /// The file has no tokens.
    #[error("{}: {fault}", .file.as_str())]
    Unread { file: Text, fault: LexFault },
    /// The file's tokens are those of no module, or of no interface.
    #[error("{}: {fault}", .file.as_str())]
    Unparsed { file: Text, fault: ParseFault },
    /// Reading failed.
    #[error("reading failed")]
    ReadFault,
    /// Memory ran out.
    #[error("out of memory")]
    Memory,
}

impl From<AllocError> for SourceFault {
    ghost use Rattle.std.specs.Prelude.{◌≡◌};
    ghost use Rattle.project_sources.specs.declared.fault.SourceFault.TheVariants.{Memory};

    ghost from_gives = { λ _ made. made ≡ Memory };

    fn from(_: AllocError) -> SourceFault {
        SourceFault::Memory
    }
}

//! The line of a refusal.
ghost use Rattle.std.specs.Prelude.{◌≡◌, IfOk, Some, string_bytes};
ghost use Rattle.site_build.specs.Lines.{line_of, refused_line};

use crate::BuildFault;
use std::alloc::{AllocError, Global};

/// The line of a refused program.
fn refused_line(alloc: Global, file: &str, at: u32, told: &str) -> Result<String, AllocError>
    ensures { IfOk result (λ line. string_bytes line ≡ refused_line file.now at told.now) }
{
    let mut line = file.to_string(alloc)?;
    line.push_str(":")?;
    line.push_str(at.to_string(alloc)?.as_str())?;
    line.push_str(": ")?;
    line.push_str(told)?;
    line.push_str("\n")?;
    Ok(line)
}

impl BuildFault {
    /// The line that tells the refusal. A failure of reading and want of memory have none, and answer want of memory.
    pub fn line(&self, alloc: Global) -> Result<String, AllocError>
        ensures { IfOk result (λ line. line_of self.now ≡ Some (string_bytes line)) }
    {
        match self {
            BuildFault::Source(fault) => fault.line(alloc),
            BuildFault::NotBuilt { file, at } => refused_line(
                alloc,
                file.as_str(),
                *at,
                "NotBuilt",
            ),
            BuildFault::Refused { file, at, told } => {
                refused_line(alloc, file.as_str(), *at, told.as_str())
            }
            BuildFault::ReadFault => Err(AllocError),
            BuildFault::Memory => Err(AllocError),
        }
    }
}

//! Reading the files of a folder.
ghost use Rattle.std.specs.Prelude.{◌≡◌, ◌≤◌, ◌++◌, ℕ, List, Option, Some, codes, length};
ghost use Rattle.std.specs.Prelude.{IfErr, IfOk, IfSome, IsErrOf, string_bytes};
ghost use Rattle.ur_outside.specs.Causes.{Rose};
ghost use Rattle.ur_outside.specs.Files.{IsFront};
ghost use Rattle.project_sources.specs.Causes.{Says};
ghost use Rattle.project_sources.specs.Modules.{file_in};
ghost use Rattle.project_sources.specs.Steps.{IsTooLong};

use crate::{LONGEST, SourceFault};
use std::alloc::{AllocError, Global};
use table_rows::{Bytes, Text};
use ur_outside::{FileFault, Files, Held};

/// The path of a file in a folder.
pub fn path_of(alloc: Global, dir: &str, file: &str) -> Result<String, AllocError>
    ensures { IfOk result (λ path. string_bytes path ≡ dir.now ++ codes "/" ++ file.now) }
{
    let mut path = dir.to_string(alloc)?;
    path.push_str("/")?;
    path.push_str(file)?;
    Ok(path)
}

/// What was read of a file, where it isn't too long.
fn whole(alloc: Global, file: &str, held: Held) -> Result<Bytes, SourceFault>
    requires { length held.bytes ≤ LONGEST }
    ensures few { IfOk result (λ bytes. length bytes ≤ LONGEST) }
    ensures all { (content : Option (List ℕ)) → IsFront content LONGEST held.bytes held.more
        → IfOk result (λ bytes. content ≡ Some bytes) }
    ensures refused { (content : Option (List ℕ)) → IsFront content LONGEST held.bytes held.more
        → IfErr result (Says (IsTooLong content file.now)) }
    ensures others { IsErrOf result SourceFault.ReadFault → ⊥ }
{
    let Held { bytes, more } = held;
    if more {
        let file = Text::of(alloc, file)?;
        return Err(SourceFault::FileTooLong { file });
    }
    Ok(bytes)
}

/// The bytes of a file in a folder; none where it isn't there.
pub fn read_in<F: Files>(
    alloc: Global,
    files: &mut F,
    dir: &str,
    file: &str,
) -> Result<Option<Bytes>, SourceFault>
    ensures few { IfOk result (λ found. IfSome found (λ bytes. length bytes ≤ LONGEST)) }
    // What is read is what the file holds, all of it.
    ensures content { IfOk result (λ found. IfSome (F.told files.old)
        (λ files. file_in files dir.now file.now ≡ found)) }
    // A file is refused where it is too long.
    ensures refused { IfErr result (λ fault. IfSome (F.told files.old)
        (λ files. Says (IsTooLong (file_in files dir.now file.now) file.now) fault)) }
    ensures kept { F.told files.new ≡ F.told files.old }
    ensures later { F.faults files.old ≤ F.faults files.new }
    ensures failed { IsErrOf result SourceFault.ReadFault → Rose (F.faults files.old) (F.faults files.new) }
{
    let path = path_of(alloc, dir, file)?;
    match files.read_file(alloc, path.as_str(), LONGEST) {
        Ok(held) => {
            let bytes = whole(alloc, file, held)?;
            Ok(Some(bytes))
        }
        Err(FileFault::Missing) => Ok(None),
        Err(FileFault::Failed) => Err(SourceFault::ReadFault),
        Err(FileFault::Memory) => Err(SourceFault::Memory),
    }
}

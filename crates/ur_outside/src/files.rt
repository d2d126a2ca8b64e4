//! Files and folders of the outside.
ghost use Rattle.std.specs.Prelude.{◌≡◌, ◌≤◌, ℕ, None, Option, true, false, length, IfOk, IfSome, IsErrOf};
ghost use Rattle.ur_outside.specs.Causes.{Rose};
ghost use Rattle.ur_outside.specs.Files.{Told, file_at, has_folder, IsFront, names_in};

use std::alloc::{AllocError, Global};
use table_rows::{Bytes, Texts};

/// What was read of a file.
#[derive(Debug, Drop)]
pub struct Held {
    /// Its first bytes.
    pub bytes: Bytes,
    /// Whether it has more of them.
    pub more: bool,
}

/// Why a file isn't read, or a folder isn't listed.
#[derive(Clone, Copy, Debug, PartialEq, Eq)]
pub enum FileFault {
    /// No such file or folder is there.
    Missing,
    /// The call failed, and the object counted it.
    Failed,
    /// There was no memory for what was read.
    Memory,
}

impl From<AllocError> for FileFault {
    ghost use Rattle.std.specs.Prelude.{◌≡◌};
    ghost use Rattle.ur_outside.specs.declared.files.FileFault.TheVariants.{Memory};

    ghost from_gives = { λ _ made. made ≡ Memory };

    fn from(_: AllocError) -> FileFault {
        FileFault::Memory
    }
}

/// Where files are read from. What an object holds is optional: clauses on content hold where it tells it.
pub trait Files {
    // the files by their paths, where the object tells them
    ghost told: { Self → Option Told };

    // how many calls failed; the count never falls
    ghost faults: { Self → ℕ };

    /// The first `most` bytes of the file at a path, and whether it has more.
    fn read_file(&mut self, alloc: Global, path: &str, most: usize) -> Result<Held, FileFault>
        ensures few { IfOk result (λ held. length held.bytes ≤ most) }
        ensures front { IfOk result (λ held. IfSome (told self.old)
            (λ files. IsFront (file_at files path.now) most held.bytes held.more)) }
        ensures missing { IsErrOf result FileFault.Missing
            → IfSome (told self.old) (λ files. file_at files path.now ≡ None) }
        ensures kept { told self.new ≡ told self.old }
        ensures later { faults self.old ≤ faults self.new }
        ensures failed { IsErrOf result FileFault.Failed → Rose (faults self.old) (faults self.new) };

    /// The names of the files that stand in a folder itself.
    fn list(&mut self, alloc: Global, dir: &str) -> Result<Texts, FileFault>
        ensures names { IfOk result (λ names. IfSome (told self.old) (λ files. names ≡ names_in files dir.now)) }
        ensures there { IfOk result (λ _. IfSome (told self.old) (λ files. has_folder files dir.now ≡ true)) }
        ensures missing { IsErrOf result FileFault.Missing
            → IfSome (told self.old) (λ files. has_folder files dir.now ≡ false) }
        ensures kept { told self.new ≡ told self.old }
        ensures later { faults self.old ≤ faults self.new }
        ensures failed { IsErrOf result FileFault.Failed → Rose (faults self.old) (faults self.new) };
}

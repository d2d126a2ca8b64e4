//! The top call.
ghost use Rattle.std.specs.Prelude.{◌≡◌, ◌≤◌, ◌<◌, ℕ, List, [], map, string_bytes, false, ◌⊎◌, Some, IfSome};
ghost use Rattle.std.specs.Io.KnownBytes.{Appends, Keeps};
ghost use Rattle.xml_trees.specs.Trees.{Trees, IsWhole, built, trees_of};
ghost use Rattle.xml_trees.specs.Written.{written};
ghost use Rattle.page_bytes.specs.Pages.{WritesPage, WritesFront};
ghost use Rattle.site_build.specs.Causes.{IsCauseIn};
ghost use Rattle.site_build.specs.Lines.{line_of as line_of_build};
ghost use Rattle.site_build.specs.Sources.{HasProgram};
ghost use Rattle.site_build.specs.Unshown.{HasNoPage};
ghost use Rattle.ur_outside.specs.Causes.{Rose};
ghost use Rattle.ur_outside.specs.Whole.{AppendsFront};
ghost use Rattle.page_server.specs.Lines.{accepted, usage};
ghost use Rattle.page_server.specs.Top.{CheckFrontIsWritten, ExplicitFrontIsWritten, FrontIsWritten, IsBuildCommand, IsBuildOf, IsMeant, IsNoCommand, IsPageCommand, PageIsWritten, RefusalIsWritten, SomeFrontIsWritten, SomeIsWritten, UnbuiltIsWritten};
ghost use Rattle.page_server.specs.Words.{for_check, for_explicit, reads};

use crate::words::{Command, read_command};
use page_bytes::write_page;
use program_elaborator::Terms;
use project_sources::LONGEST;
use site_build::{BuildFault, NoPage, explicit_program, page_of_text};
use std::alloc::{AllocError, Global};
use table_rows::Texts;
use ur_outside::{Failed, Files, Joined, ReadFault, Sink, Source, read_up_to, write_all};
use xml_trees::Page;

/// How the program ends.
#[derive(Clone, Copy, Debug, PartialEq, Eq)]
pub struct Ended {
    /// 0 done; 1 refused; 2 no command; 3 reading failed; 4 writing failed; 5 no memory.
    pub status: u8,
}

const USAGE: &[u8] =
    b"usage: urweb page | check DIR | explicit DIR | run DIR | serve DIR ADDR | load SEED\n";

const ACCEPTED: &[u8] = b"accepted\n";

/// One more than the most bytes that a module has, so that a longer one shows.
const ENOUGH: usize = LONGEST + 1;

/// Ends with this status, unless the piece can't be written.
fn end_with<O: Sink>(output: &mut O, piece: &[u8], status: u8) -> Ended
    requires { status < 3 }
    ensures written { result.status ≡ status → Appends (O.wrote output.old) (O.wrote output.new) piece.now }
    ensures front { result.status ≡ 4 → AppendsFront (O.wrote output.old) (O.wrote output.new) piece.now }
    ensures other { result.status ≡ status ⊎ (result.status ≡ 4) }
    ensures failed { result.status ≡ 4 → Rose (O.faults output.old) (O.faults output.new) }
{
    match write_all(output, piece) {
        Ok(()) => Ended { status },
        Err(Failed) => Ended { status: 4 },
    }
}

/// Ends with the page.
fn end_with_page<O: Sink>(output: &mut O, page: &Page) -> Ended
    requires { IsWhole (built page.now) }
    ensures written { result.status ≡ 0
        → WritesPage (O.wrote output.old) (O.wrote output.new) (written (trees_of (built page.now))) }
    ensures front { result.status ≡ 4
        → WritesFront (O.wrote output.old) (O.wrote output.new) (written (trees_of (built page.now))) }
    ensures other { (result.status ≡ 0) ⊎ (result.status ≡ 4) }
    ensures failed { result.status ≡ 4 → Rose (O.faults output.old) (O.faults output.new) }
{
    match write_page(page, output) {
        Ok(()) => Ended { status: 0 },
        Err(_) => Ended { status: 4 },
    }
}

/// Ends with the page of a module, or with the line that says why it has none.
fn end_text<T: Terms + Drop, O: Sink>(
    alloc: Global,
    terms: &T,
    output: &mut O,
    bytes: &[u8],
) -> Ended
    ensures range { (result.status ≤ 5) × ((result.status ≡ 2) ⊎ (result.status ≡ 3) → ⊥) }
    ensures page { result.status ≡ 0
        → (trees : Trees) × IsMeant bytes.now trees
        × WritesPage (O.wrote output.old) (O.wrote output.new) (written trees) }
    ensures refused { result.status ≡ 1
        → (line : List ℕ) × HasNoPage bytes.now line × Appends (O.wrote output.old) (O.wrote output.new) line }
    ensures kept { result.status ≡ 5 → Keeps (O.wrote output.old) (O.wrote output.new) }
    ensures front { result.status ≡ 4
        → ((line : List ℕ) × HasNoPage bytes.now line × AppendsFront (O.wrote output.old) (O.wrote output.new) line)
        ⊎ (trees : Trees) × IsMeant bytes.now trees
        × WritesFront (O.wrote output.old) (O.wrote output.new) (written trees) }
    ensures failed { result.status ≡ 4 → Rose (O.faults output.old) (O.faults output.new) }
{
    match page_of_text(alloc, terms, bytes) {
        Ok(page) => end_with_page(output, &page),
        Err(NoPage::Told(line)) => end_with(output, line.as_bytes(), 1),
        Err(NoPage::Memory) => Ended { status: 5 },
    }
}

/// The command `page`.
fn end_page<T: Terms + Drop, I: Source, O: Sink>(
    alloc: Global,
    terms: &T,
    input: &mut I,
    output: &mut O,
) -> Ended
    ensures range { (result.status ≤ 5) × (result.status ≡ 2 → ⊥) }
    ensures page { result.status ≡ 0
        → PageIsWritten (I.left input.old) (I.left input.new) (O.wrote output.old) (O.wrote output.new) }
    ensures refused { result.status ≡ 1
        → RefusalIsWritten (I.left input.old) (O.wrote output.old) (O.wrote output.new) }
    ensures kept { (result.status ≡ 3) ⊎ (result.status ≡ 5) → Keeps (O.wrote output.old) (O.wrote output.new) }
    ensures front { result.status ≡ 4 → FrontIsWritten (I.left input.old) (O.wrote output.old) (O.wrote output.new) }
    ensures read_failed { result.status ≡ 3 → Rose (I.faults input.old) (I.faults input.new) }
    ensures write_failed { result.status ≡ 4 → Rose (O.faults output.old) (O.faults output.new) }
{
    match read_up_to(alloc, input, ENOUGH) {
        Ok(bytes) => end_text(alloc, terms, output, &bytes),
        Err(ReadFault::Failed) => Ended { status: 3 },
        Err(ReadFault::Memory) => Ended { status: 5 },
    }
}

/// Ends with the line that says why a project isn't built.
fn end_unbuilt<O: Sink>(alloc: Global, output: &mut O, fault: &BuildFault) -> Ended
    ensures written { result.status ≡ 1 → (line : List ℕ) × (line_of_build fault.now ≡ Some line)
        × Appends (O.wrote output.old) (O.wrote output.new) line }
    ensures front { result.status ≡ 4 → (line : List ℕ) × (line_of_build fault.now ≡ Some line)
        × AppendsFront (O.wrote output.old) (O.wrote output.new) line }
    ensures kept { result.status ≡ 5 → Keeps (O.wrote output.old) (O.wrote output.new) }
    ensures other { (result.status ≡ 1) ⊎ (result.status ≡ 4) ⊎ (result.status ≡ 5) }
    ensures failed { result.status ≡ 4 → Rose (O.faults output.old) (O.faults output.new) }
{
    match fault.line(alloc) {
        Ok(told) => end_with(output, told.as_bytes(), 1),
        Err(AllocError) => Ended { status: 5 },
    }
}

/// Ends with what is said of a project that was built: that it is accepted, or its explicit program.
fn end_built<O: Sink>(output: &mut O, program: &str, explicit: bool) -> Ended
    ensures accepted { explicit ≡ false → result.status ≡ 0
        → Appends (O.wrote output.old) (O.wrote output.new) accepted }
    ensures written { result.status ≡ 0 → SomeIsWritten (O.wrote output.old) (O.wrote output.new) }
    ensures check_front { explicit ≡ false → result.status ≡ 4
        → AppendsFront (O.wrote output.old) (O.wrote output.new) accepted }
    ensures front { result.status ≡ 4 → SomeFrontIsWritten (O.wrote output.old) (O.wrote output.new) }
    ensures other { (result.status ≡ 0) ⊎ (result.status ≡ 4) }
    ensures failed { result.status ≡ 4 → Rose (O.faults output.old) (O.faults output.new) }
{
    if explicit {
        end_with(output, program.as_bytes(), 0)
    } else {
        end_with(output, ACCEPTED, 0)
    }
}

/// The commands `check` and `explicit`.
fn end_build<T: Terms + Drop, F: Files, O: Sink>(
    alloc: Global,
    terms: &T,
    files: &mut F,
    output: &mut O,
    dir: &str,
    explicit: bool,
) -> Ended
    ensures range { (result.status ≤ 5) × (result.status ≡ 2 → ⊥) }
    ensures accepted { explicit ≡ false → result.status ≡ 0
        → Appends (O.wrote output.old) (O.wrote output.new) accepted }
    ensures written { result.status ≡ 0 → SomeIsWritten (O.wrote output.old) (O.wrote output.new) }
    ensures built { result.status ≡ 0 → IfSome (F.told files.old) (λ files. HasProgram files dir.now []) }
    ensures refused { result.status ≡ 1
        → UnbuiltIsWritten (F.told files.old) dir.now (O.wrote output.old) (O.wrote output.new) }
    ensures kept { (result.status ≡ 3) ⊎ (result.status ≡ 5) → Keeps (O.wrote output.old) (O.wrote output.new) }
    ensures check_front { explicit ≡ false → result.status ≡ 4
        → CheckFrontIsWritten (F.told files.old) dir.now (O.wrote output.old) (O.wrote output.new) }
    ensures explicit_front { result.status ≡ 4
        → ExplicitFrontIsWritten (F.told files.old) dir.now (O.wrote output.old) (O.wrote output.new) }
    ensures told { F.told files.new ≡ F.told files.old }
    ensures read_failed { result.status ≡ 3 → Rose (F.faults files.old) (F.faults files.new) }
    ensures write_failed { result.status ≡ 4 → Rose (O.faults output.old) (O.faults output.new) }
{
    let objects = Texts::new(alloc);
    match explicit_program(alloc, terms, files, dir, &objects) {
        Ok(program) => end_built(output, program.as_str(), explicit),
        Err(BuildFault::ReadFault) => Ended { status: 3 },
        Err(fault) => end_unbuilt(alloc, output, &fault),
    }
}

/// Does all that the program does, over any elaboration of terms: what it gives is checked.
pub fn top<T: Terms + Drop, F: Files, I: Source, O: Sink>(
    alloc: Global,
    terms: &T,
    words: &[String],
    files: &mut F,
    line: &mut Joined<I, O>,
) -> Ended
    ensures range { result.status ≤ 5 }

    // The page of the module was written; or why it has none.
    ensures page { IsPageCommand (map string_bytes words.now) → result.status ≡ 0
        → PageIsWritten (I.left line.old.input) (I.left line.new.input)
        (O.wrote line.old.output) (O.wrote line.new.output) }
    ensures refused { IsPageCommand (map string_bytes words.now) → result.status ≡ 1
        → RefusalIsWritten (I.left line.old.input) (O.wrote line.old.output) (O.wrote line.new.output) }

    // A project is accepted, and that was written, or its explicit program; or why it isn't built.
    ensures accepted { (dir : List ℕ) → reads (map string_bytes words.now) ≡ Some (for_check dir)
        → result.status ≡ 0 → Appends (O.wrote line.old.output) (O.wrote line.new.output) accepted }
    ensures explicit { IsBuildCommand (map string_bytes words.now) → result.status ≡ 0
        → SomeIsWritten (O.wrote line.old.output) (O.wrote line.new.output) }
    ensures built { (dir : List ℕ) → IsBuildOf (map string_bytes words.now) dir → result.status ≡ 0
        → IfSome (F.told files.old) (λ files. HasProgram files dir []) }
    ensures unbuilt { (dir : List ℕ) → IsBuildOf (map string_bytes words.now) dir → result.status ≡ 1
        → UnbuiltIsWritten (F.told files.old) dir (O.wrote line.old.output) (O.wrote line.new.output) }

    // The words are no command.
    ensures usage { result.status ≡ 2 → Appends (O.wrote line.old.output) (O.wrote line.new.output) usage }
    ensures no_command { result.status ≡ 2 → IsNoCommand (map string_bytes words.now) }
    ensures command { IsNoCommand (map string_bytes words.now) → (result.status ≡ 2) ⊎ (result.status ≡ 4) }

    // Reading or writing failed.
    ensures read_failed { IsPageCommand (map string_bytes words.now) → result.status ≡ 3
        → Rose (I.faults line.old.input) (I.faults line.new.input) }
    ensures files_failed { IsBuildCommand (map string_bytes words.now) → result.status ≡ 3
        → Rose (F.faults files.old) (F.faults files.new) }
    ensures write_failed { result.status ≡ 4 → Rose (O.faults line.old.output) (O.faults line.new.output) }

    // What a failure leaves: nothing was written, or a front of the answer.
    ensures kept { (result.status ≡ 3) ⊎ (result.status ≡ 5)
        → Keeps (O.wrote line.old.output) (O.wrote line.new.output) }
    ensures front { result.status ≡ 4 → IsPageCommand (map string_bytes words.now)
        → FrontIsWritten (I.left line.old.input) (O.wrote line.old.output) (O.wrote line.new.output) }
    ensures check_front { (dir : List ℕ) → reads (map string_bytes words.now) ≡ Some (for_check dir) → result.status ≡ 4
        → CheckFrontIsWritten (F.told files.old) dir (O.wrote line.old.output) (O.wrote line.new.output) }
    ensures explicit_front { (dir : List ℕ) → reads (map string_bytes words.now) ≡ Some (for_explicit dir)
        → result.status ≡ 4
        → ExplicitFrontIsWritten (F.told files.old) dir (O.wrote line.old.output) (O.wrote line.new.output) }
    ensures usage_front { result.status ≡ 4 → IsNoCommand (map string_bytes words.now)
        → AppendsFront (O.wrote line.old.output) (O.wrote line.new.output) usage }

    // No command changes what the files are, and only `page` reads the input.
    ensures told { F.told files.new ≡ F.told files.old }
    ensures unread { (IsPageCommand (map string_bytes words.now) → ⊥) → I.left line.new.input ≡ I.left line.old.input }

    // A page, or a refusal with its cause, is written unless the outside failed or memory ran out.
    ensures complete { IsPageCommand (map string_bytes words.now)
        → (Rose (I.faults line.old.input) (I.faults line.new.input) → ⊥)
        → (Rose (O.faults line.old.output) (O.faults line.new.output) → ⊥)
        → (result.status ≡ 0) ⊎ (result.status ≡ 1) ⊎ (result.status ≡ 5) }
    ensures complete_build { IsBuildCommand (map string_bytes words.now)
        → (Rose (F.faults files.old) (F.faults files.new) → ⊥)
        → (Rose (O.faults line.old.output) (O.faults line.new.output) → ⊥)
        → (result.status ≡ 0) ⊎ (result.status ≡ 1) ⊎ (result.status ≡ 5) }
{
    match read_command(words) {
        Some(Command::Page) => end_page(alloc, terms, &mut line.input, &mut line.output),
        Some(Command::Check(dir)) => end_build(alloc, terms, files, &mut line.output, dir, false),
        Some(Command::Explicit(dir)) => end_build(alloc, terms, files, &mut line.output, dir, true),
        None => end_with(&mut line.output, USAGE, 2),
    }
}

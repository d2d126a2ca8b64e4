//! Why there is no page, as a line.
ghost use Rattle.std.specs.Prelude.{◌≡◌, ◌++◌, IfOk, Some, codes, decimal, string_bytes};
ghost use Rattle.site_pages.specs.Stopped.{line_of_link as link_line, line_of_run as run_line};
ghost use Rattle.site_pages.specs.Unshown.{Tells, named as named_line};

use link_router::LinkFault;
use plain_run::RunFault;
use std::alloc::{AllocError, Global};

/// Why there is no page.
#[derive(Drop)]
pub enum NoPage {
    /// The line that says why.
    Told(String),
    /// Memory ran out.
    Memory,
}

impl From<AllocError> for NoPage {
    ghost use Rattle.std.specs.Prelude.{◌≡◌};
    ghost use Rattle.site_pages.specs.declared.lines.NoPage.TheVariants.{Memory};

    ghost from_gives = { λ _ e. e ≡ Memory };

    fn from(_: AllocError) -> NoPage {
        NoPage::Memory
    }
}

/// There is no page for a reason with this name.
pub fn named(alloc: Global, name: &str) -> NoPage
    ensures { Tells (λ line. line ≡ named_line name.now) result }
{
    let Ok(line) = line_of(alloc, name) else {
        return NoPage::Memory;
    };
    NoPage::Told(line)
}

/// There is no page since the request is no call.
pub fn astray(alloc: Global, fault: LinkFault) -> NoPage
    ensures { Tells (λ line. link_line fault ≡ Some line) result }
{
    let Ok(line) = line_astray(alloc, fault) else {
        return NoPage::Memory;
    };
    NoPage::Told(line)
}

/// There is no page since the run gave none, and wasn't aborted.
pub fn stopped(alloc: Global, fault: &RunFault) -> NoPage
    ensures { Tells (λ line. run_line fault.now ≡ Some line) result }
{
    let Ok(line) = line_of_run(alloc, fault) else {
        return NoPage::Memory;
    };
    NoPage::Told(line)
}

/// The line of a name.
fn line_of(alloc: Global, name: &str) -> Result<String, AllocError>
    ensures { IfOk result (λ line. string_bytes line ≡ named_line name.now) }
{
    let mut line = name.to_string(alloc)?;
    line.push_str("\n")?;
    Ok(line)
}

/// The line of a piece of a link that doesn't fit.
fn line_of_piece(alloc: Global, index: usize) -> Result<String, AllocError>
    ensures { IfOk result (λ line. string_bytes line ≡ named_line (codes "BadPiece " ++ decimal index)) }
{
    let mut name = "BadPiece ".to_string(alloc)?;
    name.push_str(index.to_string(alloc)?.as_str())?;
    line_of(alloc, name.as_str())
}

/// The line of a request that is no call. Want of memory has none, and answers so.
fn line_astray(alloc: Global, fault: LinkFault) -> Result<String, AllocError>
    ensures { IfOk result (λ line. link_line fault ≡ Some (string_bytes line)) }
{
    match fault {
        LinkFault::NoRoute => line_of(alloc, "NoRoute"),
        LinkFault::OtherMethod => line_of(alloc, "OtherMethod"),
        LinkFault::BadPiece { index } => line_of_piece(alloc, index),
        LinkFault::TooFewPieces => line_of(alloc, "TooFewPieces"),
        LinkFault::TooManyPieces => line_of(alloc, "TooManyPieces"),
        LinkFault::Memory => Err(AllocError),
    }
}

/// The line of a run that gives no page. An abort has another, and want of memory has none; both answer so.
fn line_of_run(alloc: Global, fault: &RunFault) -> Result<String, AllocError>
    ensures { IfOk result (λ line. run_line fault.now ≡ Some (string_bytes line)) }
{
    match fault {
        RunFault::OverBudget => line_of(alloc, "OverBudget"),
        RunFault::DivZero => line_of(alloc, "DivZero"),
        RunFault::TextTooLong => line_of(alloc, "TextTooLong"),
        RunFault::LinkTooLong => line_of(alloc, "LinkTooLong"),
        RunFault::NotBlessed => line_of(alloc, "NotBlessed"),
        RunFault::Wrong(_) => line_of(alloc, "Wrong"),
        RunFault::TooDeep => line_of(alloc, "TooDeep"),
        RunFault::Aborted(_) => Err(AllocError),
        RunFault::Memory => Err(AllocError),
    }
}

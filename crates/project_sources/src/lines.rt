//! The line of a refusal.
ghost use Rattle.std.specs.Prelude.{◌≡◌, IfOk, Some, string_bytes};
ghost use Rattle.project_sources.specs.Lines.{line_at, line_of, line_of_lex, line_of_parse, line_whole};

use crate::SourceFault;
use std::alloc::{AllocError, Global};
use surface_grammar::ParseFault;
use ur_lexer::LexFault;

/// The line of a refusal of a whole file.
pub fn line_whole(alloc: Global, file: &str, name: &str) -> Result<String, AllocError>
    ensures { IfOk result (λ line. string_bytes line ≡ line_whole file.now name.now) }
{
    let mut line = file.to_string(alloc)?;
    line.push_str(": ")?;
    line.push_str(name)?;
    line.push_str("\n")?;
    Ok(line)
}

/// The line of a refusal at a number: a byte of a file, or a line of a project file.
pub fn line_at(alloc: Global, file: &str, at: usize, name: &str) -> Result<String, AllocError>
    ensures { IfOk result (λ line. string_bytes line ≡ line_at file.now at name.now) }
{
    let mut line = file.to_string(alloc)?;
    line.push_str(":")?;
    line.push_str(at.to_string(alloc)?.as_str())?;
    line.push_str(": ")?;
    line.push_str(name)?;
    line.push_str("\n")?;
    Ok(line)
}

/// The line of a foreign module that isn't there.
fn line_foreign(alloc: Global, name: &str) -> Result<String, AllocError>
    ensures { IfOk result (λ line. line_of (SourceFault.UnknownForeign name.now) ≡ Some (string_bytes line)) }
{
    let mut line = "UnknownForeign ".to_string(alloc)?;
    line.push_str(name)?;
    line.push_str("\n")?;
    Ok(line)
}

/// The line of a fault of the lexer.
fn line_of_lex(alloc: Global, file: &str, fault: &LexFault) -> Result<String, AllocError>
    ensures { IfOk result (λ line. line_of_lex file.now fault.now ≡ Some (string_bytes line)) }
{
    match fault {
        LexFault::BadChar { at } => line_at(alloc, file, *at as usize, "BadChar"),
        LexFault::OpenText { at } => line_at(alloc, file, *at as usize, "OpenText"),
        LexFault::OpenComment { at } => line_at(alloc, file, *at as usize, "OpenComment"),
        LexFault::IntTooLarge { at } => line_at(alloc, file, *at as usize, "IntTooLarge"),
        LexFault::Memory => Err(AllocError),
    }
}

/// The line of a fault of the parser.
fn line_of_parse(alloc: Global, file: &str, fault: &ParseFault) -> Result<String, AllocError>
    ensures { IfOk result (λ line. line_of_parse file.now fault.now ≡ Some (string_bytes line)) }
{
    match fault {
        ParseFault::Syntax { at } => line_at(alloc, file, *at as usize, "Syntax"),
        ParseFault::TooDeep { at } => line_at(alloc, file, *at as usize, "TooDeep"),
        ParseFault::Memory => Err(AllocError),
    }
}

impl SourceFault {
    ghost use Rattle.project_sources.specs.Lines.{line_of};

    /// The line that tells the refusal. A failure of reading and want of memory have none, and answer want of memory.
    pub fn line(&self, alloc: Global) -> Result<String, AllocError>
        ensures { IfOk result (λ line. line_of self.now ≡ Some (string_bytes line)) }
    {
        match self {
            SourceFault::BadProject { file, line } => {
                line_at(alloc, file.as_str(), *line, "BadProject")
            }
            SourceFault::UnknownForeign { name } => line_foreign(alloc, name.as_str()),
            SourceFault::MissingFile { file } => line_whole(alloc, file.as_str(), "MissingFile"),
            SourceFault::FileTooLong { file } => line_whole(alloc, file.as_str(), "FileTooLong"),
            SourceFault::NotUtf8 { file } => line_whole(alloc, file.as_str(), "NotUtf8"),
            SourceFault::Unread { file, fault } => line_of_lex(alloc, file.as_str(), fault),
            SourceFault::Unparsed { file, fault } => line_of_parse(alloc, file.as_str(), fault),
            SourceFault::ReadFault => Err(AllocError),
            SourceFault::Memory => Err(AllocError),
        }
    }
}

//! From the bytes of a module, or of an interface, to its tree.
ghost use Rattle.std.specs.Prelude.{◌≡◌, ◌≤◌, ℕ, List, length, IfErr, IfOk, IsUtf8};
ghost use Rattle.surface_grammar.specs.declared.part.Part.{Part};
ghost use Rattle.surface_tree.specs.TokenList.{TokenList};
ghost use Rattle.grammar_engine.specs.Exact.{FaultExact};
ghost use Rattle.ur_lexer.specs.Lexing.{IsTold};
ghost use Rattle.ur_parser.specs.Sources.{interface_part, module_part};
ghost use Rattle.project_sources.specs.Causes.{Says};
ghost use Rattle.project_sources.specs.Texts.{HasNoTree, HasTokens, IsText};
ghost use Rattle.project_sources.specs.View.{IsInterfaceListing, IsModuleListing};

use crate::SourceFault;
use std::alloc::Global;
use std::str;
use surface_grammar::{ParseFault, Tree};
use surface_tree::Tokens;
use table_rows::Text;
use ur_lexer::{LexFault, lex};
use ur_parser::{parse, parse_interface};

/// The most bytes that a file of a project has.
pub const LONGEST: usize = 4194304;

/// A module: its line in the project file, its tree, and that of its interface, where it has one.
#[derive(Drop)]
pub struct ModuleSource {
    pub line: Text,
    pub tree: Tree,
    pub interface: Option<Tree>,
}

/// A fault of a file's tokens.
fn unread(alloc: Global, file: &str, fault: LexFault) -> SourceFault
    ensures cause { (part : Part) (bytes : List ℕ) → IsText bytes → IsTold bytes fault
        → Says (HasNoTree part file.now bytes) result }
    ensures others { result ≡ SourceFault.ReadFault → ⊥ }
{
    match (fault, Text::of(alloc, file)) {
        (LexFault::Memory, _) => SourceFault::Memory,
        (_, Err(_)) => SourceFault::Memory,
        (fault, Ok(file)) => SourceFault::Unread { file, fault },
    }
}

/// A fault of a file's tree.
fn unparsed(alloc: Global, file: &str, fault: ParseFault) -> SourceFault
    ensures cause { (part : Part) (bytes : List ℕ) (ts : TokenList) → IsText bytes → HasTokens bytes ts
        → FaultExact part ts fault → Says (HasNoTree part file.now bytes) result }
    ensures others { result ≡ SourceFault.ReadFault → ⊥ }
{
    match (fault, Text::of(alloc, file)) {
        (ParseFault::Memory, _) => SourceFault::Memory,
        (_, Err(_)) => SourceFault::Memory,
        (fault, Ok(file)) => SourceFault::Unparsed { file, fault },
    }
}

/// A file that is refused as a whole.
fn not_utf8(alloc: Global, file: &str) -> SourceFault
    ensures cause { (part : Part) (bytes : List ℕ) → length bytes ≤ LONGEST → ¬ (IsUtf8 bytes)
        → Says (HasNoTree part file.now bytes) result }
    ensures others { result ≡ SourceFault.ReadFault → ⊥ }
{
    match Text::of(alloc, file) {
        Ok(file) => SourceFault::NotUtf8 { file },
        Err(_) => SourceFault::Memory,
    }
}

/// The tokens of a file's bytes.
fn tokens_of(alloc: Global, file: &str, bytes: &[u8]) -> Result<Tokens, SourceFault>
    requires { length bytes.now ≤ LONGEST }
    ensures few { IfOk result (λ tokens. length tokens.items ≤ LONGEST) }
    ensures text { IfOk result (λ _. IsText bytes.now) }
    ensures tokens { IfOk result (λ tokens. HasTokens bytes.now tokens) }
    ensures refused { (part : Part) → IfErr result (Says (HasNoTree part file.now bytes.now)) }
    ensures others { IfErr result (λ fault. fault ≡ SourceFault.ReadFault → ⊥) }
{
    let Ok(text) = str::from_utf8(bytes) else {
        return Err(not_utf8(alloc, file));
    };
    match lex(alloc, text) {
        Ok(tokens) => Ok(tokens),
        Err(fault) => Err(unread(alloc, file, fault)),
    }
}

/// The tree of a module's bytes. `file` is the name that refusals tell.
pub fn tree_of(alloc: Global, file: &str, bytes: &[u8]) -> Result<Tree, SourceFault>
    requires { length bytes.now ≤ LONGEST }
    // The tree is that of the module with these bytes.
    ensures tree { IfOk result (IsModuleListing bytes.now) }
    // A fault tells the first thing that stands in the way.
    ensures refused { IfErr result (Says (HasNoTree module_part file.now bytes.now)) }
    ensures others { IfErr result (λ fault. fault ≡ SourceFault.ReadFault → ⊥) }
{
    let tokens = tokens_of(alloc, file, bytes)?;
    match parse(alloc, &tokens) {
        Ok(tree) => Ok(tree),
        Err(fault) => Err(unparsed(alloc, file, fault)),
    }
}

/// The tree of an interface's bytes.
pub fn interface_of(alloc: Global, file: &str, bytes: &[u8]) -> Result<Tree, SourceFault>
    requires { length bytes.now ≤ LONGEST }
    // The tree is that of the interface with these bytes.
    ensures tree { IfOk result (IsInterfaceListing bytes.now) }
    // A fault tells the first thing that stands in the way.
    ensures refused { IfErr result (Says (HasNoTree interface_part file.now bytes.now)) }
    ensures others { IfErr result (λ fault. fault ≡ SourceFault.ReadFault → ⊥) }
{
    let tokens = tokens_of(alloc, file, bytes)?;
    match parse_interface(alloc, &tokens) {
        Ok(tree) => Ok(tree),
        Err(fault) => Err(unparsed(alloc, file, fault)),
    }
}

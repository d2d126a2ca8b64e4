//! Reading a project file.
ghost use Rattle.std.specs.Prelude.{◌≡◌, Some, IfOk, IfErr, OnOk, IsTrue, bytes_eq};
ghost use Rattle.project_files.specs.Directives.{module_name, a_rule, a_safe_get, a_foreign, an_effect};
ghost use Rattle.project_files.specs.Projects.{nothing_said, IsProject, IsWhole, is_among, is_effect_among, with_directive, with_module, with_line, next, told};
ghost use Rattle.project_files.specs.View.{said_by, effects_of, directive_of};
ghost use Rattle.project_files.specs.Refused.{IsRefused};

use crate::directives::{Directive, read_directive};
use crate::lines::first_line;
use crate::words::is_module_line;
use std::alloc::{AllocError, Global};
use std::str;
use table_rows::{Text, Texts};
use thiserror::Error;

/// The most modules that a project has.
const MOST_MODULES: usize = 1000;

/// A rule on addresses.
#[derive(Debug, Drop)]
pub struct AddressRule {
    /// Whether an address that fits is allowed.
    pub allow: bool,
    /// The address, or with `*` at its end what addresses begin with.
    pub pattern: Text,
}

/// A value by its module and its name.
#[derive(Debug, Drop)]
pub struct QualifiedName {
    pub owner: Text,
    pub name: Text,
}

/// What a project file says. Contracts see it as `said_by`.
#[derive(Debug, Drop)]
pub struct Project {
    /// Whether the empty line before the modules was met.
    pub in_modules: bool,
    /// The rules on addresses, in order.
    pub rules: Vec<AddressRule>,
    /// The functions that may be called without a check of the request's origin.
    pub safe_gets: Vec<QualifiedName>,
    /// The modules of foreign effects, each once.
    pub foreign: Vec<Text>,
    /// The foreign effects, each once.
    pub effects: Vec<QualifiedName>,
    /// The modules, as their lines name them. The last is the main one.
    pub modules: Vec<Text>,
}

/// Why a project file isn't read.
#[derive(Clone, Copy, Debug, PartialEq, Eq, Error)]
pub enum ProjectFault {
    /// This line, counted from 1, may not stand there; or the empty line or a module is missing behind the last.
    #[error("line {line} of the project file may not stand there")]
    BadLine { line: usize },
    /// Memory ran out.
    #[error("out of memory")]
    Memory,
}

impl From<AllocError> for ProjectFault {
    ghost use Rattle.std.specs.Prelude.{◌≡◌};
    ghost use Rattle.project_files.specs.declared.projects.ProjectFault.TheVariants.{Memory};

    ghost from_gives = { λ _ made. made ≡ Memory };

    fn from(_: AllocError) -> ProjectFault {
        ProjectFault::Memory
    }
}

/// Whether a text is among others.
fn is_among(text: &[u8], texts: &[Text]) -> bool
    ensures { result ≡ is_among text.now texts.now }
{
    texts.iter().any(|other| other.as_bytes() == text)
}

/// Whether an effect is among others.
fn is_effect_among(owner: &[u8], name: &[u8], effects: &[QualifiedName]) -> bool
    ensures { result ≡ is_effect_among owner.now name.now (effects_of effects.now) }
{
    effects.iter().any(|effect| effect.owner.as_bytes() == owner && effect.name.as_bytes() == name)
}

/// Whether a name is that of a line's module in sources.
fn is_name_of(name: &[u8], line: &[u8]) -> bool
    ensures { result ≡ bytes_eq name.now (module_name line.now) }
{
    match (name, line) {
        ([], []) => true,
        ([letter, name @ ..], [first, line @ ..]) => {
            *letter == first.to_ascii_uppercase() && name == line
        }
        _ => false,
    }
}

/// Whether a foreign module has the name of a line's module.
fn has_foreign_name(line: &[u8], foreign: &[Text]) -> bool
    ensures { result ≡ is_among (module_name line.now) foreign.now }
{
    foreign.iter().any(|name| is_name_of(name.as_bytes(), line))
}

impl Project {
    /// A project of which nothing was read yet. It allocates nothing.
    fn new(alloc: Global) -> Project
        ensures { said_by result ≡ nothing_said }
    {
        Project {
            in_modules: false,
            rules: Vec::new(alloc),
            safe_gets: Vec::new(alloc),
            foreign: Vec::new(alloc),
            effects: Vec::new(alloc),
            modules: Vec::new(alloc),
        }
    }

    /// Adds a rule on addresses.
    fn add_rule(&mut self, alloc: Global, allow: bool, pattern: &str) -> Result<(), AllocError>
        ensures { OnOk result (Some (said_by self.new) ≡ with_directive (said_by self.old) (a_rule allow pattern.now)) }
    {
        let pattern = Text::of(alloc, pattern)?;
        self.rules.push(AddressRule { allow, pattern })?;
        Ok(())
    }

    /// Adds a function that may be called without a check.
    fn add_safe_get(&mut self, alloc: Global, owner: &str, name: &str) -> Result<(), AllocError>
        ensures { OnOk result (Some (said_by self.new)
            ≡ with_directive (said_by self.old) (a_safe_get owner.now name.now)) }
    {
        let owner = Text::of(alloc, owner)?;
        let name = Text::of(alloc, name)?;
        self.safe_gets.push(QualifiedName { owner, name })?;
        Ok(())
    }

    /// Adds a foreign module, where it isn't there.
    fn add_foreign(&mut self, alloc: Global, owner: &str) -> Result<(), AllocError>
        ensures { OnOk result (Some (said_by self.new) ≡ with_directive (said_by self.old) (a_foreign owner.now)) }
    {
        if !is_among(owner.as_bytes(), self.foreign.as_slice()) {
            self.foreign.push(Text::of(alloc, owner)?)?;
        }
        Ok(())
    }

    /// Adds an effect, where its module stands before it. The answer is whether it does.
    fn add_effect(&mut self, alloc: Global, owner: &str, name: &str) -> Result<bool, AllocError>
        ensures { IfOk result (λ taken. told taken (said_by self.new)
            ≡ with_directive (said_by self.old) (an_effect owner.now name.now)) }
    {
        if !is_among(owner.as_bytes(), self.foreign.as_slice()) {
            return Ok(false);
        }
        if !is_effect_among(owner.as_bytes(), name.as_bytes(), self.effects.as_slice()) {
            let owner = Text::of(alloc, owner)?;
            let name = Text::of(alloc, name)?;
            self.effects.push(QualifiedName { owner, name })?;
        }
        Ok(true)
    }

    /// Reads a directive. The answer is whether it may stand there.
    fn take_directive(
        &mut self,
        alloc: Global,
        directive: Directive<'_>,
    ) -> Result<bool, AllocError>
        ensures { IfOk result (λ taken. told taken (said_by self.new)
            ≡ with_directive (said_by self.old) (directive_of directive.entry)) }
    {
        match directive {
            Directive::Rule { allow, pattern } => {
                self.add_rule(alloc, allow, pattern)?;
                Ok(true)
            }
            Directive::SafeGet { owner, name } => {
                self.add_safe_get(alloc, owner, name)?;
                Ok(true)
            }
            Directive::Foreign { owner } => {
                self.add_foreign(alloc, owner)?;
                Ok(true)
            }
            Directive::Effect { owner, name } => self.add_effect(alloc, owner, name),
            Directive::Setting => Ok(true),
        }
    }

    /// Reads a module's line. The answer is whether it may stand there.
    fn take_module(&mut self, alloc: Global, line: &str) -> Result<bool, AllocError>
        ensures { IfOk result (λ taken. told taken (said_by self.new) ≡ with_module (said_by self.old) line.now) }
    {
        let may_stand = is_module_line(line.as_bytes())
            && !is_among(line.as_bytes(), self.modules.as_slice())
            && !has_foreign_name(line.as_bytes(), self.foreign.as_slice())
            && self.modules.len() < MOST_MODULES;
        if may_stand {
            self.modules.push(Text::of(alloc, line)?)?;
        }
        Ok(may_stand)
    }

    /// Reads a line that isn't empty and no comment. The answer is whether it may stand there.
    fn take_filled(&mut self, alloc: Global, line: &str) -> Result<bool, AllocError>
        ensures { IfOk result (λ taken. told taken (said_by self.new) ≡ with_line (said_by self.old) line.now) }
    {
        if self.in_modules {
            return self.take_module(alloc, line);
        }
        match read_directive(line) {
            Some(directive) => self.take_directive(alloc, directive),
            None => Ok(false),
        }
    }

    /// Reads a line. The answer is whether it may stand there.
    fn take_line(&mut self, alloc: Global, line: &str) -> Result<bool, AllocError>
        ensures { IfOk result (λ taken. told taken (said_by self.new) ≡ next (said_by self.old) line.now) }
    {
        match line.as_bytes() {
            [] => {
                self.in_modules = true;
                Ok(true)
            }
            [b'#', ..] => Ok(true),
            _ => self.take_filled(alloc, line),
        }
    }

    /// Whether the empty line and a module were met.
    fn is_whole(&self) -> bool
        ensures whole { IsTrue result → IsWhole (said_by self.now) }
        ensures short { IsWhole (said_by self.now) → IsTrue result }
    {
        self.in_modules && !self.modules.is_empty()
    }
}

/// What a project file says. A refusal names the first line that may not stand behind those before it, or the line
/// behind the last where the empty line or a module is missing.
pub fn read_project(alloc: Global, bytes: &[u8]) -> Result<Project, ProjectFault>
    ensures project { IfOk result (λ project. IsProject bytes.now (said_by project)) }
    ensures refused { IfErr result (IsRefused bytes.now) }
{
    let mut project = Project::new(alloc);
    let mut rest = bytes;
    let mut number = 0;
    while !rest.is_empty() {
        let (line, behind) = first_line(rest);
        number += 1;
        let Ok(line) = str::from_utf8(line) else {
            return Err(ProjectFault::BadLine { line: number });
        };
        if !project.take_line(alloc, line)? {
            return Err(ProjectFault::BadLine { line: number });
        }
        rest = behind;
    }
    if project.is_whole() {
        Ok(project)
    } else {
        Err(ProjectFault::BadLine { line: number + 1 })
    }
}

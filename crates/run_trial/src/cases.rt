//! The cases in the order of their lines.
use crate::calls::{Steps, ending};
use crate::programs::{Built, Tried, program_of};
use crate::repeats::written_out;
use std::alloc::{AllocError, Global};

/// What the next line is part of.
#[derive(Clone, Copy)]
enum Part {
    Cases,
    Project,
    Module,
}

/// The steps that the line names which says what comes of a call.
fn steps_of(wanted: &str) -> Option<u64> {
    let (_, rest) = wanted.split_once(" ")?;
    let (steps, _) = rest.split_once(" ")?;
    steps.parse::<u64>().ok()
}

/// What else comes of a call within a budget.
fn otherwise_within(
    alloc: Global,
    tried: &Tried,
    call: &str,
    wanted: &str,
    steps: Steps,
) -> Result<Option<String>, AllocError> {
    let found = ending(alloc, tried, call, steps)?;
    if found.as_str() == wanted {
        return Ok(None);
    }
    let budget = steps.budget;
    Ok(Some(format!(in alloc;
        "{call}\nwants {wanted}\nfound {} within {budget}",
        found.as_str()
    )?))
}

/// What else comes of a call: within the steps that it is to take, within one less, and within as many as there are.
/// A call that never ends is run within as many again in place of the last.
fn otherwise(
    alloc: Global,
    tried: &Tried,
    call: &str,
    wanted: &str,
) -> Result<Option<String>, AllocError> {
    let steps = steps_of(wanted).unwrap_or(0);
    let over = format!(in alloc; "! {steps} OverBudget")?;
    let ample = if wanted == over.as_str() {
        steps.saturating_mul(2)
    } else {
        u64::MAX
    };
    let below = if steps == 0 { wanted } else { over.as_str() };
    for (budget, wanted) in [
        (steps, wanted),
        (steps.saturating_sub(1), below),
        (ample, wanted),
    ] {
        let within = Steps {
            wanted: steps,
            budget,
        };
        let found = otherwise_within(alloc, tried, call, wanted, within)?;
        if found.is_some() {
            return Ok(found);
        }
    }
    Ok(None)
}

/// The cases that were tried, and what was read of the next.
#[derive(Drop)]
pub struct Trial {
    alloc: Global,
    part: Part,
    project: String,
    module: String,
    program: Option<Tried>,
    call: Option<String>,
    /// How many cases were tried.
    pub tried: u32,
    /// How many came out otherwise.
    pub wrong: u32,
}

impl Trial {
    /// No case was tried.
    pub fn new(alloc: Global) -> Trial {
        Trial {
            alloc,
            part: Part::Cases,
            project: String::new(alloc),
            module: String::new(alloc),
            program: None,
            call: None,
            tried: 0,
            wrong: 0,
        }
    }

    /// Takes the next line. Where it ends a case that comes out otherwise, or a program that is refused, it gives what
    /// is to be told.
    pub fn take(&mut self, line: &str) -> Result<Option<String>, AllocError> {
        match self.part {
            Part::Cases => self.take_case(line),
            Part::Project => self.take_directive(line),
            Part::Module => self.take_source(line),
        }
    }

    /// Takes a line of a project file. The empty one ends it.
    fn take_directive(&mut self, line: &str) -> Result<Option<String>, AllocError> {
        self.project.push_str(line)?;
        self.project.push_str("\n")?;
        if line.is_empty() {
            self.project.push_str("main\n")?;
            self.part = Part::Module;
        }
        Ok(None)
    }

    /// Takes a line of a module, or its end, where the program is built.
    fn take_source(&mut self, line: &str) -> Result<Option<String>, AllocError> {
        if line != "end" {
            self.module.push_str(line)?;
            self.module.push_str("\n")?;
            return Ok(None);
        }
        self.part = Part::Cases;
        match program_of(self.alloc, self.project.as_str(), self.module.as_str())? {
            Built::Program(program) => {
                self.program = Some(program);
                Ok(None)
            }
            Built::Refused(line) => {
                self.program = None;
                self.wrong = self.wrong.saturating_add(1);
                Ok(Some(line))
            }
        }
    }

    /// Takes a line between programs: a call, what comes of the call before it, or a remark.
    fn take_case(&mut self, line: &str) -> Result<Option<String>, AllocError> {
        if let Some(call) = self.call.take() {
            let wanted = written_out(self.alloc, line)?;
            return self.try_call(call.as_str(), wanted.as_str());
        }
        if line == "project" {
            self.part = Part::Project;
            self.project = String::new(self.alloc);
            self.module = String::new(self.alloc);
        } else if line.starts_with("/") || line.contains(" by /") {
            self.call = Some(written_out(self.alloc, line)?);
        }
        Ok(None)
    }

    /// Tries a call of the program.
    fn try_call(&mut self, call: &str, wanted: &str) -> Result<Option<String>, AllocError> {
        self.tried = self.tried.saturating_add(1);
        let found = match &self.program {
            Some(program) => otherwise(self.alloc, program, call, wanted)?,
            None => Some("no program".to_string(self.alloc)?),
        };
        if found.is_some() {
            self.wrong = self.wrong.saturating_add(1);
        }
        Ok(found)
    }
}

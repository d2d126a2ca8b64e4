//! The programs that are tried, each built from a project of one module.
use core_terms::Program;
use site_build::{BuildFault, build};
use site_routes::{SiteRoutes, routes};
use std::alloc::{AllocError, Global};
use table_rows::{Bytes, Text, Texts};
use term_elaborator::Inferred;
use ur_outside::{MemFile, MemFiles};

/// A program with its routes.
#[derive(Drop)]
pub struct Tried {
    pub program: Program,
    pub site: SiteRoutes,
}

/// What a project is: a program, or refused with a line.
#[derive(Drop)]
pub enum Built {
    Program(Tried),
    Refused(String),
}

/// A file in memory.
fn file(alloc: Global, path: &str, text: &str) -> Result<MemFile, AllocError> {
    Ok(MemFile {
        path: Text::of(alloc, path)?,
        bytes: Bytes::of(alloc, text.as_bytes())?,
    })
}

/// A project file and its one module, in the folder `p`.
fn files(alloc: Global, project: &str, module: &str) -> Result<MemFiles, AllocError> {
    let mut files = Vec::new(alloc);
    files.push(file(alloc, "p/p.urp", project)?)?;
    files.push(file(alloc, "p/main.ur", module)?)?;
    Ok(MemFiles::new(files, Vec::new(alloc)))
}

/// The one foreign module that is there.
fn objects(alloc: Global) -> Result<Texts, AllocError> {
    let mut objects = Texts::new(alloc);
    objects.push(Text::of(alloc, "Mail")?)?;
    Ok(objects)
}

/// The program of a project file and a module, or the line that refuses it.
pub fn program_of(alloc: Global, project: &str, module: &str) -> Result<Built, AllocError> {
    let mut files = files(alloc, project, module)?;
    match build(alloc, &Inferred {}, &mut files, "p", &objects(alloc)?) {
        Ok(built) => Ok(Built::Program(Tried {
            site: routes(alloc, &built.program)?,
            program: built.program,
        })),
        Err(fault) => Ok(Built::Refused(fault.line(alloc)?)),
    }
}

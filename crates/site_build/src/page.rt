//! From the text of a module to the page of its `main`.
ghost use Rattle.std.specs.Prelude.{IfErr, IfOk};
ghost use Rattle.core_terms.specs.Trees.{Pg};
ghost use Rattle.core_typing.specs.Accepts.{Accepts};
ghost use Rattle.site_build.specs.Sources.{IsProgramOfText};
ghost use Rattle.site_build.specs.Unshown.{HasNoPage};
ghost use Rattle.site_pages.specs.Lengths.{IsShort};
ghost use Rattle.site_pages.specs.Shown.{IsShown};
ghost use Rattle.site_pages.specs.Unshown.{Tells};
ghost use Rattle.xml_trees.specs.Trees.{IsWhole, built, trees_of};
ghost use Rattle.xml_trees.specs.Written.{written};

use crate::build_text;
use program_elaborator::Terms;
use site_pages::{NoPage, page_of_program};
use std::alloc::{AllocError, Global};
use xml_trees::Page;

/// The page that a module alone shows at its `main`, or the line that says why it has none. It is the page that an
/// accepted program means that is what the module says; the line has its cause in the module, or in what such a program
/// answers.
pub fn page_of_text<T: Terms + Drop>(alloc: Global, terms: &T, bytes: &[u8]) -> Result<Page, NoPage>
    ensures shown { IfOk result (λ page. (p : Pg)
        × IsProgramOfText bytes.now p × Accepts p × IsShown p (trees_of (built page))) }
    ensures refused { IfErr result (Tells (HasNoPage bytes.now)) }
    ensures whole { IfOk result (λ page. IsWhole (built page)) }
    ensures short { IfOk result (λ page. IsShort (written (trees_of (built page)))) }
{
    match build_text(alloc, terms, bytes) {
        Ok(site) => page_of_program(alloc, site.program()),
        Err(fault) => match fault.line(alloc) {
            Ok(line) => Err(NoPage::Told(line)),
            Err(AllocError) => Err(NoPage::Memory),
        },
    }
}

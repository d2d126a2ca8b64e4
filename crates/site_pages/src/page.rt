//! From a program to the page of its `main`.
ghost use Rattle.std.specs.Prelude.{◌≡◌, IfErr, IfOk, IsTrue, IsFalse, Some, slice_get};
ghost use Rattle.core_terms.specs.View.{program_view};
ghost use Rattle.core_typing.specs.Accepts.{Accepts};
ghost use Rattle.core_meaning.specs.Actions.{State};
ghost use Rattle.core_meaning.specs.Requests.{aborted_page as page_aborted};
ghost use Rattle.link_router.specs.Calls.{Ent};
ghost use Rattle.link_router.specs.View.{call_view, routes_view};
ghost use Rattle.plain_run.specs.Ran.{FailsWith};
ghost use Rattle.run_values.specs.Outcomes.{AbortedWith};
ghost use Rattle.site_pages.specs.Lengths.{IsShort, IsLong};
ghost use Rattle.site_pages.specs.Found.{GivesPage, IsFound};
ghost use Rattle.site_pages.specs.Shown.{IsShown};
ghost use Rattle.site_pages.specs.Stopped.{Stops, StopsAt};
ghost use Rattle.site_pages.specs.Unshown.{IsUnshown, Tells};
ghost use Rattle.value_trees.specs.Values.{Out};
ghost use Rattle.xml_trees.specs.Trees.{IsWhole, Trees, Whole, built, trees_of};
ghost use Rattle.xml_trees.specs.Written.{written};

use crate::lines::{NoPage, astray, named, stopped};
use core_terms::Program;
use link_router::{Call, read_link};
use page_bytes::page_length;
use plain_run::{Ran, RunFault, run};
use request_region::Region;
use site_routes::{SiteRoutes, routes};
use std::alloc::{AllocError, Global};
use table_rows::Text;
use wire_values::values_of_wires;
use xml_trees::{Attrs, Page, Tag};

/// The steps that a page may take.
const BUDGET: u64 = 1_000_000;

/// The most bytes of a page's text.
const LONGEST: u64 = 16_777_216;

/// Whether a page's text has at most as many bytes as a page may have.
fn is_short(page: &Page) -> bool
    requires { IsWhole (built page.now) }
    ensures short { IsTrue result → IsShort (written (trees_of (built page.now))) }
    ensures long { IsFalse result → IsLong (written (trees_of (built page.now))) }
{
    page_length(page) <= LONGEST
}

/// The page of an aborted run: a body with the trees that it was given.
fn aborted_page(alloc: Global, page: &Page) -> Result<Page, AllocError>
    requires { IsWhole (built page.now) }
    ensures { IfOk result (λ made. built made ≡ Whole (page_aborted (trees_of (built page.now)))) }
{
    let mut made = Page::new(alloc);
    made.begin(Tag::Body, Attrs::new(alloc))?;
    made.join(alloc, page)?;
    made.end()?;
    Ok(made)
}

/// Whether the text of the page of an aborted run has at most as many bytes as a page may have.
fn is_short_aborted(alloc: Global, page: &Page) -> Result<bool, AllocError>
    requires { IsWhole (built page.now) }
    ensures short { IfOk result (λ found. IsTrue found → IsShort (written (page_aborted (trees_of (built page.now))))) }
    ensures long { IfOk result (λ found. IsFalse found → IsLong (written (page_aborted (trees_of (built page.now))))) }
{
    let made = aborted_page(alloc, page)?;
    Ok(is_short(&made))
}

/// Why an aborted run gave no page: that it was aborted, or that the page of what it was given is too long.
fn aborted(alloc: Global, page: &Page) -> NoPage
    ensures { (o : Out (Trees × State)) → AbortedWith page.now o → Tells (Stops o) result }
{
    if !page.is_whole() {
        return NoPage::Memory;
    }
    match is_short_aborted(alloc, page) {
        Ok(true) => named(alloc, "Aborted"),
        Ok(false) => named(alloc, "PageTooLong"),
        Err(AllocError) => NoPage::Memory,
    }
}

/// Why a run gave no page.
fn no_page(alloc: Global, fault: &RunFault) -> NoPage
    ensures { (o : Out (Trees × State)) → FailsWith fault.now o → Tells (Stops o) result }
{
    match fault {
        RunFault::Aborted(page) => aborted(alloc, page),
        _ => stopped(alloc, fault),
    }
}

/// The page of a call of an entry: the value with this number, with the arguments that the wires are. The router gives
/// each wire the shape of its argument, so that only want of memory is left.
fn page_of_entry(
    alloc: Global,
    program: &Program,
    site: &SiteRoutes,
    number: u32,
    call: &Call,
) -> Result<Page, NoPage>
    ensures page { IfOk result (λ page. GivesPage (program_view program.now) (routes_view site.now.routes)
        (call_view call.now) number (trees_of (built page))) }
    ensures refused { (e : Ent) → slice_get (routes_view site.now.routes).entries (call_view call.now).entry ≡ Some e
        → IfErr result (Tells (StopsAt (program_view program.now) (routes_view site.now.routes) (call_view call.now)
        number)) }
{
    let Some(entry) = site.routes.entries.get(call.entry as usize) else {
        return Err(named(alloc, "NoRoute"));
    };
    let region = Region::new(alloc);
    let datatypes = &site.routes.datatypes;
    let shapes = &entry.arguments;
    match values_of_wires(alloc, program, &region, datatypes, shapes, &call.wires) {
        Ok(values) => match run(alloc, program, &region, number, values.as_slice(), BUDGET) {
            Ok(ran) => {
                let Ran { page, .. } = ran;
                Ok(page)
            }
            Err(fault) => Err(no_page(alloc, &fault)),
        },
        Err(_) => Err(NoPage::Memory),
    }
}

/// The page that a program shows at `main` of its module, however long its text is.
fn page_of_main(alloc: Global, program: &Program) -> Result<Page, NoPage>
    ensures page { Accepts (program_view program.now)
        → IfOk result (λ page. IsFound (program_view program.now) (trees_of (built page))) }
    ensures refused { Accepts (program_view program.now)
        → IfErr result (Tells (IsUnshown (program_view program.now))) }
{
    let site = routes(alloc, program)?;
    let path = Text::of(alloc, "/Main/main")?;
    match read_link(alloc, &site.routes, false, &path) {
        Ok(call) => match site.callees.get(call.entry as usize) {
            Some(number) => page_of_entry(alloc, program, &site, *number, &call),
            None => Err(named(alloc, "NoRoute")),
        },
        Err(fault) => Err(astray(alloc, fault)),
    }
}

#[tactic(auto, using(crate::proofs::Answering::found_is_shown))]
/// The page that a program shows at `main` of its module, unless its text is longer than 16,777,216 bytes, or the line
/// that says why it shows none.
pub fn page_of_program(alloc: Global, program: &Program) -> Result<Page, NoPage>
    ensures shown { Accepts (program_view program.now)
        → IfOk result (λ page. IsShown (program_view program.now) (trees_of (built page))) }
    // Or the line tells what the program answers in place of a page, or that too many calls are nested.
    ensures refused { Accepts (program_view program.now)
        → IfErr result (Tells (IsUnshown (program_view program.now))) }
    ensures whole { IfOk result (λ page. IsWhole (built page)) }
    ensures short { IfOk result (λ page. IsShort (written (trees_of (built page)))) }
{
    let page = page_of_main(alloc, program)?;
    if !page.is_whole() {
        return Err(NoPage::Memory);
    }
    if !is_short(&page) {
        return Err(named(alloc, "PageTooLong"));
    }
    Ok(page)
}

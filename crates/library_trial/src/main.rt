//! Tries the libraries that others stand on: texts, pages, links, projects, constructors and terms. Each trial is a
//! line of the output, which says whether all came out as it was written down beforehand.
//!
//! The clauses of the libraries say what their calls give; a trial shows what no clause can: that memory serves for
//! large and deep inputs, that a definition means what a person expects, and what becomes of failures outside.
#![tactic(auto)]

mod constructors;
mod deep;
mod links;
mod outside;
mod page_texts;
mod pages;
mod projects;
mod region;
mod sources;
mod terms;
mod texts;
mod tokens;

use std::alloc::AllocError;
use std::io;

/// The lines of some trials. Want of memory is wrong: there is ample.
fn tell<R: Print>(rt: &R, trials: &[(&str, Result<bool, AllocError>)]) -> io::Result<()> {
    for (name, held) in trials {
        let word = match held {
            Ok(true) => "ok",
            _ => "WRONG",
        };
        println!(rt; "{name}: {word}")?;
    }
    Ok(())
}

/// Runs every trial.
fn main(rt: HostRuntime) -> io::Result<()> {
    let alloc = rt.alloc();
    tell(
        &rt,
        &[
            (
                "texts keep their bytes",
                texts::texts_keep_their_bytes(alloc),
            ),
            ("long texts and lists", texts::long_texts_and_lists(alloc)),
            (
                "a copy keeps the order",
                texts::a_copy_keeps_the_order(alloc),
            ),
            (
                "reads in small pieces",
                outside::reads_in_small_pieces(alloc),
            ),
            (
                "writes in small pieces",
                outside::writes_in_small_pieces(alloc),
            ),
            (
                "files are read up to a length",
                outside::files_are_read_up_to_a_length(alloc),
            ),
            (
                "folders name their own files",
                outside::folders_name_their_own_files(alloc),
            ),
        ],
    )?;
    tell(
        &rt,
        &[
            ("pieces of a page in order", pages::pieces_in_order(alloc)),
            ("pages are joined", pages::joins(alloc)),
            ("simple tags", pages::simple_tags(alloc)),
            ("an empty body", page_texts::empty_body(alloc)),
            ("elements and attributes", page_texts::elements(alloc)),
            ("failing sinks", page_texts::failing_sinks(alloc)),
            ("the longest pages", page_texts::longest_pages(alloc)),
        ],
    )?;
    tell(
        &rt,
        &[
            (
                "a region serves again",
                region::a_region_serves_again(alloc),
            ),
            ("paths are read", links::paths_are_read(alloc)),
            ("values of any depth", links::values_of_any_depth(alloc)),
            (
                "tokens keep their order",
                tokens::keeps_tokens_in_order(alloc),
            ),
            (
                "the first unbuilt token",
                tokens::the_first_unbuilt_token_is_found(alloc),
            ),
            (
                "project files and their lines",
                projects::each_project_is_read_or_refused_at_its_line(alloc),
            ),
            (
                "projects and their lines",
                sources::projects_are_read_or_refused_with_their_line(alloc),
            ),
            (
                "failures of reading",
                sources::failures_of_reading_are_told(alloc),
            ),
        ],
    )?;
    tell(
        &rt,
        &[
            ("texts and symbols", constructors::texts_and_symbols(alloc)),
            (
                "substitution goes under binders",
                constructors::substitution_goes_under_binders(alloc),
            ),
            ("deep constructors", constructors::deep_constructors(alloc)),
            (
                "the deepest terms are let go",
                terms::the_deepest_terms_are_let_go(alloc),
            ),
        ],
    )?;
    deep::deepest_constructors(&rt, alloc)
}

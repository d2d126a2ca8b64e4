//! Calls as they are written in a case, and what comes of them.
use crate::endings::{line_of_fault, line_of_ran};
use crate::programs::Tried;
use link_router::{Call, LinkFault, read_link};
use plain_run::run;
use request_region::Region;
use std::alloc::{AllocError, Global};
use table_rows::{Arguments, Text, Wires};
use wire_values::{NoValues, values_of_wires};

/// How many steps a run is to take, and how many it may take.
#[derive(Clone, Copy)]
pub struct Steps {
    pub wanted: u64,
    pub budget: u64,
}

/// A call by links: which value is run, by whose arguments the wires are read, and whose wires.
#[derive(Clone, Copy)]
struct Links<'a> {
    value: &'a str,
    arguments: &'a str,
    wires: &'a str,
}

/// The links of a call.
fn links_of(call: &str) -> Links<'_> {
    if let Some((own, other)) = call.split_once(" with ") {
        return Links {
            value: own,
            arguments: own,
            wires: other,
        };
    }
    if let Some((own, other)) = call.split_once(" by ") {
        return Links {
            value: own,
            arguments: other,
            wires: other,
        };
    }
    Links {
        value: call,
        arguments: call,
        wires: call,
    }
}

/// The call that a link is.
fn read(alloc: Global, tried: &Tried, link: &str) -> Result<Call, LinkFault> {
    let path = Text::of(alloc, link)?;
    read_link(alloc, &tried.site.routes, false, &path)
}

/// The number of a top-level value, which is written so or called by a link.
fn value_of(alloc: Global, tried: &Tried, written: &str) -> Result<u32, LinkFault> {
    if let Ok(number) = written.parse::<u32>() {
        return Ok(number);
    }
    let call = read(alloc, tried, written)?;
    match tried.site.callees.get(call.entry as usize) {
        Some(number) => Ok(*number),
        None => Err(LinkFault::NoRoute),
    }
}

/// The arguments of what a link calls.
fn arguments_of<'a>(
    alloc: Global,
    tried: &'a Tried,
    link: &str,
) -> Result<&'a Arguments, LinkFault> {
    let call = read(alloc, tried, link)?;
    match tried.site.routes.entries.get(call.entry as usize) {
        Some(entry) => Ok(&entry.arguments),
        None => Err(LinkFault::NoRoute),
    }
}

/// What comes of a top-level value with the values that wires are.
fn ran(
    alloc: Global,
    tried: &Tried,
    value: u32,
    arguments: &Arguments,
    wires: &Wires,
    steps: Steps,
) -> Result<String, AllocError> {
    let region = Region::new(alloc);
    let program = &tried.program;
    let datatypes = &tried.site.routes.datatypes;
    match values_of_wires(alloc, program, &region, datatypes, arguments, wires) {
        Ok(values) => match run(
            alloc,
            program,
            &region,
            value,
            values.as_slice(),
            steps.budget,
        ) {
            Ok(ran) => line_of_ran(alloc, &ran),
            Err(fault) => line_of_fault(alloc, steps.wanted, &fault),
        },
        Err(NoValues::Astray) => "? Astray".to_string(alloc),
        Err(NoValues::Memory) => Err(AllocError),
    }
}

/// What comes of a call whose links are read.
fn called(alloc: Global, tried: &Tried, call: &str, steps: Steps) -> Result<String, LinkFault> {
    let links = links_of(call);
    let value = value_of(alloc, tried, links.value)?;
    let arguments = arguments_of(alloc, tried, links.arguments)?;
    let given = read(alloc, tried, links.wires)?;
    Ok(ran(alloc, tried, value, arguments, &given.wires, steps)?)
}

/// What comes of a call, as a case writes it.
pub fn ending(
    alloc: Global,
    tried: &Tried,
    call: &str,
    steps: Steps,
) -> Result<String, AllocError> {
    match called(alloc, tried, call, steps) {
        Ok(line) => Ok(line),
        Err(LinkFault::Memory) => Err(AllocError),
        Err(fault) => format!(in alloc; "? {fault}"),
    }
}

//! What a run ends with, as a case writes it.
use page_bytes::{PageFault, write_page};
use plain_run::{Effects, Ran, RunFault};
use std::alloc::{AllocError, Global};
use ur_outside::MemSink;
use xml_trees::Page;

/// The text of a page within `html`.
fn shown(alloc: Global, page: &Page) -> Result<String, AllocError> {
    if !page.is_whole() {
        return Err(AllocError);
    }
    let mut sink = MemSink::new(alloc, 65536, Vec::new(alloc));
    match write_page(page, &mut sink) {
        Ok(()) => {}
        Err(PageFault::WriteFault) => return Err(AllocError),
    }
    let text = String::from_utf8_lossy(alloc, sink.written())?;
    let inner = text
        .as_str()
        .strip_prefix("<!DOCTYPE html><html>")
        .and_then(|rest| rest.strip_suffix("</html>"));
    inner.unwrap_or("no page").to_string(alloc)
}

/// Adds effects, each behind a bar, as its module and what it is told.
fn add_effects(line: &mut String, effects: &Effects) -> Result<(), AllocError> {
    for effect in &effects.items {
        line.push_str(" | ")?;
        line.push_str(effect.module.as_str())?;
        line.push_str(".")?;
        line.push_str(effect.told.as_str())?;
    }
    Ok(())
}

/// What a run gave. That it set cookies is told too, since none can.
pub fn line_of_ran(alloc: Global, ran: &Ran) -> Result<String, AllocError> {
    let used = ran.used;
    let shown = shown(alloc, &ran.page)?;
    let mut line = format!(in alloc; "= {used} {}", shown.as_str())?;
    add_effects(&mut line, &ran.effects)?;
    if !ran.cookies.items.is_empty() {
        line.push_str(" | cookies")?;
    }
    Ok(line)
}

/// Why a run gave no page, within so many steps.
pub fn line_of_fault(alloc: Global, steps: u64, fault: &RunFault) -> Result<String, AllocError> {
    match fault {
        RunFault::OverBudget => format!(in alloc; "! {steps} OverBudget"),
        RunFault::DivZero => format!(in alloc; "! {steps} DivZero"),
        RunFault::TextTooLong => format!(in alloc; "! {steps} TextTooLong"),
        RunFault::LinkTooLong => format!(in alloc; "! {steps} LinkTooLong"),
        RunFault::NotBlessed => format!(in alloc; "! {steps} NotBlessed"),
        RunFault::Aborted(page) => {
            let shown = shown(alloc, page)?;
            format!(in alloc; "! {steps} Aborted {}", shown.as_str())
        }
        RunFault::Wrong(place) => {
            let (file, at) = (place.file, place.at);
            format!(in alloc; "! {steps} Wrong {file}:{at}")
        }
        RunFault::TooDeep => format!(in alloc; "! {steps} TooDeep"),
        RunFault::Memory => Err(AllocError),
    }
}

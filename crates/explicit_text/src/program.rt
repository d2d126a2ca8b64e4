//! Programs: `module Name`, and then each of the module's declarations, each on a line.
use crate::decls::{module_of, print_decl};
use crate::known::Known;
use crate::output::Output;
use crate::printer::{Printer, Style, run};
use crate::tasks::Tasks;
use core_terms::{Decl, Program};
use std::alloc::{AllocError, Global};
use table_rows::Texts;

/// Prints that modules begin, each on a line: those with a number that is less than `to`, and not less than `from`.
fn module_lines(
    output: &mut Output,
    modules: &Texts,
    from: usize,
    to: usize,
) -> Result<(), AllocError> {
    for module in from..to {
        output.word("module")?;
        if module < modules.len() {
            output.word(modules.at(module).as_str())?;
        }
        output.end_line()?;
    }
    Ok(())
}

/// Prints a declaration of a module.
fn one<'a>(
    alloc: Global,
    known: &'a Known,
    printer: &mut Printer,
    decl: &'a Decl,
) -> Result<(), AllocError> {
    let style = Style {
        alloc,
        known,
        module: module_of(decl),
        sorted: false,
    };
    let mut tasks = Tasks::new(alloc);
    print_decl(&mut tasks, decl)?;
    run(&style, printer, &mut tasks)
}

/// Prints a program.
fn print_program(
    alloc: Global,
    known: &Known,
    printer: &mut Printer,
    program: &Program,
) -> Result<(), AllocError> {
    let count = program.modules.len();
    let mut begun = 0;
    for decl in program.decls.items.iter() {
        let end = (module_of(decl) as usize).saturating_add(1).min(count);
        module_lines(&mut printer.output, &program.modules, begun, end)?;
        begun = end.max(begun);
        one(alloc, known, printer, decl)?;
    }
    module_lines(&mut printer.output, &program.modules, begun, count)
}

/// The text of a program.
pub fn explicit_text(alloc: Global, program: &Program) -> Result<String, AllocError> {
    let known = Known::of_program(alloc, program)?;
    let mut printer = Printer::new(alloc);
    print_program(alloc, &known, &mut printer, program)?;
    Ok(printer.into_text())
}

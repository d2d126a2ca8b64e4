//! Datatypes held against those of a source.
ghost use Rattle.std.specs.Prelude.{◌≡◌, IfOk, IsTrue, OnOk};
ghost use Rattle.con_terms.specs.Trees.{basic};
ghost use Rattle.core_terms.specs.Lists.{constructors_view};
ghost use Rattle.core_terms.specs.View.{constructor_view, datatype_view, maybe_con, symbols_view};
ghost use Rattle.plain_tree.specs.ConView as plain_cons;
ghost use Rattle.plain_tree.specs.View as plain_decls;
ghost use Rattle.source_names.specs.Scopes.{at_top, declare_type, last_home as home_of_last};
ghost use Rattle.source_names.specs.View.{declared_view, scope_view, tables_view};
ghost use Rattle.source_terms.specs.Alike.{each};
ghost use Rattle.source_terms.specs.Declarations as goal;

use crate::declarations::is_at_top;
use con_terms::{Con, Sym};
use core_terms::{Constructor, Constructors, Datatype, Program, Symbols};
use plain_tree as plain;
use source_names::{Here, Known, is_text, reads_con};
use std::alloc::{AllocError, Global};

/// The scope inside of a datatype's parameters, the last of which is the innermost.
fn under_parameters<'p>(
    alloc: Global,
    s: Here<'p>,
    parameters: &plain::Words,
) -> Result<Here<'p>, AllocError>
    ensures { IfOk result (λ r. scope_view r ≡ goal.under_parameters parameters.now (scope_view s.entry)) }
{
    let mut s = s;
    for i in 0..parameters.items.len() {
        s = s.under_variable(alloc, &parameters.items[i].text)?;
    }
    Ok(s)
}

/// Whether symbols are those of names.
#[tactic(auto, using(crate::proofs::Each::views_differ))]
fn are_names(s: &Here<'_>, names: &plain::Words, symbols: &Symbols) -> Result<bool, AllocError>
    ensures { IfOk result
        (λ b. b ≡ each (goal.is_name (scope_view s.now).tables) names.now (symbols_view symbols.now)) }
{
    if names.items.len() != symbols.items.len() {
        return Ok(false);
    }
    for i in 0..names.items.len() {
        if !is_text(s, symbols.items[i], &names.items[i].text)? {
            return Ok(false);
        }
    }
    Ok(true)
}

/// Whether what a constructor holds is what the source says.
fn is_held(
    alloc: Global,
    s: &Here<'_>,
    source: &Option<plain::Con>,
    made: &Option<Con>,
) -> Result<bool, AllocError>
    ensures { IfOk result (λ b. b ≡ goal.reads_held (scope_view s.now) (plain_cons.maybe_con source.now)
        (maybe_con made.now)) }
{
    match source {
        None => match made {
            None => Ok(true),
            Some(_) => Ok(false),
        },
        Some(c) => match made {
            None => Ok(false),
            Some(con) => reads_con(alloc, s, c, con),
        },
    }
}

/// Whether a constructor of a datatype is the source's.
fn is_builder(
    alloc: Global,
    s: &Here<'_>,
    source: &plain::DatatypeBuilder,
    made: &Constructor,
) -> Result<bool, AllocError>
    ensures { IfOk result (λ b. b ≡ goal.reads_builder (scope_view s.now) (plain_decls.builder_tree source.now)
        (constructor_view made.now)) }
{
    if !is_text(s, made.name, &source.name.text)? {
        return Ok(false);
    }
    is_held(alloc, s, &source.holds, &made.holds)
}

/// Whether the constructors of a datatype are the source's.
#[tactic(auto, using(crate::proofs::Each::views_differ))]
fn are_builders(
    alloc: Global,
    s: &Here<'_>,
    source: &plain::Builders,
    made: &Constructors,
) -> Result<bool, AllocError>
    ensures { IfOk result (λ b. b ≡ each (goal.reads_builder (scope_view s.now))
        (plain_decls.builders_tree source.now) (constructors_view made.now)) }
{
    if source.items.len() != made.items.len() {
        return Ok(false);
    }
    for i in 0..source.items.len() {
        if !is_builder(alloc, s, &source.items[i], &made.items[i])? {
            return Ok(false);
        }
    }
    Ok(true)
}

/// The number of the module that is read.
#[tactic(auto, using(crate::proofs::Homes::last_home_is))]
pub fn last_home(known: &Known) -> usize
    ensures { result ≡ home_of_last (declared_view known.now).modules }
{
    known.modules.len().saturating_sub(1)
}

/// Whether a datatype stands in the module that is read.
fn is_home(known: &Known, place: &Option<u32>) -> bool
    ensures { result ≡ goal.is_home (home_of_last (declared_view known.now).modules) place.now }
{
    let home = last_home(known);
    match place {
        None => false,
        Some(number) => home == *number as usize,
    }
}

/// Whether the constructors of a datatype are the source's, where its type is declared.
fn are_held(
    alloc: Global,
    known: &Known,
    program: &Program,
    source: &plain::Datatype,
    made: &Datatype,
) -> Result<bool, AllocError>
    ensures { IfOk result (λ b. b ≡ each (goal.reads_builder (goal.under_parameters source.now.parameters
        (at_top (tables_view program.now) (declared_view known.now))))
        (plain_decls.builders_tree source.now.builders) (constructors_view made.now.constructors)) }
{
    let s = Here::new(alloc, known, program)?;
    let under = under_parameters(alloc, s, &source.parameters)?;
    are_builders(alloc, &under, &source.builders, &made.constructors)
}

/// Whether what a datatype is called, where it stands and what its parameters are called is the source's.
fn is_head(
    alloc: Global,
    known: &Known,
    program: &Program,
    source: &plain::Datatype,
    made: &Datatype,
) -> Result<bool, AllocError>
    ensures { IfOk result (λ b. b ≡ goal.reads_head (tables_view program.now) (declared_view known.now)
        (plain_decls.datatype_tree source.now) (datatype_view made.now)) }
{
    if !is_at_top(&made.path) {
        return Ok(false);
    }
    if !is_home(known, &made.module) {
        return Ok(false);
    }
    let s = Here::new(alloc, known, program)?;
    if !is_text(&s, made.name, &source.name.text)? {
        return Ok(false);
    }
    are_names(&s, &source.parameters, &made.parameters)
}

/// Declares the constructors of a datatype.
fn declare_builders(
    alloc: Global,
    known: &mut Known,
    symbol: Sym,
    source: &plain::Builders,
) -> Result<(), AllocError>
    ensures { OnOk result (declared_view known.new
        ≡ goal.declare_builders symbol.number 0 (plain_decls.builders_tree source.now) (declared_view known.old)) }
{
    for i in 0..source.items.len() {
        let Ok(place) = u32::try_from(i) else {
            return Err(AllocError);
        };
        known.add_builder(alloc, &source.items[i].name.text, symbol, place)?;
    }
    Ok(())
}

/// Whether a datatype is the source's. Where it is, it is declared.
pub fn is_datatype(
    alloc: Global,
    known: &mut Known,
    program: &Program,
    source: &plain::Datatype,
    made: &Datatype,
) -> Result<bool, AllocError>
    ensures same { IfOk result (λ b. b ≡ goal.reads_datatype (tables_view program.now) (declared_view known.old)
        (plain_decls.datatype_tree source.now) (datatype_view made.now)) }
    ensures behind { IfOk result (λ b. IsTrue b → declared_view known.new ≡ goal.declare_datatype
        (plain_decls.datatype_tree source.now) (datatype_view made.now) (declared_view known.old)) }
{
    if !is_head(alloc, known, program, source, made)? {
        return Ok(false);
    }
    known.add_type(alloc, &source.name.text, &Con::Basic(made.symbol))?;
    if !are_held(alloc, known, program, source, made)? {
        return Ok(false);
    }
    declare_builders(alloc, known, made.symbol, &source.builders)?;
    Ok(true)
}

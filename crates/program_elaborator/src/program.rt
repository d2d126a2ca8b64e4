//! Whole programs. A program is given where it is what its source says: `is_source` of the crate `source_terms`. A
//! refusal is told where it has its cause in the source.
ghost use Rattle.std.specs.Prelude.{◌≡◌, true, map, IfOk, IfErr};
ghost use Rattle.core_terms.specs.Lists.{foreigns_view, rules_view};
ghost use Rattle.core_terms.specs.View.{program_view};
ghost use Rattle.plain_tree.specs.View.{plain_view};
ghost use Rattle.program_elaborator.specs.Causes.{is_caused};
ghost use Rattle.inserted_terms.specs.Programs.{InsertsChosen};
ghost use Rattle.placed_terms.specs.Placed.{are_placed as stand_there};
ghost use Rattle.source_terms.specs.Programs.{is_source as says};

use crate::causes::caused;
use crate::copies::{copy_foreigns, copy_rules, copy_texts};
use crate::declarations::of_decl;
use crate::fault::{Refusal, memory, texts_of};
use crate::folders::Done;
use crate::terms::Terms;
use crate::texts::all_texts;
use core_terms::{Decls, Exports, Foreigns, Program, Rules};
use inserted_terms::inserts_chosen;
use name_scopes::Tops;
use placed_terms::are_placed;
use plain_tree::Plain;
use source_terms::is_source;
use std::alloc::{AllocError, Global};
use table_rows::{Text, Texts};

/// The modules of a project, in order. The last one is the main one.
#[derive(Drop)]
pub struct Source {
    /// The modules' names.
    pub modules: Texts,
    /// The modules without sugar.
    pub trees: Vec<Plain>,
    /// The names that the main module's interface has, where there is one.
    pub exported: Option<Texts>,
    pub rules: Rules,
    /// The foreign effects.
    pub foreign: Foreigns,
}

/// The explicit program that modules are, where their terms are elaborated so, or why they aren't. The program is what
/// the modules say, with their names resolved and nothing left out. A name that is told as unbound stands where it is
/// told and isn't in scope there, and the sides of a mismatch differ. Each folder and each instance that a call inserts
/// is the one that its rules choose for the parameter's type: of a folder the fields of the row in the written order,
/// of an instance the last value that is declared for the class and the type. Where they choose none a gap stands in
/// its place, and the checker is left to refuse the program. Each node of the program stands where that of the modules
/// stands for which it was made.
pub fn elaborate_with<T: Terms + Drop>(
    alloc: Global,
    terms: &T,
    source: Source,
) -> Result<Program, Refusal>
    ensures source { IfOk result (λ p. says source.modules (map plain_view source.trees.items) source.exported
        (rules_view source.rules) (foreigns_view source.foreign) (program_view p) ≡ true) }
    ensures inserted { IfOk result
        (λ p. InsertsChosen source.modules (map plain_view source.trees.items) (program_view p)) }
    ensures placed { IfOk result (λ p. stand_there (map plain_view source.trees.items) (program_view p) ≡ true) }
    ensures cause { IfErr result (λ r. is_caused source.modules (map plain_view source.trees.items)
        (foreigns_view source.foreign) r.fault ≡ true) }
{
    match elaborated(alloc, terms, &source) {
        Ok(program) => held(alloc, &source, program),
        Err(refusal) => Err(caused(alloc, &source, refusal)),
    }
}

/// A program, where it is what its source says, inserts what its rules choose, and has its nodes where the source has
/// them. One that isn't so counts as want of memory.
fn held(alloc: Global, source: &Source, program: Program) -> Result<Program, Refusal>
    ensures source { IfOk result (λ p. says source.now.modules (map plain_view source.now.trees.items)
        source.now.exported (rules_view source.now.rules) (foreigns_view source.now.foreign) (program_view p) ≡ true) }
    ensures inserted { IfOk result
        (λ p. InsertsChosen source.now.modules (map plain_view source.now.trees.items) (program_view p)) }
    ensures placed { IfOk result
        (λ p. stand_there (map plain_view source.now.trees.items) (program_view p) ≡ true) }
    ensures cause { IfErr result (λ r. is_caused source.now.modules (map plain_view source.now.trees.items)
        (foreigns_view source.now.foreign) r.fault ≡ true) }
{
    let read = is_source(
        alloc,
        &source.modules,
        source.trees.as_slice(),
        &source.exported,
        &source.rules,
        &source.foreign,
        &program,
    );
    let Ok(true) = read else {
        return Err(memory(alloc));
    };
    let chosen = inserts_chosen(alloc, &source.modules, source.trees.as_slice(), &program);
    let Ok(true) = chosen else {
        return Err(memory(alloc));
    };
    match are_placed(alloc, source.trees.as_slice(), &program) {
        Ok(true) => Ok(program),
        _ => Err(memory(alloc)),
    }
}

/// The program that inference makes of modules.
fn elaborated<T: Terms + Drop>(
    alloc: Global,
    terms: &T,
    source: &Source,
) -> Result<Program, Refusal> {
    let Ok(tops) = first_tops(alloc, &source.trees, &source.foreign) else {
        return Err(memory(alloc));
    };
    let mut whole = Done {
        tops,
        made: Decls::new(alloc),
    };
    for i in 0..source.trees.len() {
        whole = of_module(alloc, terms, whole, i, &source.modules, &source.trees[i])?;
    }
    let Done { tops, made } = whole;
    match finished(alloc, tops, made, source) {
        Ok(program) => Ok(program),
        Err(_) => Err(memory(alloc)),
    }
}

/// What is declared before all modules.
fn first_tops(alloc: Global, trees: &Vec<Plain>, foreign: &Foreigns) -> Result<Tops, AllocError> {
    let names = all_texts(alloc, trees)?;
    let foreign = copy_foreigns(alloc, foreign)?;
    Tops::new(alloc, names, foreign)
}

/// Begins a module. One that has no name in the list has the empty one.
fn begin(alloc: Global, tops: &mut Tops, place: usize, modules: &Texts) -> Result<u32, AllocError> {
    if place < modules.len() {
        tops.begin_module(modules.at(place))?;
    } else {
        tops.begin_module(&Text::new(alloc))?;
    }
    match u32::try_from(place) {
        Ok(file) => Ok(file),
        Err(_) => Err(AllocError),
    }
}

/// The declarations with those of one more module.
fn of_module<T: Terms + Drop>(
    alloc: Global,
    terms: &T,
    whole: Done<Decls>,
    place: usize,
    modules: &Texts,
    tree: &Plain,
) -> Result<Done<Decls>, Refusal> {
    let mut whole = whole;
    let Ok(file) = begin(alloc, &mut whole.tops, place, modules) else {
        return Err(memory(alloc));
    };
    for i in 0..tree.decls.items.len() {
        let Done { tops, mut made } = whole;
        let declared = of_decl(alloc, terms, tops, file, &tree.decls.items[i])?;
        if made.push(Box::into_inner(declared.made)).is_err() {
            return Err(memory(alloc));
        }
        whole = Done {
            tops: declared.tops,
            made,
        };
    }
    Ok(whole)
}

/// Whether a name is exported: each is where no interface selects some.
fn is_exported(name: &Text, exported: &Option<Texts>) -> bool {
    match exported {
        None => true,
        Some(names) => {
            for i in 0..names.len() {
                if names.at(i).as_str() == name.as_str() {
                    return true;
                }
            }
            false
        }
    }
}

/// The values of the main module that are exported. Of several of one name only the last is.
fn exports(alloc: Global, tops: &Tops, exported: &Option<Texts>) -> Result<Exports, AllocError> {
    let mut numbers = Exports::new(alloc);
    for i in 0..tops.values.len() {
        let value = &tops.values[i];
        if tops.is_own(value) && is_exported(&value.name, exported) {
            match u32::try_from(i) {
                Ok(number) => {
                    if tops.is_last_of_its_name(number) {
                        numbers.push(number)?;
                    }
                }
                Err(_) => return Err(AllocError),
            }
        }
    }
    Ok(numbers)
}

/// The program of all declarations.
fn finished(
    alloc: Global,
    tops: Tops,
    decls: Decls,
    source: &Source,
) -> Result<Program, AllocError> {
    let exports = exports(alloc, &tops, &source.exported)?;
    let names = texts_of(alloc, &tops.names)?;
    let modules = copy_texts(alloc, &source.modules)?;
    let rules = copy_rules(alloc, &source.rules)?;
    let (foreign, folders) = tops.into_parts();
    Ok(Program {
        names,
        modules,
        decls,
        rules,
        foreign,
        folders,
        exports,
    })
}

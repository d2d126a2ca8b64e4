//! Programs held against their source.
ghost use Rattle.std.specs.Prelude.{◌≡◌, ℕ, List, drop, map, nat_eq, IfOk};
ghost use Rattle.core_terms.specs.Lists.{foreigns_view, rules_view};
ghost use Rattle.core_terms.specs.View.{decls_view, program_view};
ghost use Rattle.plain_tree.specs.View.{decl_tree as plain_decl_tree, plain_view};
ghost use Rattle.source_names.specs.Scopes.{nothing_declared};
ghost use Rattle.source_names.specs.View.{declared_view, tables_view};
ghost use Rattle.source_terms.specs.Alike.{each};
ghost use Rattle.source_terms.specs.Programs as goal;
ghost use Rattle.source_terms.specs.Readings.{behind_decls, behind_modules};

use crate::alike::{same_effects, same_numbers, same_rules, same_texts};
use crate::datatypes::last_home;
use crate::declarations::is_decl;
use crate::exports::exports_from;
use core_terms::{Exports, Foreigns, Program, Rules};
use plain_tree::{Decl, Plain};
use source_names::Known;
use std::alloc::{AllocError, Global};
use table_rows::Texts;

/// Reads the declarations of a module among those of a program, from a place on, and tells the place behind them. None
/// where one of them is another.
fn read_decls(
    alloc: Global,
    known: &mut Known,
    program: &Program,
    decls: &[Decl],
    place: usize,
) -> Result<Option<usize>, AllocError>
    ensures { IfOk result (λ o. behind_decls o (declared_view known.new) (decls_view program.now.decls)
        ≡ goal.after_decls (tables_view program.now) (declared_view known.old) (map plain_decl_tree decls.now)
        (drop place (decls_view program.now.decls))) }
{
    let mut next = place;
    for i in 0..decls.len() {
        if next >= program.decls.items.len() {
            return Ok(None);
        }
        if !is_decl(alloc, known, program, &decls[i], &program.decls.items[next])? {
            return Ok(None);
        }
        next += 1;
    }
    Ok(Some(next))
}

/// Reads the modules of a program, and tells whether they are all that it declares.
fn read_modules(
    alloc: Global,
    known: &mut Known,
    program: &Program,
    names: &Texts,
    trees: &[Plain],
) -> Result<bool, AllocError>
    ensures { IfOk result (λ b. behind_modules b (declared_view known.new)
        ≡ goal.after_modules (tables_view program.now) (declared_view known.old) names.now (map plain_view trees.now)
        (decls_view program.now.decls)) }
{
    if trees.len() != names.len() {
        return Ok(false);
    }
    let mut next: usize = 0;
    for i in 0..trees.len() {
        known.begin_module(alloc, names.at(i))?;
        let decls = trees[i].decls.items.as_slice();
        match read_decls(alloc, known, program, decls, next)? {
            None => return Ok(false),
            Some(behind) => next = behind,
        }
    }
    if next < program.decls.items.len() {
        return Ok(false);
    }
    Ok(true)
}

/// The numbers of the exported values of the last module.
fn exports_of(
    alloc: Global,
    known: &Known,
    exported: &Option<Texts>,
) -> Result<Vec<u32>, AllocError>
    ensures { IfOk result (λ v. v.items ≡ goal.exports_of exported.now (declared_view known.now)) }
{
    exports_from(alloc, last_home(known), exported, known.values.as_slice())
}

/// Whether the exports of a program are those of its source, where its modules are read.
fn are_exports(
    alloc: Global,
    known: &Known,
    exported: &Option<Texts>,
    exports: &Exports,
) -> Result<bool, AllocError>
    ensures { IfOk result
        (λ b. b ≡ each nat_eq (goal.exports_of exported.now (declared_view known.now)) exports.now.items.items) }
{
    let numbers = exports_of(alloc, known, exported)?;
    Ok(same_numbers(numbers.as_slice(), exports.items.as_slice()))
}

/// Whether the declarations and the exports of a program are those of its source.
fn is_read(
    alloc: Global,
    names: &Texts,
    trees: &[Plain],
    exported: &Option<Texts>,
    program: &Program,
) -> Result<bool, AllocError>
    ensures { IfOk result (λ b. b ≡ goal.are_exports exported.now (goal.after_modules (tables_view program.now)
        nothing_declared names.now (map plain_view trees.now) (decls_view program.now.decls))
        program.now.exports.items.items) }
{
    let mut known = Known::new(alloc);
    if !read_modules(alloc, &mut known, program, names, trees)? {
        return Ok(false);
    }
    are_exports(alloc, &known, exported, &program.exports)
}

/// Whether a program is what modules of these names say, of which the last exports these names, with these rules and
/// foreign effects. It takes a time that grows with what is read and, for each name, with what is declared before.
#[tactic(auto, using(crate::proofs::Tables::tables_are))]
pub fn is_source(
    alloc: Global,
    names: &Texts,
    trees: &[Plain],
    exported: &Option<Texts>,
    rules: &Rules,
    effects: &Foreigns,
    program: &Program,
) -> Result<bool, AllocError>
    ensures { IfOk result (λ b. b ≡ goal.is_source names.now (map plain_view trees.now) exported.now
        (rules_view rules.now) (foreigns_view effects.now) (program_view program.now)) }
{
    if !same_texts(names, &program.modules) {
        return Ok(false);
    }
    if !same_rules(rules, &program.rules) {
        return Ok(false);
    }
    if !same_effects(effects, &program.foreign) {
        return Ok(false);
    }
    is_read(alloc, names, trees, exported, program)
}

//! Whole programs: declarations one by one, each in the scope of what is declared before it.
ghost use Rattle.std.specs.Prelude.{◌≡◌, ◌+◌, ◌≤◌, drop, length, map, take, IfOk, IfSome, IsTrue};
ghost use Rattle.con_terms.specs.View.{con_tree};
ghost use Rattle.core_terms.specs.View.{decl_tree, named_list_tree, named_tree, program_view};
ghost use Rattle.inserted_terms.specs.Chosen.{Chosen, NamesChosen};
ghost use Rattle.inserted_terms.specs.Forms.{instance_names};
ghost use Rattle.inserted_terms.specs.Inside as inside;
ghost use Rattle.inserted_terms.specs.Programs as goal;
ghost use Rattle.inserted_terms.specs.Values.{name_of};
ghost use Rattle.inserted_terms.specs.View.{at_view, count_of, reached_view};
ghost use Rattle.plain_tree.specs.View.{plain_view};
ghost use Rattle.source_names.specs.View.{tables_view};

use crate::at::At;
use crate::basis::basis_values;
use crate::terms::{named_chosen, names_chosen};
use crate::tops::{Tops, no_tops, with_top};
use crate::values::BasisValue;
use con_terms::{Con, Sym};
use core_terms::{Decl, Named, NamedList, Program};
use judgements::Locals;
use plain_tree::Plain;
use source_names::{Here, Known};
use std::alloc::{AllocError, Global};
use std::rc::Rc;
use table_rows::{Text, Texts};

/// What is declared so far, and the types of the values. Contracts see it as `reached_view`.
#[derive(Drop)]
pub struct State {
    pub known: Known,
    pub tops: Tops,
}

/// The scope at the top, where this is declared.
fn at_top<'p>(
    alloc: Global,
    s: &'p State,
    program: &'p Program,
    basis: &'p [BasisValue],
) -> Result<At<'p>, AllocError>
    requires { map name_of basis.now ≡ instance_names }
    ensures { IfOk result (λ h. at_view h
        ≡ inside.at_top_of (tables_view program.now) (program_view program.now) (reached_view s.now)) }
{
    let names = Here::new(alloc, &s.known, program)?;
    let locals = Rc::new(alloc, Locals::Empty).map_err(AllocError::from)?;
    Ok(At {
        names,
        program,
        tops: &s.tops,
        basis,
        locals,
    })
}

/// Declares a value. A name without a text counts as want of memory.
fn declare(alloc: Global, s: State, program: &Program, x: Sym, t: &Con) -> Result<State, AllocError>
    ensures { IfOk result (λ r. reached_view r
        ≡ goal.with_value (tables_view program.now) x.number (con_tree t.now) (reached_view s)) }
{
    let index = x.number as usize;
    if index >= program.names.len() {
        return Err(AllocError);
    }
    let State { mut known, tops } = s;
    known.add_value(alloc, program.names.at(index))?;
    let tops = with_top(alloc, tops, t)?;
    Ok(State { known, tops })
}

/// Declares a name with its term.
fn declare_named(alloc: Global, s: State, program: &Program, n: &Named) -> Result<State, AllocError>
    ensures { IfOk result (λ r. reached_view r ≡ goal.with_value (tables_view program.now)
        (named_tree n.now).1 (named_tree n.now).3 (reached_view s)) }
{
    declare(alloc, s, program, n.name, &n.con)
}

/// Declares names that are declared together.
fn declare_names(
    alloc: Global,
    s: State,
    program: &Program,
    ns: &NamedList,
) -> Result<State, AllocError>
    ensures { IfOk result (λ r. reached_view r
        ≡ goal.with_names (tables_view program.now) (named_list_tree ns.now) (reached_view s)) }
{
    let mut reached = s;
    for i in 0..ns.items.len() {
        reached = declare_named(alloc, reached, program, &ns.items[i])?;
    }
    Ok(reached)
}

/// Whether a declaration inserts what its rules choose, where this is declared.
fn value_chosen(
    alloc: Global,
    s: &State,
    program: &Program,
    basis: &[BasisValue],
    n: &Named,
) -> Result<bool, AllocError>
    requires { map name_of basis.now ≡ instance_names }
    ensures { IfOk result (λ b. IsTrue b → Chosen
        (inside.at_top_of (tables_view program.now) (program_view program.now) (reached_view s.now))
        (named_tree n.now).4) }
{
    let h = at_top(alloc, s, program, basis)?;
    named_chosen(alloc, &h, n)
}

/// Whether names that are declared together do, where they are declared.
fn values_chosen(
    alloc: Global,
    s: &State,
    program: &Program,
    basis: &[BasisValue],
    ns: &NamedList,
) -> Result<bool, AllocError>
    requires { map name_of basis.now ≡ instance_names }
    ensures { IfOk result (λ b. IsTrue b → NamesChosen
        (inside.at_top_of (tables_view program.now) (program_view program.now) (reached_view s.now))
        (named_list_tree ns.now)) }
{
    let h = at_top(alloc, s, program, basis)?;
    names_chosen(alloc, &h, ns)
}

/// What is declared behind a declaration, where it inserts what its rules choose; none where it doesn't.
fn behind_decl(
    alloc: Global,
    s: State,
    program: &Program,
    basis: &[BasisValue],
    d: &Decl,
) -> Result<Option<State>, AllocError>
    requires { map name_of basis.now ≡ instance_names }
    ensures { IfOk result (λ o. IfSome o (λ r.
        goal.DeclChosen (tables_view program.now) (program_view program.now) (reached_view s) (decl_tree d.now)
        × (reached_view r ≡ goal.behind (tables_view program.now) (decl_tree d.now) (reached_view s)))) }
{
    match d {
        Decl::Val(_, n) => {
            if !value_chosen(alloc, &s, program, basis, n)? {
                return Ok(None);
            }
            Ok(Some(declare_named(alloc, s, program, n)?))
        }
        Decl::ValRec(_, ns) => {
            let reached = declare_names(alloc, s, program, ns)?;
            if !values_chosen(alloc, &reached, program, basis, ns)? {
                return Ok(None);
            }
            Ok(Some(reached))
        }
        Decl::Thing(t) => Ok(Some(declare(alloc, s, program, t.name, &t.con)?)),
        Decl::Con(_) | Decl::Datatype(_) => Ok(Some(s)),
    }
}

/// What is declared behind declarations one after another, where each inserts what its rules choose.
fn behind_decls(
    alloc: Global,
    s: State,
    program: &Program,
    basis: &[BasisValue],
    ds: &[Decl],
) -> Result<Option<State>, AllocError>
    requires { map name_of basis.now ≡ instance_names }
    ensures { IfOk result (λ o. IfSome o (λ r.
        goal.DeclsChosen (tables_view program.now) (program_view program.now) (reached_view s) (map decl_tree ds.now)
        × (reached_view r ≡ goal.behind_all (tables_view program.now) (map decl_tree ds.now) (reached_view s)))) }
{
    let mut reached = s;
    for i in 0..ds.len() {
        match behind_decl(alloc, reached, program, basis, &ds[i])? {
            None => return Ok(None),
            Some(behind) => reached = behind,
        }
    }
    Ok(Some(reached))
}

/// The state behind the beginning of a module.
fn in_module(alloc: Global, s: State, name: &Text) -> Result<State, AllocError>
    ensures { IfOk result (λ r. reached_view r ≡ goal.in_module name.now (reached_view s)) }
{
    let State { mut known, tops } = s;
    known.begin_module(alloc, name)?;
    Ok(State { known, tops })
}

/// So many declarations from a place on.
fn part(decls: &[Decl], from: usize, count: usize) -> &[Decl]
    requires { from + count ≤ length decls.now }
    ensures { result.now ≡ take count (drop from decls.now) }
{
    &decls[from..from + count]
}

/// Whether the declarations of modules insert what their rules choose, and none is left over.
#[tactic(auto, using(crate::proofs::Modules::modules_end))]
fn modules_chosen(
    alloc: Global,
    s: State,
    program: &Program,
    basis: &[BasisValue],
    names: &Texts,
    trees: &[Plain],
) -> Result<bool, AllocError>
    requires { map name_of basis.now ≡ instance_names }
    ensures { IfOk result (λ b. IsTrue b → goal.ModulesChosen (tables_view program.now) (program_view program.now)
        (reached_view s) names.now (map count_of trees.now) (program_view program.now).decls) }
{
    if trees.len() != names.len() {
        return Ok(false);
    }
    let decls = program.decls.items.as_slice();
    let mut reached = s;
    let mut next: usize = 0;
    for i in 0..trees.len() {
        let count = trees[i].decls.items.len();
        if decls.len() - next < count {
            return Ok(false);
        }
        let own = part(decls, next, count);
        let begun = in_module(alloc, reached, names.at(i))?;
        match behind_decls(alloc, begun, program, basis, own)? {
            None => return Ok(false),
            Some(behind) => reached = behind,
        }
        next += count;
    }
    Ok(next == decls.len())
}

/// Whether the folders and instances that a program inserts are those that their rules choose: of a folder the fields
/// of its row in the written order, of an instance the last value that is declared for its class and type. Its modules
/// have these names and trees. It takes a time that grows with the program and, for each instance, with what is
/// declared before.
pub fn inserts_chosen(
    alloc: Global,
    names: &Texts,
    trees: &[Plain],
    program: &Program,
) -> Result<bool, AllocError>
    ensures { IfOk result (λ b. IsTrue b
        → goal.InsertsChosen names.now (map plain_view trees.now) (program_view program.now)) }
{
    let basis = basis_values(alloc)?;
    let s = State {
        known: Known::new(alloc),
        tops: no_tops(alloc),
    };
    modules_chosen(alloc, s, program, basis.as_slice(), names, trees)
}

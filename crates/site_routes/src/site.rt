//! The routes of a program.
ghost use Rattle.std.specs.Prelude.{◌≡◌, ◌<◌, ◌++◌, ◌∷◌, [], get_or, Bool, ℕ};
ghost use Rattle.std.specs.Prelude.{false, true, map, Some, None, slice_get, IfOk, OnOk};
ghost use Rattle.std.specs.Bool.{Decides};
ghost use Rattle.con_terms.specs.Trees as con;
ghost use Rattle.con_terms.specs.View.{con_tree};
ghost use Rattle.core_terms.specs.Trees.{Pg};
ghost use Rattle.core_terms.specs.View.{datatype_view, program_view};
ghost use Rattle.core_typing.specs.Scopes.{normal_of as normal_in};
ghost use Rattle.core_typing.specs.Entries.{RoutesOf, program_targets};
ghost use Rattle.carried_types.specs.Pages.{arrow_parts};
ghost use Rattle.carried_types.specs.View.{carriers_view};
ghost use Rattle.link_router.specs.View.{entry_view, routes_view};
ghost use Rattle.table_rows.specs.View.{datatypes_view, maybe_shape, shape_tree, shapes_from};
ghost use Rattle.site_routes.specs.Marking.{TellsNumbers, TellsTargets};
ghost use Rattle.site_routes.specs.Taking as taking;
ghost use Rattle.site_routes.specs.Taking.{AddsOne, ArgumentIs, EntryIs, FormIs, KeepsAll};
ghost use Rattle.site_routes.specs.Taking.{Knows, NotLast, StepIs, TakenIs};
ghost use Rattle.site_routes.specs.View.{kept_view, maybe_entry, maybe_function, maybe_takes};
ghost use Rattle.site_routes.specs.View.{step_view, targets_view, value_view};

use crate::shapes::{shaped, shaped_datatypes};
use crate::targets::{Targets, called_by, export_marks};
use crate::values::{Value, values_of};
use carried_types::{Carriers, can_carry, can_fill, carriers_of, gives_page};
use con_terms::{Con, copy_con};
use core_terms::{Datatype, Program};
use judgements::normal_of;
use link_router::{Entry, Routes};
use match_cover::datatypes_before;
use std::alloc::{AllocError, Global};
use table_rows::{Arguments, Datatypes, Shape, Texts};

/// The routes of a program, and for each entry the number of the value that it calls.
#[derive(Drop)]
pub struct SiteRoutes {
    pub routes: Routes,
    pub callees: Vec<u32>,
}

/// What a type takes before it gives a page: arguments alone, or arguments and a form.
#[derive(Drop)]
pub struct Takes {
    pub arguments: Arguments,
    pub form: Option<Shape>,
}

/// What the types of a program are looked at with.
#[derive(Drop)]
pub struct Known {
    pub datatypes: Vec<Datatype>,
    pub carriers: Carriers,
}

/// The shape of an argument that links carry.
fn argument(
    alloc: Global,
    names: &Texts,
    known: &Known,
    t: &Con,
) -> Result<Option<Shape>, AllocError>
    ensures { IfOk result (λ o. (p : Pg)
        → Knows p names.now (map datatype_view known.now.datatypes.items) (carriers_view known.now.carriers)
        → ArgumentIs p (con_tree t.now) (maybe_shape o)) }
{
    let carried = can_carry(alloc, &known.datatypes, &known.carriers, t)?;
    if carried {
        shaped(alloc, names, &known.datatypes, t)
    } else {
        Ok(None)
    }
}

/// The shape of a form's fields, where a page is given behind it.
fn form_of(
    alloc: Global,
    names: &Texts,
    known: &Known,
    a: &Con,
    b: &Con,
) -> Result<Option<Shape>, AllocError>
    ensures { IfOk result (λ o. (p : Pg)
        → Knows p names.now (map datatype_view known.now.datatypes.items) (carriers_view known.now.carriers)
        → FormIs p (con_tree a.now) (con_tree b.now) (maybe_shape o)) }
{
    let filled = can_fill(alloc, a)?;
    if filled {
        let page = gives_page(alloc, b)?;
        if page {
            shaped(alloc, names, &known.datatypes, a)
        } else {
            Ok(None)
        }
    } else {
        Ok(None)
    }
}

/// How many arguments an entry may have.
const ARGUMENTS: u32 = 10_000;

/// What a type is to an entry.
#[derive(Drop)]
pub enum Step {
    /// Nothing that an entry has.
    No,
    /// The type of actions that give a page.
    Page,
    /// A function of a form's fields that gives a page.
    Form(Shape),
    /// A function of an argument that links carry, and the type behind it.
    Argument(Shape, Con),
}

/// What a function is, where it doesn't take a form's fields.
fn argument_step(
    alloc: Global,
    names: &Texts,
    known: &Known,
    a: &Con,
    rest: Con,
) -> Result<Step, AllocError>
    ensures { IfOk result (λ s. (p : Pg) (w : Bool) (t : con.Cn)
        → Knows p names.now (map datatype_view known.now.datatypes.items) (carriers_view known.now.carriers)
        → normal_in t ≡ Some (con.arrow (con_tree a.now) (con_tree rest))
        → NotLast p w t (con_tree a.now) (con_tree rest)
        → StepIs p w t (step_view s)) }
{
    match argument(alloc, names, known, a)? {
        None => Ok(Step::No),
        Some(shape) => Ok(Step::Argument(shape, rest)),
    }
}

/// What a function is, where the entry has a form or hasn't.
#[tactic(auto, using(crate::proofs::Taken::form_yes))]
fn arrow_step(
    alloc: Global,
    names: &Texts,
    known: &Known,
    with_form: bool,
    a: &Con,
    b: Con,
) -> Result<Step, AllocError>
    ensures { IfOk result (λ s. (p : Pg) (t : con.Cn)
        → Knows p names.now (map datatype_view known.now.datatypes.items) (carriers_view known.now.carriers)
        → normal_in t ≡ Some (con.arrow (con_tree a.now) (con_tree b))
        → (with_form ≡ false → NotLast p false t (con_tree a.now) (con_tree b))
        → StepIs p with_form t (step_view s)) }
{
    if with_form {
        match form_of(alloc, names, known, a, &b)? {
            None => argument_step(alloc, names, known, a, b),
            Some(form) => Ok(Step::Form(form)),
        }
    } else {
        argument_step(alloc, names, known, a, b)
    }
}

/// The parts of a function's type.
#[derive(Drop)]
pub struct Function {
    pub from: Con,
    pub to: Con,
}

/// The parts of a function's type, by its normal form.
fn function_of(alloc: Global, t: &Con) -> Result<Option<Function>, AllocError>
    ensures { IfOk result (λ o. maybe_function o ≡ arrow_parts (normal_in (con_tree t.now))) }
{
    match normal_of(alloc, t)? {
        Some(Con::Arrow(a, b)) => Ok(Some(Function {
            from: Box::into_inner(a),
            to: Box::into_inner(b),
        })),
        _ => Ok(None),
    }
}

/// What a type is to an entry that hasn't its end there.
fn function_step(
    alloc: Global,
    names: &Texts,
    known: &Known,
    with_form: bool,
    t: &Con,
) -> Result<Step, AllocError>
    ensures { IfOk result (λ s. (p : Pg)
        → Knows p names.now (map datatype_view known.now.datatypes.items) (carriers_view known.now.carriers)
        → (with_form ≡ false → taking.NoPage (con_tree t.now))
        → StepIs p with_form (con_tree t.now) (step_view s)) }
{
    match function_of(alloc, t)? {
        None => Ok(Step::No),
        Some(f) => {
            let Function { from, to } = f;
            arrow_step(alloc, names, known, with_form, &from, to)
        }
    }
}

/// What a type is to an entry with a form or without.
fn step_of(
    alloc: Global,
    names: &Texts,
    known: &Known,
    with_form: bool,
    t: &Con,
) -> Result<Step, AllocError>
    ensures { IfOk result (λ s. (p : Pg)
        → Knows p names.now (map datatype_view known.now.datatypes.items) (carriers_view known.now.carriers)
        → StepIs p with_form (con_tree t.now) (step_view s)) }
{
    if with_form {
        function_step(alloc, names, known, with_form, t)
    } else {
        let page = gives_page(alloc, t)?;
        if page {
            Ok(Step::Page)
        } else {
            function_step(alloc, names, known, with_form, t)
        }
    }
}

/// What is taken by these arguments, and a form.
fn all_taken(items: Vec<Shape>, form: Option<Shape>) -> Takes
    ensures { maybe_takes (Some result) ≡ Some (shapes_from (map shape_tree items.items), maybe_shape form) }
{
    Takes {
        arguments: Arguments { items },
        form,
    }
}

/// Arguments with one more.
fn with_argument(items: Vec<Shape>, shape: Shape) -> Result<Vec<Shape>, AllocError>
    ensures { IfOk result (λ v. map shape_tree v.items ≡ map shape_tree items.items ++ shape_tree shape ∷ []) }
{
    let mut more = items;
    more.push(shape)?;
    Ok(more)
}

/// The arguments of a function that gives an action, with a form or without; none where a type is something else.
fn taken(
    alloc: Global,
    names: &Texts,
    known: &Known,
    with_form: bool,
    t: &Con,
) -> Result<Option<Takes>, AllocError>
    ensures { IfOk result (λ o. (p : Pg)
        → Knows p names.now (map datatype_view known.now.datatypes.items) (carriers_view known.now.carriers)
        → TakenIs p with_form (con_tree t.now) (maybe_takes o)) }
{
    let mut items = Vec::new(alloc);
    let mut now = copy_con(alloc, t)?;
    for i in 0..ARGUMENTS {
        match step_of(alloc, names, known, with_form, &now)? {
            Step::No => return Ok(None),
            Step::Page => {
                let all = all_taken(items, None);
                return Ok(Some(all));
            }
            Step::Form(form) => {
                let whole = all_taken(items, Some(form));
                return Ok(Some(whole));
            }
            Step::Argument(shape, rest) => {
                items = with_argument(items, shape)?;
                now = rest;
            }
        }
    }
    Err(AllocError)
}

/// A copy of a name.
fn copy_texts(alloc: Global, name: &Texts) -> Result<Texts, AllocError>
    ensures { IfOk result (λ new. new ≡ name.now) }
{
    let mut copy = Texts::new(alloc);
    for i in 0..name.len() {
        copy.push(name.at(i).copy(alloc)?)?;
    }
    Ok(copy)
}

/// The entries so far, and the values that they call.
#[derive(Drop)]
pub struct Entries {
    pub entries: Vec<Entry>,
    pub callees: Vec<u32>,
}

/// The entry of a value, where it has one.
fn entry_of(
    alloc: Global,
    names: &Texts,
    known: &Known,
    with_form: bool,
    v: &Value,
) -> Result<Option<Entry>, AllocError>
    ensures { IfOk result (λ o. (p : Pg)
        → Knows p names.now (map datatype_view known.now.datatypes.items) (carriers_view known.now.carriers)
        → EntryIs p with_form (value_view v.now) (maybe_entry o)) }
{
    match taken(alloc, names, known, with_form, &v.con)? {
        None => Ok(None),
        Some(Takes { arguments, form }) => {
            let name = copy_texts(alloc, &v.name)?;
            Ok(Some(Entry {
                name,
                arguments,
                form,
            }))
        }
    }
}

/// Adds an entry, where there is one.
fn add_found(found: Option<Entry>, i: u32, all: &mut Entries) -> Result<(), AllocError>
    ensures { OnOk result (kept_view all.new
        ≡ taking.with_listed (kept_view all.old) (taking.listed_one i (maybe_entry found))) }
{
    match found {
        None => Ok(()),
        Some(entry) => {
            all.entries.push(entry)?;
            Ok(all.callees.push(i)?)
        }
    }
}

/// Adds the entry of a value, where it has one.
fn add_entry(
    alloc: Global,
    names: &Texts,
    known: &Known,
    with_form: bool,
    i: u32,
    v: &Value,
    all: &mut Entries,
) -> Result<(), AllocError>
    ensures { OnOk result ((p : Pg)
        → Knows p names.now (map datatype_view known.now.datatypes.items) (carriers_view known.now.carriers)
        → AddsOne p with_form i (value_view v.now) (kept_view all.old) (kept_view all.new)) }
{
    let found = entry_of(alloc, names, known, with_form, v)?;
    add_found(found, i, all)
}

/// Adds the entry of a value, where it is called so and has one.
fn add_called(
    alloc: Global,
    names: &Texts,
    known: &Known,
    with_form: bool,
    called: bool,
    i: u32,
    v: &Value,
    all: &mut Entries,
) -> Result<(), AllocError>
    ensures { OnOk result ((p : Pg)
        → Knows p names.now (map datatype_view known.now.datatypes.items) (carriers_view known.now.carriers)
        → taking.AddsMethod p with_form called i (value_view v.now) (kept_view all.old) (kept_view all.new)) }
{
    if called {
        add_entry(alloc, names, known, with_form, i, v, all)
    } else {
        Ok(())
    }
}

/// Whether a place of a list is marked.
fn is_marked(marks: &Vec<bool>, i: usize) -> bool
    ensures { result ≡ get_or marks.now.items i false }
{
    if i < marks.len() { marks[i] } else { false }
}

/// Whether a value is called by GET: an export, or what a link calls.
fn is_got(called: &Targets, exports: &Vec<bool>, i: usize) -> bool
    ensures { (p : Pg) (n : ℕ) → TellsTargets n (program_targets p) (targets_view called.now)
        → TellsNumbers n p.exports exports.now.items → i < n → Decides result (taking.Called p false i) }
{
    if is_marked(&called.links, i) {
        true
    } else {
        is_marked(exports, i)
    }
}

/// Whether a value is called by POST: what an action calls.
fn is_posted(called: &Targets, i: usize) -> bool
    ensures { (p : Pg) (n : ℕ) → TellsTargets n (program_targets p) (targets_view called.now) → i < n
        → Decides result (taking.Called p true i) }
{
    is_marked(&called.actions, i)
}

/// Adds the entries of a value: by GET where a link calls it or where it is an export, by POST where an action does.
fn add_entries(
    alloc: Global,
    p: &Program,
    known: &Known,
    called: &Targets,
    exports: &Vec<bool>,
    i: usize,
    v: &Value,
    all: &mut Entries,
) -> Result<(), AllocError>
    ensures { OnOk result ((n : ℕ)
        → Knows
        (program_view p.now)
        (program_view p.now).names
        (map datatype_view known.now.datatypes.items)
        (carriers_view known.now.carriers)
        → TellsTargets n (program_targets (program_view p.now)) (targets_view called.now)
        → TellsNumbers n (program_view p.now).exports exports.now.items
        → i < n
        → taking.AddsAll
        (program_view p.now)
        i
        (value_view v.now)
        (kept_view all.old)
        (kept_view all.new)) }
{
    if i > u32::MAX as usize {
        return Err(AllocError);
    }
    let number = i as u32;
    let got = is_got(called, exports, i);
    let posted = is_posted(called, i);
    add_called(alloc, &p.names, known, false, got, number, v, all)?;
    add_called(alloc, &p.names, known, true, posted, number, v, all)
}

/// The entries of all values.
fn entries_of(alloc: Global, p: &Program, known: &Known) -> Result<Entries, AllocError>
    ensures { IfOk result (λ all. Knows
        (program_view p.now)
        (program_view p.now).names
        (map datatype_view known.now.datatypes.items)
        (carriers_view known.now.carriers)
        → KeepsAll (program_view p.now) (kept_view all)) }
{
    let values = values_of(alloc, p)?;
    let count = values.len();
    let called = called_by(alloc, &p.decls, count)?;
    let exports = export_marks(alloc, &p.exports, count)?;
    let mut all = Entries {
        entries: Vec::new(alloc),
        callees: Vec::new(alloc),
    };
    for i in 0..count {
        add_entries(alloc, p, known, &called, &exports, i, &values[i], &mut all)?;
    }
    Ok(all)
}

/// What the types of a program are looked at with.
fn known_of(alloc: Global, p: &Program) -> Result<Known, AllocError>
    ensures { IfOk result (λ k. Knows
        (program_view p.now)
        (program_view p.now).names
        (map datatype_view k.datatypes.items)
        (carriers_view k.carriers)) }
{
    let datatypes = datatypes_before(alloc, &p.decls, p.decls.items.len())?;
    let carriers = carriers_of(alloc, &datatypes)?;
    Ok(Known {
        datatypes,
        carriers,
    })
}

/// The routes with these datatypes and entries.
fn made(datatypes: Datatypes, all: Entries) -> SiteRoutes
    ensures datatypes { (routes_view result.routes).datatypes ≡ datatypes_view datatypes }
    ensures entries { (routes_view result.routes).entries ≡ (kept_view all).0 }
    ensures callees { result.callees.items ≡ (kept_view all).1 }
{
    let Entries { entries, callees } = all;
    SiteRoutes {
        routes: Routes { datatypes, entries },
        callees,
    }
}

/// The routes of a program: its entries in the order of the values' numbers, GET before POST.
pub fn routes(alloc: Global, p: &Program) -> Result<SiteRoutes, AllocError>
    ensures { IfOk result (λ s. RoutesOf (program_view p.now) (routes_view s.routes) s.callees.items) }
{
    let known = known_of(alloc, p)?;
    let datatypes = shaped_datatypes(alloc, &p.names, &known.datatypes)?;
    let all = entries_of(alloc, p, &known)?;
    Ok(made(datatypes, all))
}

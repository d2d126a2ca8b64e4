//! Programs: what is told of their declarations.
ghost use Rattle.std.specs.Prelude.{◌≡◌, ◌<◌, ◌++◌, ◌∷◌, [], IfOk, OnOk, Some, length, map, slice_get, take};
ghost use Rattle.core_terms.specs.Trees as decl;
ghost use Rattle.core_terms.specs.declared.decl.Constructor.{Constructor};
ghost use Rattle.core_terms.specs.declared.decl.Decl.TheVariants as Decl;
ghost use Rattle.con_terms.specs.View.{con_tree};
ghost use Rattle.core_checker.specs.Declarations as computed;
ghost use Rattle.core_checker.specs.Declarations.{After, AfterVal, AfterVals, ProgramJudges};
ghost use Rattle.core_checker.specs.Declarations.{types_of, with_data, with_tops};
ghost use Rattle.core_checker.specs.View.{IsTop, globals_view};
ghost use Rattle.core_terms.specs.View.{constructor_view, datatype_view, decl_tree, maybe_con, named_list_tree};
ghost use Rattle.core_terms.specs.View.{named_tree, program_view, symbols_view};
ghost use Rattle.core_typing.specs.Declarations.{under_types as under_types_in};
ghost use Rattle.judged_terms.specs.Judge.{Judges};
ghost use Rattle.judgements.specs.View.{judged_tree, sc_view};
ghost use Rattle.judgements.specs.declared.globals.Globals.{Globals};
ghost use Rattle.node_rules.specs.Locals.{none_yet};
ghost use Rattle.node_rules.specs.View.{found_tree};
ghost use Rattle.type_faults.specs.View.{maybe_fault};

use crate::lists::{with_named, with_names};
use crate::terms::{judge, judge_names};
use crate::top::{globals_at_start, top_scope};
use con_terms::{Con, Kind, Sym};
use core_terms::{
    ConDecl, Constructor, Constructors, Datatype, Decl, MOST_NESTED, Named, NamedList, Program,
    Symbols, Thing,
};
use judgements::{Globals, Here, Judged, copied, kind_flaw, under_con, with_locals};
use match_cover::copy_datatype;
use node_rules::{Found, and_then_found, none_yet};
use std::alloc::{AllocError, Global};
use type_faults::{Fault, Twice};

/// What is found where nothing but perhaps a fault is told.
fn told_alone(own: Option<Fault>) -> Found
    ensures { found_tree result ≡ computed.told_alone (maybe_fault own) }
{
    Found {
        found: own.is_none(),
        kids: None,
        own,
    }
}

/// Puts the type of a name behind these.
fn add_type(alloc: Global, tops: &mut Vec<Con>, n: &Named) -> Result<(), AllocError>
    ensures { OnOk result (map con_tree tops.new.items ≡ map con_tree tops.old.items ++ (named_tree n.now).3 ∷ []) }
{
    Ok(tops.push(copied(alloc, &n.con)?)?)
}

/// Puts the type of a name among those of the values.
fn with_type(alloc: Global, g: &mut Globals, n: &Named) -> Result<(), AllocError>
    ensures { OnOk result (globals_view g.new ≡ with_tops ((named_tree n.now).3 ∷ []) (globals_view g.old)) }
{
    add_type(alloc, &mut g.tops, n)
}

/// What is found for the term of a name.
fn judge_named(alloc: Global, g: &Globals, s: &Here, n: &Named) -> Result<Judged, AllocError>
    ensures { IfOk result (λ r. Judges (sc_view g.now s.now) (named_tree n.now).4 (judged_tree r)) }
{
    judge(alloc, g, s, &n.exp, MOST_NESTED)
}

/// `val x : t = e`, whose type then stands among those of the values.
fn with_value(alloc: Global, g: &mut Globals, s: &Here, n: &Named) -> Result<Found, AllocError>
    requires { IsTop (globals_view g.old) s.now }
    ensures after { IfOk result
        (λ r. AfterVal (named_tree n.now) (globals_view g.old) (found_tree r) (globals_view g.new)) }
    ensures top { OnOk result (IsTop (globals_view g.new) s.now) }
{
    let found = judge_named(alloc, g, s, n)?;
    let past = with_named(alloc, g, s, n, found, none_yet())?;
    with_type(alloc, g, n)?;
    Ok(past)
}

/// Puts the types of names that are declared together behind these.
#[tactic(auto, using(crate::proofs::DeclSteps::types_on))]
fn add_types(alloc: Global, tops: &mut Vec<Con>, ns: &NamedList) -> Result<(), AllocError>
    ensures { OnOk result (map con_tree tops.new.items
        ≡ map con_tree tops.old.items ++ types_of (named_list_tree ns.now)) }
{
    for i in 0..ns.items.len() {
        add_type(alloc, tops, &ns.items[i])?;
    }
    Ok(())
}

/// Puts the types of names that are declared together among those of the values.
fn with_types(alloc: Global, g: &mut Globals, ns: &NamedList) -> Result<(), AllocError>
    ensures { OnOk result
        (globals_view g.new ≡ with_tops (types_of (named_list_tree ns.now)) (globals_view g.old)) }
{
    add_types(alloc, &mut g.tops, ns)
}

/// `val rec x : t = e and ..`, whose types stand among those of the values for their own terms too.
fn with_values(
    alloc: Global,
    g: &mut Globals,
    s: &Here,
    ns: &NamedList,
) -> Result<Found, AllocError>
    requires { IsTop (globals_view g.old) s.now }
    ensures after { IfOk result
        (λ r. AfterVals (named_list_tree ns.now) (globals_view g.old) (found_tree r) (globals_view g.new)) }
    ensures top { OnOk result (IsTop (globals_view g.new) s.now) }
{
    with_types(alloc, g, ns)?;
    let found = judge_names(alloc, g, s, ns, MOST_NESTED)?;
    with_names(alloc, g, s, ns, found, none_yet())
}

/// The scope under a datatype's parameters.
#[tactic(auto, using(crate::proofs::DeclSteps::under_on))]
fn under_types(alloc: Global, s: &Here, names: &Symbols) -> Result<Here, AllocError>
    ensures { IfOk result
        (λ r. (g : Globals) → sc_view g r ≡ under_types_in (symbols_view names.now) (sc_view g s.now)) }
{
    let mut here = with_locals(s, s.locals.clone()?)?;
    for i in 0..names.items.len() {
        here = under_con(alloc, &here, names.items[i], &Kind::Types)?;
    }
    Ok(here)
}

/// Whether one of these constructors has this name.
fn is_named(cs: &[Constructor], name: Sym) -> bool
    ensures { result ≡ computed.is_named name.number (map constructor_view cs.now) }
{
    for i in 0..cs.len() {
        if cs[i].name.number == name.number {
            return true;
        }
    }
    false
}

/// What is told where a constructor doesn't hold a type.
fn held_told(
    alloc: Global,
    g: &Globals,
    s: &Here,
    c: &Constructor,
) -> Result<Option<Fault>, AllocError>
    ensures { IfOk result
        (λ o. maybe_fault o ≡ computed.held_told (sc_view g.now s.now) c.now.place (maybe_con c.now.holds)) }
{
    match &c.holds {
        None => Ok(None),
        Some(held) => kind_flaw(alloc, g, s, c.place, held, &Kind::Types),
    }
}

/// What is told of a second constructor of a name.
fn second_told(c: &Constructor, is_second: bool) -> Option<Fault>
    ensures { maybe_fault result ≡ computed.second_told c.now.place c.now.name.number is_second }
{
    if is_second {
        Some(Fault::Redeclared(c.place, Twice::Constructor(c.name)))
    } else {
        None
    }
}

/// What is found for the constructor at a place of a datatype, in the scope under its parameters.
fn constructor_found(
    alloc: Global,
    g: &Globals,
    s: &Here,
    cs: &Constructors,
    i: usize,
) -> Result<Found, AllocError>
    requires { i < length cs.now.items.items }
    ensures { IfOk result (λ r. (c : Constructor) → slice_get cs.now.items.items i ≡ Some c
        → found_tree r ≡ computed.of_constructor (sc_view g.now s.now)
        (map constructor_view (take i cs.now.items.items)) (constructor_view c)) }
{
    let c = &cs.items[i];
    let held = told_alone(held_told(alloc, g, s, c)?);
    let second = told_alone(second_told(c, is_named(&cs.items[..i], c.name)));
    Ok(and_then_found(held, second))
}

/// What is found for the constructors of a datatype, in the scope under its parameters.
#[tactic(auto, using(crate::proofs::DeclSteps::constructors_on, crate::proofs::DeclSteps::constructors_end))]
fn constructors_found(
    alloc: Global,
    g: &Globals,
    s: &Here,
    cs: &Constructors,
) -> Result<Found, AllocError>
    ensures { IfOk result (λ r. found_tree r ≡ computed.constructors_found (sc_view g.now s.now) [] none_yet
        (map constructor_view cs.now.items.items)) }
{
    let mut now = none_yet();
    for i in 0..cs.items.len() {
        let next = constructor_found(alloc, g, s, cs, i)?;
        now = and_then_found(now, next);
    }
    Ok(now)
}

/// Puts a datatype behind those that are declared.
fn add_data(alloc: Global, g: &mut Globals, d: &Datatype) -> Result<(), AllocError>
    ensures { OnOk result (globals_view g.new ≡ with_data (datatype_view d.now) (globals_view g.old)) }
{
    g.datatypes.push(copy_datatype(alloc, d)?)?;
    Ok(())
}

/// What is found for a datatype, which stands in scope.
fn data_found(alloc: Global, g: &Globals, s: &Here, d: &Datatype) -> Result<Found, AllocError>
    requires { IsTop (globals_view g.now) s.now }
    ensures { IfOk result (λ r. found_tree r ≡ computed.of_data (datatype_view d.now) (globals_view g.now)) }
{
    let inner = under_types(alloc, s, &d.parameters)?;
    constructors_found(alloc, g, &inner, &d.constructors)
}

/// A datatype, which then stands in the scope of its own constructors too.
fn with_datatype(
    alloc: Global,
    g: &mut Globals,
    s: &mut Here,
    d: &Datatype,
) -> Result<Found, AllocError>
    ensures after { IfOk result (λ r. After (decl.datatype (datatype_view d.now)) (globals_view g.old) (found_tree r)
        (globals_view g.new)) }
    ensures top { OnOk result (IsTop (globals_view g.new) s.new) }
{
    add_data(alloc, g, d)?;
    *s = top_scope(alloc, g)?;
    data_found(alloc, g, s, d)
}

/// A value without a term, for which there is no rule yet.
fn with_thing(alloc: Global, g: &mut Globals, t: &Thing) -> Result<Found, AllocError>
    ensures { IfOk result (λ r. After (decl_tree (Decl.Thing t.now)) (globals_view g.old) (found_tree r)
        (globals_view g.new)) }
{
    g.tops.push(copied(alloc, &t.con)?)?;
    Ok(told_alone(Some(Fault::NotBuilt(t.place))))
}

/// `con x :: k = c`
fn of_con(alloc: Global, g: &Globals, s: &Here, c: &ConDecl) -> Result<Found, AllocError>
    requires { IsTop (globals_view g.now) s.now }
    ensures { IfOk result (λ r. After (decl_tree (Decl.Con c.now)) (globals_view g.now) (found_tree r)
        (globals_view g.now)) }
{
    Ok(told_alone(kind_flaw(alloc, g, s, c.place, &c.con, &c.kind)?))
}

/// What is found for one more declaration, which then stands in scope.
fn with_decl(alloc: Global, g: &mut Globals, s: &mut Here, d: &Decl) -> Result<Found, AllocError>
    requires { IsTop (globals_view g.old) s.old }
    ensures after { IfOk result
        (λ r. After (decl_tree d.now) (globals_view g.old) (found_tree r) (globals_view g.new)) }
    ensures top { OnOk result (IsTop (globals_view g.new) s.new) }
{
    match d {
        Decl::Val(_, n) => with_value(alloc, g, s, n),
        Decl::ValRec(_, ns) => with_values(alloc, g, s, ns),
        Decl::Con(c) => of_con(alloc, g, s, c),
        Decl::Datatype(d) => with_datatype(alloc, g, s, d),
        Decl::Thing(t) => with_thing(alloc, g, t),
    }
}

/// What is found for the declarations of a program.
#[tactic(auto, using(crate::proofs::DeclSteps::begun, crate::proofs::DeclSteps::decls_on, crate::proofs::DeclSteps::decls_end))]
pub fn declarations_found(alloc: Global, p: &Program) -> Result<Found, AllocError>
    ensures { IfOk result (λ r. ProgramJudges (program_view p.now) (found_tree r)) }
{
    let mut globals = globals_at_start(alloc, p)?;
    let mut here = top_scope(alloc, &globals)?;
    let mut past = none_yet();
    for i in 0..p.decls.items.len() {
        let next = with_decl(alloc, &mut globals, &mut here, &p.decls.items[i])?;
        past = and_then_found(past, next);
    }
    Ok(past)
}

//! Names in declarations, and what these declare.
ghost use Rattle.std.specs.Prelude.{◌≡◌, IfOk, OnOk, map};
ghost use Rattle.core_terms.specs.View.{foreign_view};
ghost use Rattle.plain_tree.specs.ConView.{con_tree};
ghost use Rattle.plain_tree.specs.ExpView as terms;
ghost use Rattle.plain_tree.specs.Trees.{decl_value};
ghost use Rattle.plain_tree.specs.View as view;
ghost use Rattle.source_names.specs.Scopes.{at_top};
ghost use Rattle.source_names.specs.View.{declared_view};
ghost use Rattle.unbound_names.specs.Declarations as declarations;
ghost use Rattle.unbound_names.specs.InScope.{tables_with};
ghost use Rattle.unbound_names.specs.Terms.{unbound_group, unbound_named};
ghost use Rattle.unbound_names.specs.Types as types;
ghost use Rattle.unbound_names.specs.View.{around_view, ask_view};

use crate::around::Around;
use crate::asked::Asked;
use crate::cons::{unbound_con, unbound_maybe};
use crate::terms::{name_of, unbound_group as unbound_in_group, unbound_named as unbound_in_named};
use con_terms::{Con as Meant, Sym};
use core_terms::Foreigns;
use plain_tree::{Builders, Con, Datatype, Decl, Decls, Local, Named, NamedList, Words};
use source_names::Known;
use std::alloc::{AllocError, Global};
use table_rows::Text;

/// Declares a name of the type level.
fn declare_name(alloc: Global, known: &mut Known, name: &Text) -> Result<(), AllocError>
    ensures { OnOk result
        (declared_view known.new ≡ declarations.declare_name name.now (declared_view known.old)) }
{
    known.add_type(alloc, name, &Meant::UnitCon)
}

/// Declares values.
fn declare_values(alloc: Global, known: &mut Known, ns: &[Named]) -> Result<(), AllocError>
    ensures { OnOk result (declared_view known.new ≡ declarations.declare_group
        (terms.named_list_from (map terms.named_tree ns.now)) (declared_view known.old)) }
{
    for i in 0..ns.len() {
        known.add_value(alloc, &ns[i].name.text)?;
    }
    Ok(())
}

/// Declares the values of a group.
fn declare_group(alloc: Global, known: &mut Known, ns: &NamedList) -> Result<(), AllocError>
    ensures { OnOk result (declared_view known.new ≡
        declarations.declare_group (terms.named_list_tree ns.now) (declared_view known.old)) }
{
    declare_values(alloc, known, ns.items.as_slice())
}

/// Declares the constructors of a datatype.
fn declare_builders(alloc: Global, known: &mut Known, bs: &Builders) -> Result<(), AllocError>
    ensures { OnOk result (declared_view known.new ≡
        declarations.declare_builders (view.builders_tree bs.now) (declared_view known.old)) }
{
    for i in 0..bs.items.len() {
        known.add_builder(alloc, &bs.items[i].name.text, Sym { number: 0 }, 0)?;
    }
    Ok(())
}

/// The scope inside of a datatype's parameters.
fn inside_parameters<'p>(
    alloc: Global,
    s: &Around<'p>,
    words: &Words,
) -> Result<Around<'p>, AllocError>
    ensures { IfOk result
        (λ r. around_view r ≡ declarations.under_parameters words.now (around_view s.now)) }
{
    let mut here = s.share()?;
    for i in 0..words.items.len() {
        here = here.under_variable(alloc, &words.items[i].text)?;
    }
    Ok(here)
}

/// Whether the name that is asked of stands in what a datatype holds, and isn't in scope there.
fn unbound_builders(q: &Asked<'_>, s: &Around<'_>, bs: &Builders) -> Result<bool, AllocError>
    ensures { IfOk result (λ b. b ≡
        declarations.unbound_builders (ask_view q.now) (around_view s.now) (view.builders_tree bs.now)) }
{
    for i in 0..bs.items.len() {
        if unbound_maybe(q, s, &bs.items[i].holds)? {
            return Ok(true);
        }
    }
    Ok(false)
}

/// Whether the name that is asked of stands in the declaration of a value, and isn't in scope there.
fn unbound_value(
    q: &Asked<'_>,
    known: &Known,
    effects: &Foreigns,
    n: &Named,
) -> Result<bool, AllocError>
    ensures { IfOk result (λ b. b ≡ unbound_named (ask_view q.now) (at_top
        (tables_with (map foreign_view effects.now.items.items)) (declared_view known.now)) (terms.named_tree n.now)) }
{
    let s = Around::new(q.alloc, known, effects)?;
    unbound_in_named(q, &s, n)
}

/// The same for values that are declared together, where they are declared.
fn unbound_values(
    q: &Asked<'_>,
    known: &Known,
    effects: &Foreigns,
    ns: &NamedList,
) -> Result<bool, AllocError>
    ensures { IfOk result (λ b. b ≡ unbound_group (ask_view q.now) (at_top
        (tables_with (map foreign_view effects.now.items.items)) (declared_view known.now))
        (terms.named_list_tree ns.now)) }
{
    let s = Around::new(q.alloc, known, effects)?;
    unbound_in_group(q, &s, ns)
}

/// The same for a name of the type level.
fn unbound_name(
    q: &Asked<'_>,
    known: &Known,
    effects: &Foreigns,
    c: &Con,
) -> Result<bool, AllocError>
    ensures { IfOk result (λ b. b ≡ types.unbound_con (ask_view q.now) (at_top
        (tables_with (map foreign_view effects.now.items.items)) (declared_view known.now)) (con_tree c.now)) }
{
    let s = Around::new(q.alloc, known, effects)?;
    unbound_con(q, &s, c)
}

/// The same for what a datatype holds, where its name is declared.
fn unbound_datatype(
    q: &Asked<'_>,
    known: &Known,
    effects: &Foreigns,
    x: &Datatype,
) -> Result<bool, AllocError>
    ensures { IfOk result (λ b. b ≡ declarations.unbound_builders (ask_view q.now)
        (declarations.under_parameters x.now.parameters (at_top
        (tables_with (map foreign_view effects.now.items.items)) (declared_view known.now)))
        (view.builders_tree x.now.builders)) }
{
    let s = Around::new(q.alloc, known, effects)?;
    let inner = inside_parameters(q.alloc, &s, &x.parameters)?;
    unbound_builders(q, &inner, &x.builders)
}

/// Declares what a declaration of values does, and tells whether the name that is asked of stands in it, and isn't in
/// scope there.
fn next_local(
    q: &Asked<'_>,
    known: &mut Known,
    effects: &Foreigns,
    l: &Local,
) -> Result<bool, AllocError>
    ensures same { IfOk result (λ b. b ≡ declarations.unbound_decl (ask_view q.now)
        (tables_with (map foreign_view effects.now.items.items)) (declared_view known.old)
        (decl_value (terms.local_tree l.now))) }
    ensures behind { IfOk result (λ b. declared_view known.new
        ≡ declarations.declared_behind (decl_value (terms.local_tree l.now)) (declared_view known.old)) }
{
    match l {
        Local::Val(_, n) => {
            let found = unbound_value(q, known, effects, n)?;
            known.add_value(q.alloc, name_of(n))?;
            Ok(found)
        }
        Local::ValRec(_, ns) => {
            declare_group(q.alloc, known, ns)?;
            unbound_values(q, known, effects, ns)
        }
    }
}

/// The same for a declaration.
fn next_decl(
    q: &Asked<'_>,
    known: &mut Known,
    effects: &Foreigns,
    x: &Decl,
) -> Result<bool, AllocError>
    ensures same { IfOk result (λ b. b ≡ declarations.unbound_decl (ask_view q.now)
        (tables_with (map foreign_view effects.now.items.items)) (declared_view known.old) (view.decl_tree x.now)) }
    ensures behind { IfOk result (λ b. declared_view known.new
        ≡ declarations.declared_behind (view.decl_tree x.now) (declared_view known.old)) }
{
    match x {
        Decl::Value(local) => next_local(q, known, effects, local),
        Decl::Con(named) => {
            let found = unbound_name(q, known, effects, &named.con)?;
            declare_name(q.alloc, known, &named.name.text)?;
            Ok(found)
        }
        Decl::Datatype(datatype) => {
            declare_name(q.alloc, known, &datatype.name.text)?;
            let found = unbound_datatype(q, known, effects, datatype)?;
            declare_builders(q.alloc, known, &datatype.builders)?;
            Ok(found)
        }
        Decl::Table(_) | Decl::Sequence(_, _) | Decl::Cookie(_) => Ok(false),
    }
}

/// Whether the name that is asked of stands in one of these declarations, and isn't in scope there. Each declaration
/// sees those before it.
pub fn unbound_decls(
    q: &Asked<'_>,
    known: Known,
    effects: &Foreigns,
    xs: &Decls,
) -> Result<bool, AllocError>
    ensures { IfOk result (λ b. b ≡ declarations.unbound_decls (ask_view q.now)
        (tables_with (map foreign_view effects.now.items.items)) (declared_view known)
        (view.decls_tree xs.now)) }
{
    let mut known = known;
    for i in 0..xs.items.len() {
        if next_decl(q, &mut known, effects, &xs.items[i])? {
            return Ok(true);
        }
    }
    Ok(false)
}

/// Declares what a declaration does.
fn declare(alloc: Global, known: &mut Known, x: &Decl) -> Result<(), AllocError>
    ensures { OnOk result (declared_view known.new
        ≡ declarations.declared_behind (view.decl_tree x.now) (declared_view known.old)) }
{
    match x {
        Decl::Value(Local::Val(_, n)) => known.add_value(alloc, name_of(n)),
        Decl::Value(Local::ValRec(_, ns)) => declare_group(alloc, known, ns),
        Decl::Con(named) => declare_name(alloc, known, &named.name.text),
        Decl::Datatype(datatype) => {
            declare_name(alloc, known, &datatype.name.text)?;
            declare_builders(alloc, known, &datatype.builders)
        }
        Decl::Table(_) | Decl::Sequence(_, _) | Decl::Cookie(_) => Ok(()),
    }
}

/// Declares what declarations do.
pub fn declare_all(alloc: Global, known: &mut Known, xs: &Decls) -> Result<(), AllocError>
    ensures { OnOk result (declared_view known.new
        ≡ declarations.declared_behind_all (view.decls_tree xs.now) (declared_view known.old)) }
{
    for i in 0..xs.items.len() {
        declare(alloc, known, &xs.items[i])?;
    }
    Ok(())
}

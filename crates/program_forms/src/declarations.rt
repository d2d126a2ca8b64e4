//! The names and literals of declarations.
ghost use Rattle.std.specs.Prelude.{IsTrue};
ghost use Rattle.std.specs.List.{AllByRecursion};
ghost use Rattle.core_terms.specs.Leaves.{AllThere, ConstructorFits, DatatypeFits, DeclFits, NameThere, SortFits};
ghost use Rattle.core_terms.specs.Lists.{columns_view, constructors_view};
ghost use Rattle.core_terms.specs.View.{constructor_view, datatype_view, decl_tree, decls_view, maybe_con};
ghost use Rattle.core_terms.specs.View.{sort_tree, symbols_view};
ghost use Rattle.core_terms.specs.declared.decl.Decl.TheVariants as decl;
ghost use Rattle.program_forms.specs.Columns.{ColumnsThere};

use crate::constructors::names_there;
use crate::terms::{named_fit, named_fits};
use con_terms::Con;
use core_terms::{
    Columns, ConDecl, Constructor, Constructors, Datatype, Decl, Decls, Sort, Symbols, Thing,
};

/// Whether each of the symbols has a text.
fn all_there(count: usize, ss: &Symbols) -> bool
    ensures { IsTrue result → AllThere count (symbols_view ss.now) }
{
    for i in 0..ss.items.len() {
        if (ss.items[i].number as usize) >= count {
            return false;
        }
    }
    true
}

/// Whether each name in what a constructor of a datatype holds is one of so many symbols.
fn name_there(count: usize, c: &Option<Con>) -> bool
    ensures { IsTrue result → NameThere count (maybe_con c.now) }
{
    match c {
        None => true,
        Some(c) => names_there(count, c),
    }
}

/// Whether so is the name of a constructor of a datatype, and each in what it holds.
fn constructor_fits(count: usize, c: &Constructor) -> bool
    ensures { IsTrue result → ConstructorFits count (constructor_view c.now) }
{
    (c.name.number as usize) < count && name_there(count, &c.holds)
}

/// Whether so is each in the constructors of a datatype.
fn constructors_fit(count: usize, cs: &Constructors) -> bool
    ensures { IsTrue result → AllByRecursion (ConstructorFits count) (constructors_view cs.now) }
{
    for i in 0..cs.items.len() {
        if !constructor_fits(count, &cs.items[i]) {
            return false;
        }
    }
    true
}

/// Whether so is each in a datatype.
fn datatype_fits(count: usize, d: &Datatype) -> bool
    ensures { IsTrue result → DatatypeFits count (datatype_view d.now) }
{
    all_there(count, &d.path)
        && (d.name.number as usize) < count
        && (d.symbol.number as usize) < count
        && all_there(count, &d.parameters)
        && constructors_fit(count, &d.constructors)
}

/// Whether so is each of the columns of a key.
fn columns_there(count: usize, cs: &Columns) -> bool
    ensures { IsTrue result → ColumnsThere count (columns_view cs.now) }
{
    for i in 0..cs.items.len() {
        if (cs.items[i].name.number as usize) >= count {
            return false;
        }
    }
    true
}

/// Whether so is each in what a value without a term is.
fn sort_fits(count: usize, s: &Sort) -> bool
    ensures { IsTrue result → SortFits count (sort_tree s.now) }
{
    match s {
        Sort::Table(cs) => columns_there(count, cs),
        Sort::Sequence | Sort::Cookie | Sort::Given => true,
    }
}

/// Whether so is each in a type declaration.
fn con_decl_fits(count: usize, c: &ConDecl) -> bool
    ensures { IsTrue result → DeclFits count (decl_tree (decl.Con c.now)) }
{
    all_there(count, &c.path) && (c.name.number as usize) < count && names_there(count, &c.con)
}

/// Whether so is each in a value without a term.
fn thing_fits(count: usize, t: &Thing) -> bool
    ensures { IsTrue result → DeclFits count (decl_tree (decl.Thing t.now)) }
{
    (t.name.number as usize) < count && sort_fits(count, &t.sort) && names_there(count, &t.con)
}

/// Whether so is each in a declaration.
fn decl_fits(count: usize, d: &Decl) -> bool
    ensures { IsTrue result → DeclFits count (decl_tree d.now) }
{
    match d {
        Decl::Val(_, n) => named_fits(count, n),
        Decl::ValRec(_, ns) => named_fit(count, ns),
        Decl::Con(c) => con_decl_fits(count, c),
        Decl::Datatype(d) => datatype_fits(count, d),
        Decl::Thing(t) => thing_fits(count, t),
    }
}

/// Whether so is each in the declarations.
pub fn decls_fit(count: usize, ds: &Decls) -> bool
    ensures { IsTrue result → AllByRecursion (DeclFits count) (decls_view ds.now) }
{
    for i in 0..ds.items.len() {
        if !decl_fits(count, &ds.items[i]) {
            return false;
        }
    }
    true
}

//! Where the values of a program stand, and how many there are.
ghost use Rattle.std.specs.Prelude.{◌≡◌, ◌<◌, ◌≤◌, ◌∷◌, ◌++◌, [], IsTrue, List, length, map, ℕ};
ghost use Rattle.std.specs.List.{AllByRecursion};
ghost use Rattle.core_terms.specs.View.{decl_tree, decls_view, named_from, named_list_tree, named_tree, symbols_view};
ghost use Rattle.core_typing.specs.Declarations.{named_values, values};
ghost use Rattle.program_forms.specs.Values.{DeclStands, Stands, values_counted};

use core_terms::{Decl, Decls, Named, NamedList, Symbols, Thing};

/// Whether no structure stands around a declaration.
fn is_outside(path: &Symbols) -> bool
    ensures { IsTrue result → symbols_view path.now ≡ [] }
{
    path.items.is_empty()
}

/// Whether a name stands in one of so many modules, and has a text.
fn named_stands(modules: usize, count: usize, n: &Named) -> bool
    ensures { IsTrue result → ((named_tree n.now).0.file < modules) × ((named_tree n.now).1 < count) }
{
    (n.place.file as usize) < modules && (n.name.number as usize) < count
}

/// Whether names that are declared together do so, outside of structures.
fn names_stand(modules: usize, count: usize, ns: &NamedList) -> bool
    ensures { IsTrue result → AllByRecursion (Stands modules count) (named_values [] (named_list_tree ns.now)) }
{
    for i in 0..ns.items.len() {
        if !named_stands(modules, count, &ns.items[i]) {
            return false;
        }
    }
    true
}

/// Whether a value without a term does so.
fn thing_stands(modules: usize, count: usize, t: &Thing) -> bool
    ensures { IsTrue result → (t.now.place.file < modules) × (t.now.name.number < count) }
{
    (t.place.file as usize) < modules && (t.name.number as usize) < count
}

/// Whether the values of a declaration do so.
#[tactic(auto, using(crate::proofs::Standing::rec_stands))]
fn decl_stands(modules: usize, count: usize, d: &Decl) -> bool
    ensures { IsTrue result → DeclStands modules count (decl_tree d.now) }
{
    match d {
        Decl::Val(path, n) => is_outside(path) && named_stands(modules, count, n),
        Decl::ValRec(path, ns) => is_outside(path) && names_stand(modules, count, ns),
        Decl::Con(_) | Decl::Datatype(_) => true,
        Decl::Thing(t) => is_outside(&t.path) && thing_stands(modules, count, t),
    }
}

/// Whether all values stand in one of so many modules, outside of structures, and have names with texts.
pub fn values_stand(modules: usize, count: usize, ds: &Decls) -> bool
    ensures { IsTrue result → AllByRecursion (DeclStands modules count) (decls_view ds.now) }
{
    for i in 0..ds.items.len() {
        if !decl_stands(modules, count, &ds.items[i]) {
            return false;
        }
    }
    true
}

/// The number of some names.
#[tactic(auto, using(crate::proofs::Standing::named_length))]
fn count_some(ns: &[Named]) -> usize
    ensures { (path : List ℕ) → result ≡ length (named_values path (named_from (map named_tree ns.now)) ++ []) }
{
    ns.len()
}

/// The number of names that are declared together.
fn count_named(ns: &NamedList) -> usize
    ensures { (path : List ℕ) → result ≡ length (named_values path (named_list_tree ns.now) ++ []) }
{
    count_some(ns.items.as_slice())
}

/// The number of values of a declaration.
fn values_in(d: &Decl) -> usize
    ensures { result ≡ length (values (decl_tree d.now ∷ [])) }
{
    match d {
        Decl::Val(_, _) | Decl::Thing(_) => 1,
        Decl::ValRec(_, ns) => count_named(ns),
        Decl::Con(_) | Decl::Datatype(_) => 0,
    }
}

/// The number of values, or fewer where so many can't be counted.
pub fn count_values(ds: &Decls) -> usize
    ensures { result ≤ values_counted (decls_view ds.now) }
{
    let mut total: usize = 0;
    for i in 0..ds.items.len() {
        total = total.saturating_add(values_in(&ds.items[i]));
    }
    total
}

/// Whether the numbers are those of values, of which there are so many.
pub fn all_below(numbers: &[u32], count: usize) -> bool
    ensures { IsTrue result → AllByRecursion (λ i. i < count) numbers.now }
{
    for i in 0..numbers.len() {
        if (numbers[i] as usize) >= count {
            return false;
        }
    }
    true
}

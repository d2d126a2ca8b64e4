//! The values that a module exports, in a time that grows with what is declared, and not with its square.
ghost use Rattle.std.specs.Prelude.{◌≡◌, ◌==◌, ◌&&◌, ◌||◌, ◌++◌, ◌∷◌, [], if◌then◌else◌, ℕ, List};
ghost use Rattle.std.specs.Prelude.{bytes_eq, map, not, reverse, IfOk, OnOk};
ghost use Rattle.source_names.specs.View.{value_view};
ghost use Rattle.source_terms.specs.Programs as goal;
ghost use Rattle.source_terms.specs.Selected as selection;

use con_terms::SymTable;
use source_names::KnownValue;
use std::alloc::{AllocError, Global};
use table_rows::{Text, Texts};

/// Whether a table has a text.
fn stands(names: &SymTable, text: &Text) -> bool
    ensures { result ≡ selection.stands names.now text.now }
{
    names.find(text.as_str()).is_some()
}

/// Puts a text into a table.
#[tactic(auto, using(crate::proofs::Selecting::stands_put))]
fn put(names: &mut SymTable, text: &Text) -> Result<(), AllocError>
    ensures { OnOk result ((x : List ℕ) → selection.stands names.new x
        ≡ (bytes_eq text.now x || selection.stands names.old x)) }
{
    names.intern(text.as_str())?;
    Ok(())
}

/// A table of texts.
fn table_of(alloc: Global, texts: &Texts) -> Result<SymTable, AllocError>
    ensures { IfOk result (λ t. (x : List ℕ) → selection.stands t x ≡ goal.is_one_of x texts.now) }
{
    let mut table = SymTable::new(alloc);
    for i in 0..texts.len() {
        put(&mut table, texts.at(i))?;
    }
    Ok(table)
}

/// The names that are exported, where an interface selects some.
fn selected(alloc: Global, exported: &Option<Texts>) -> Result<Option<SymTable>, AllocError>
    ensures { IfOk result (λ o. (x : List ℕ) → selection.is_selected o x ≡ goal.is_exported exported.now x) }
{
    match exported {
        None => Ok(None),
        Some(texts) => {
            let table = table_of(alloc, texts)?;
            Ok(Some(table))
        }
    }
}

/// Whether a name is selected.
fn is_selected(selected: &Option<SymTable>, name: &Text) -> bool
    ensures { result ≡ selection.is_selected selected.now name.now }
{
    match selected {
        None => true,
        Some(table) => stands(table, name),
    }
}

/// Whether a value is one of a module, is selected, and is none of these.
fn is_export(home: usize, selected: &Option<SymTable>, value: &KnownValue, later: &SymTable) -> bool
    ensures { result ≡ selection.is_chosen home selected.now (value_view value.now) later.now }
{
    value.home == home && is_selected(selected, &value.name) && !stands(later, &value.name)
}

/// Adds the number of a value, where the value is exported.
fn number_of(
    home: usize,
    selected: &Option<SymTable>,
    value: &KnownValue,
    later: &SymTable,
    place: usize,
    numbers: &mut Vec<u32>,
) -> Result<(), AllocError>
    ensures { OnOk result (numbers.new.items
        ≡ (if selection.is_chosen home selected.now (value_view value.now) later.now
        then numbers.old.items ++ place ∷ [] else numbers.old.items)) }
{
    if is_export(home, selected, value, later) {
        let Ok(number) = u32::try_from(place) else {
            return Err(AllocError);
        };
        numbers.push(number)?;
    }
    Ok(())
}

/// Puts the name of a value into a table, where it is one of this module.
fn note(home: usize, value: &KnownValue, later: &mut SymTable) -> Result<(), AllocError>
    ensures { OnOk result ((x : List ℕ) → selection.stands later.new x
        ≡ ((value.now.home == home) && bytes_eq value.now.name x || selection.stands later.old x)) }
{
    if value.home == home {
        put(later, &value.name)?;
    }
    Ok(())
}

/// The numbers of the exported values of a module, from the last to the first.
fn exports_back(
    alloc: Global,
    home: usize,
    _exported: &Option<Texts>,
    selected: &Option<SymTable>,
    values: &[KnownValue],
) -> Result<Vec<u32>, AllocError>
    requires { (x : List ℕ) → selection.is_selected selected.now x ≡ goal.is_exported _exported.now x }
    ensures { IfOk result (λ v. reverse v.items ≡ goal.exports_from home _exported.now 0 (map value_view values.now)) }
{
    let mut later = SymTable::new(alloc);
    let mut numbers = Vec::new(alloc);
    for back in 0..values.len() {
        let i = values.len() - 1 - back;
        let value = &values[i];
        number_of(home, selected, value, &later, i, &mut numbers)?;
        note(home, value, &mut later)?;
    }
    Ok(numbers)
}

/// The numbers of the exported values of a module.
pub fn exports_from(
    alloc: Global,
    home: usize,
    exported: &Option<Texts>,
    values: &[KnownValue],
) -> Result<Vec<u32>, AllocError>
    ensures { IfOk result (λ v. v.items ≡ goal.exports_from home exported.now 0 (map value_view values.now)) }
{
    let selected = selected(alloc, exported)?;
    let mut numbers = exports_back(alloc, home, exported, &selected, values)?;
    numbers.reverse();
    Ok(numbers)
}

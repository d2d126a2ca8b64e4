//! The fields of rows.
ghost use Rattle.std.specs.Prelude.{◌≡◌, ◌++◌, IfOk, map};
ghost use Rattle.plain_tree.specs.ConView.{con_field_tree, con_fields_from, con_fields_tree, con_tree, maybe_con};
ghost use Rattle.desugar_values.specs.View.{meaning_tree, meanings_tree};
ghost use Rattle.desugar_types.specs.Rows.{field_at, field_more, field_types, fields_more, row_fields, row_more, row_with, rows_more, types_with, value_or_unit};

use crate::boxes::one_of;
use desugar_values::{Meaning, Meanings, con_of, field_name, group_of};
use plain_tree::{Con, ConField, ConFields, ConForm};
use std::alloc::{AllocError, Global};

/// A field at its name.
fn field_at(name: Con, value: Con) -> ConField
    ensures { con_field_tree result ≡ field_at (con_tree name) (con_tree value) }
{
    ConField {
        at: name.at,
        name,
        value,
    }
}

/// A field's value; without `=` it is `()`, which stands at the name.
fn value_or_unit(name: &Con, value: Option<Con>) -> Con
    ensures { con_tree result ≡ value_or_unit (con_tree name.now) (maybe_con value) }
{
    match value {
        None => Con {
            at: name.at,
            form: ConForm::Unit,
        },
        Some(value) => value,
    }
}

/// `ConRowMore = "," FieldName [ConFieldValue]`
fn row_more(alloc: Global, parts: Meanings) -> ConField
    ensures { con_field_tree result ≡ row_more (meanings_tree parts) }
{
    let mut parts = parts;
    let name = field_name(alloc, parts.second());
    let value = value_or_unit(&name, parts.maybe_con());
    field_at(name, value)
}

/// These fields, and behind them the fields `{ConRowMore}`.
fn rows_more(
    alloc: Global,
    items: Vec<ConField>,
    more: Meanings,
) -> Result<Vec<ConField>, AllocError>
    ensures { IfOk result (λ all.
        map con_field_tree all.items ≡ map con_field_tree items.items ++ rows_more (meanings_tree more)) }
{
    let mut all = items;
    for part in more.into_list() {
        all.push(row_more(alloc, group_of(alloc, part)))?;
    }
    Ok(all)
}

/// A row by its first name, that one's value and `{ConRowMore}`.
pub fn row_with(
    alloc: Global,
    name: Con,
    value: Option<Con>,
    more: Meanings,
) -> Result<ConFields, AllocError>
    ensures { IfOk result (λ row. con_fields_tree row
        ≡ con_fields_from (row_with (con_tree name) (maybe_con value) (meanings_tree more))) }
{
    let value = value_or_unit(&name, value);
    let items = one_of(alloc, field_at(name, value))?;
    let items = rows_more(alloc, items, more)?;
    Ok(ConFields { items })
}

/// `ConRowFields = FieldName [ConFieldValue] {ConRowMore}`
pub fn row_fields(alloc: Global, meaning: Meaning) -> Result<ConFields, AllocError>
    ensures { IfOk result (λ row. con_fields_tree row ≡ con_fields_from (row_fields (meaning_tree meaning))) }
{
    match meaning {
        Meaning::Group(parts) => {
            let mut parts = parts;
            let name = field_name(alloc, parts.take());
            let value = parts.maybe_con();
            row_with(alloc, name, value, parts.several(alloc))
        }
        other => {
            drop(other);
            Ok(ConFields {
                items: Vec::new(alloc),
            })
        }
    }
}

/// `ConFieldMore = "," FieldName ":" Con`
fn field_more(alloc: Global, parts: Meanings) -> ConField
    ensures { con_field_tree result ≡ field_more (meanings_tree parts) }
{
    let mut parts = parts;
    let name = field_name(alloc, parts.second());
    let value = parts.second();
    field_at(name, con_of(value))
}

/// These fields, and behind them the fields `{ConFieldMore}`.
fn fields_more(
    alloc: Global,
    items: Vec<ConField>,
    more: Meanings,
) -> Result<Vec<ConField>, AllocError>
    ensures { IfOk result (λ all.
        map con_field_tree all.items ≡ map con_field_tree items.items ++ fields_more (meanings_tree more)) }
{
    let mut all = items;
    for part in more.into_list() {
        all.push(field_more(alloc, group_of(alloc, part)))?;
    }
    Ok(all)
}

/// `FieldName ":" Con {ConFieldMore}`
fn types_with(alloc: Global, parts: Meanings) -> Result<ConFields, AllocError>
    ensures { IfOk result (λ row. con_fields_tree row ≡ con_fields_from (types_with (meanings_tree parts))) }
{
    let mut parts = parts;
    let name = field_name(alloc, parts.take());
    let value = con_of(parts.second());
    let items = one_of(alloc, field_at(name, value))?;
    let items = fields_more(alloc, items, parts.several(alloc))?;
    Ok(ConFields { items })
}

/// `ConFieldTypes = FieldName ":" Con {ConFieldMore}`
pub fn field_types(alloc: Global, meaning: Meaning) -> Result<ConFields, AllocError>
    ensures { IfOk result (λ row. con_fields_tree row ≡ con_fields_from (field_types (meaning_tree meaning))) }
{
    match meaning {
        Meaning::Group(parts) => types_with(alloc, parts),
        other => {
            drop(other);
            Ok(ConFields {
                items: Vec::new(alloc),
            })
        }
    }
}

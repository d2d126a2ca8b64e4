//! What the rules of record patterns stand for. The fields of a record are gathered from the last to the first; a word
//! `...`, where there is one, stands before them.
ghost use Rattle.std.specs.Prelude.{◌≡◌, [], map, reverse, IfOk};
ghost use Rattle.plain_tree.specs.ConView.{con_tree, pat_field_tree, pat_form_tree};
ghost use Rattle.plain_tree.specs.Trees.{no_pat_fields, pat_rec};
ghost use Rattle.desugar_values.specs.View.{meaning_tree, meanings_tree};
ghost use Rattle.desugar_types.specs.PatRecords.{con_at, field_from, field_named, field_parts, fields_before, gathered, in_braces, pattern_record, record_of, record_with};

use crate::leading::leading;
use crate::patterns::pattern_at;
use desugar_values::{Meaning, Meanings, field_name, group_of};
use plain_tree::{Con, PatField, PatFields, PatForm};
use std::alloc::{AllocError, Global};
use surface_tree::Kind;

/// What a field's name and its pattern stand for.
fn field_parts(alloc: Global, name: Meaning, pat: Meaning) -> Result<Meaning, AllocError>
    ensures { IfOk result (λ m. meaning_tree m ≡ field_parts (meaning_tree name) (meaning_tree pat)) }
{
    let mut parts = Meanings::new(alloc);
    parts.push(name)?;
    parts.push(pat)?;
    Ok(Meaning::Group(parts))
}

/// `FieldName "=" Pat [PatFieldMore]`: the fields from the last to the first.
fn gathered(alloc: Global, parts: Meanings) -> Result<Meanings, AllocError>
    ensures { IfOk result (λ ms. meanings_tree ms ≡ gathered (meanings_tree parts)) }
{
    let mut parts = parts;
    let name = parts.take();
    let pat = parts.second();
    let mut fields = parts.several(alloc);
    fields.push(field_parts(alloc, name, pat)?)?;
    Ok(fields)
}

/// `PatFieldNamed = FieldName "=" Pat [PatFieldMore]`
pub fn field_named(alloc: Global, parts: Meanings) -> Result<Meaning, AllocError>
    ensures { IfOk result (λ m. meaning_tree m ≡ field_named (meanings_tree parts)) }
{
    Ok(Meaning::Several(gathered(alloc, parts)?))
}

/// The byte at which a constructor stands.
fn con_at(con: &Con) -> u32
    ensures { result ≡ con_at (con_tree con.now) }
{
    con.at
}

/// A field, which stands at its name.
fn field_from(alloc: Global, parts: Meanings) -> PatField
    ensures { pat_field_tree result ≡ field_from (meanings_tree parts) }
{
    let mut parts = parts;
    let name = field_name(alloc, parts.take());
    PatField {
        at: con_at(&name),
        name,
        pat: parts.pat(),
    }
}

/// Gathered fields, from the last to the first.
fn fields_back(alloc: Global, fields: Meanings) -> Result<Vec<PatField>, AllocError>
    ensures { IfOk result (λ all. map pat_field_tree (reverse all.items) ≡ fields_before (meanings_tree fields) []) }
{
    let mut items = Vec::new(alloc);
    for part in fields.into_list() {
        items.push(field_from(alloc, group_of(alloc, part)))?;
    }
    Ok(items)
}

/// The record of gathered fields, and whether further ones may stand beside them.
fn record_with(alloc: Global, fields: Meanings, others: bool) -> Result<PatForm, AllocError>
    ensures { IfOk result (λ f. pat_form_tree f ≡ record_with (meanings_tree fields) others) }
{
    let mut items = fields_back(alloc, fields)?;
    items.reverse();
    Ok(PatForm::Rec(PatFields { items }, others))
}

/// The record of gathered fields: further ones may stand beside them where `...` does.
fn record_of(alloc: Global, fields: Meanings) -> Result<PatForm, AllocError>
    ensures { IfOk result (λ f. pat_form_tree f ≡ record_of (meanings_tree fields)) }
{
    let mut fields = fields;
    match leading(&fields) {
        Kind::Ellipsis => {
            fields.skip();
            record_with(alloc, fields, true)
        }
        _ => record_with(alloc, fields, false),
    }
}

/// The record pattern without fields.
fn no_fields(alloc: Global, others: bool) -> PatForm
    ensures { pat_form_tree result ≡ pat_rec no_pat_fields others }
{
    let items = Vec::new(alloc);
    PatForm::Rec(PatFields { items }, others)
}

/// `PatRecordEmpty = "}"`, `PatRecordDots = "," "..." "}"` or
/// `PatRecordFields = FieldName "=" Pat [PatFieldMore] "}"`, behind a brace.
fn in_braces(alloc: Global, rest: Meanings) -> Result<PatForm, AllocError>
    ensures { IfOk result (λ f. pat_form_tree f ≡ in_braces (meanings_tree rest)) }
{
    match leading(&rest) {
        Kind::RightBrace => Ok(no_fields(alloc, false)),
        Kind::Comma => Ok(no_fields(alloc, true)),
        _ => record_of(alloc, gathered(alloc, rest)?),
    }
}

/// `PatRecord = "{" PatRecordRest`
pub fn pattern_record(alloc: Global, parts: Meanings) -> Result<Meaning, AllocError>
    ensures { IfOk result (λ m. meaning_tree m ≡ pattern_record (meanings_tree parts)) }
{
    let mut parts = parts;
    let at = parts.at();
    let form = in_braces(alloc, parts.group(alloc))?;
    pattern_at(alloc, at, form)
}

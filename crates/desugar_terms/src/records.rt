//! Records.
ghost use Rattle.std.specs.Prelude.{◌≡◌, ◌++◌, map, IfOk};
ghost use Rattle.plain_tree.specs.ConView.{con_tree};
ghost use Rattle.plain_tree.specs.ExpView.{exp_tree, field_tree};
ghost use Rattle.desugar_values.specs.Parts.{behind};
ghost use Rattle.desugar_values.specs.View.{meaning_tree, meanings_tree};
ghost use Rattle.desugar_terms.specs.Records.{exp_fields, field_more, field_term, fields_more, maybe_fields, named_field, record_term};

use crate::made::term_at;
use desugar_types::one_of;
use desugar_values::{Meaning, Meanings, field_name, group_of};
use plain_tree::{Con, Exp, Field, Fields, Form};
use std::alloc::{AllocError, Global};

/// A field, which stands at its name.
fn named_field(name: Con, value: Exp) -> Field
    ensures { field_tree result ≡ named_field (con_tree name) (exp_tree value) }
{
    Field {
        at: name.at,
        name,
        value,
    }
}

/// `FieldName "=" Exp`
fn field_term(alloc: Global, parts: &mut Meanings) -> Field
    ensures field { field_tree result ≡ field_term (meanings_tree parts.old) }
    ensures behind { meanings_tree parts.new ≡ behind (behind (behind (meanings_tree parts.old))) }
{
    let name = field_name(alloc, parts.take());
    parts.skip();
    named_field(name, parts.exp())
}

/// `ExpFieldMore = "," FieldName "=" Exp`
fn field_more(alloc: Global, part: Meaning) -> Field
    ensures { field_tree result ≡ field_more (meaning_tree part) }
{
    let mut parts = group_of(alloc, part);
    parts.skip();
    field_term(alloc, &mut parts)
}

/// `{ExpFieldMore}`, behind the fields that stand before it.
fn with_fields(
    alloc: Global,
    before: Vec<Field>,
    several: Meanings,
) -> Result<Vec<Field>, AllocError>
    ensures { IfOk result (λ fields. map field_tree fields.items
        ≡ map field_tree before.items ++ fields_more (meanings_tree several)) }
{
    let mut fields = before;
    for part in several.into_list() {
        fields.push(field_more(alloc, part))?;
    }
    Ok(fields)
}

/// `ExpFields = FieldName "=" Exp {ExpFieldMore}`
fn exp_fields(alloc: Global, parts: Meanings) -> Result<Vec<Field>, AllocError>
    ensures { IfOk result (λ fields. map field_tree fields.items ≡ exp_fields (meanings_tree parts)) }
{
    let mut parts = parts;
    let fields = one_of(alloc, field_term(alloc, &mut parts))?;
    with_fields(alloc, fields, parts.several(alloc))
}

/// `[ExpFields]`
fn maybe_fields(alloc: Global, part: Meaning) -> Result<Vec<Field>, AllocError>
    ensures { IfOk result (λ fields. map field_tree fields.items ≡ maybe_fields (meaning_tree part)) }
{
    match part {
        Meaning::Group(parts) => exp_fields(alloc, parts),
        other => {
            drop(other);
            Ok(Vec::new(alloc))
        }
    }
}

/// `PrimaryRecord = "{" [ExpFields] "}"`
pub fn record_term(alloc: Global, parts: Meanings) -> Result<Meaning, AllocError>
    ensures { IfOk result (λ m. meaning_tree m ≡ record_term (meanings_tree parts)) }
{
    let mut parts = parts;
    let at = parts.at();
    let items = maybe_fields(alloc, parts.take())?;
    term_at(alloc, at, Form::Rec(Fields { items }))
}

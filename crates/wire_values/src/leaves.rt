//! The values of wires without parts.
ghost use Rattle.std.specs.Prelude.{IfOk};
ghost use Rattle.table_rows.specs.Shapes.{an_int, a_text, a_unit, a_truth};
ghost use Rattle.table_rows.specs.Wires.{bare};
ghost use Rattle.table_rows.specs.View.{wire_tree};
ghost use Rattle.run_values.specs.View.{value_tree};
ghost use Rattle.core_meaning.specs.Wired.{Known, HasValue};

use crate::symbols::are_same;
use crate::wires::NoValues;
use run_values::Value;
use table_rows::{Text, Wire};
use type_makers::symbols::BOOL;

/// The value of a number.
pub fn number<'r>(wire: &'r Wire) -> Result<Value<'r>, NoValues>
    ensures { (K : Known) → IfOk result (λ value. HasValue K an_int (wire_tree wire.now) (value_tree value)) }
{
    match wire {
        Wire::Int(number) => Ok(Value::Int(*number)),
        _ => Err(NoValues::Astray),
    }
}

/// The value of a text.
pub fn words<'r>(wire: &'r Wire) -> Result<Value<'r>, NoValues>
    ensures { (K : Known) → IfOk result (λ value. HasValue K a_text (wire_tree wire.now) (value_tree value)) }
{
    match wire {
        Wire::Words(text) => Ok(Value::Words(text.as_str())),
        _ => Err(NoValues::Astray),
    }
}

/// The record without fields.
pub fn unit<'r>(wire: &'r Wire) -> Result<Value<'r>, NoValues>
    ensures { (K : Known) → IfOk result (λ value. HasValue K a_unit (wire_tree wire.now) (value_tree value)) }
{
    match wire {
        Wire::Unit => Ok(Value::Fields(&[])),
        _ => Err(NoValues::Astray),
    }
}

/// The value of a truth.
pub fn truth<'r>(wire: &'r Wire) -> Result<Value<'r>, NoValues>
    ensures { (K : Known) → IfOk result (λ value. HasValue K a_truth (wire_tree wire.now) (value_tree value)) }
{
    match wire {
        Wire::Tagged(name, None) => truth_named(name),
        _ => Err(NoValues::Astray),
    }
}

/// The truth with a name.
fn truth_named<'r>(name: &Text) -> Result<Value<'r>, NoValues>
    ensures { (K : Known) → IfOk result (λ value. HasValue K a_truth (bare name.now) (value_tree value)) }
{
    if are_same(name.as_bytes(), b"True") {
        Ok(Value::Bare(BOOL, 1))
    } else if are_same(name.as_bytes(), b"False") {
        Ok(Value::Bare(BOOL, 0))
    } else {
        Err(NoValues::Astray)
    }
}

//! Records of wires: one field after another.
ghost use Rattle.std.specs.Prelude.{IfOk};
ghost use Rattle.table_rows.specs.Shapes.{a_record, parts_at_arguments};
ghost use Rattle.table_rows.specs.View.{wire_tree, parts_tree};
ghost use Rattle.wire_values.specs.Amid.{LeadsTo, wants};
ghost use Rattle.wire_values.specs.Known.{known_in};
ghost use Rattle.wire_values.specs.Scoped.{scope_shapes, stack_view, amid, filling as in_filling};

use crate::fitting::Fitting;
use crate::frames::{Filling, Frame, Stack, Step};
use crate::scoped::Closed;
use crate::symbols::symbol_of;
use crate::wires::NoValues;
use run_values::Value;
use table_rows::{Parts, Wire};

/// The first field of a record.
pub fn begin_record<'r>(
    fitting: &Fitting<'r>,
    parts: &'r Parts,
    scope: &'r [Closed<'r>],
    wire: &'r Wire,
    stack: &mut Stack<'r>,
) -> Result<Step<'r>, NoValues>
    ensures { IfOk result (λ step. LeadsTo (known_in fitting.now)
        (wants (stack_view stack.old) (a_record (parts_at_arguments (scope_shapes scope.now) (parts_tree parts.now)))
        (wire_tree wire.now))
        (amid step (stack_view stack.new))) }
{
    let Wire::Rec(wires) = wire else {
        return Err(NoValues::Astray);
    };
    let filling = Filling {
        made: Vec::new(fitting.alloc),
        parts: parts.items.as_slice(),
        wires: wires.items.as_slice(),
        scope,
    };
    next_part(fitting, filling, stack)
}

/// The next field of a record, or the record where there is none.
pub fn next_part<'r>(
    fitting: &Fitting<'r>,
    filling: Filling<'r>,
    stack: &mut Stack<'r>,
) -> Result<Step<'r>, NoValues>
    ensures { IfOk result (λ step. LeadsTo (known_in fitting.now)
        (in_filling filling.entry (stack_view stack.old)) (amid step (stack_view stack.new))) }
{
    let Filling {
        made,
        parts,
        wires,
        scope,
    } = filling;
    match parts.split_first() {
        None => match wires.split_first() {
            None => {
                let fields = fitting.region.put_slice(made.as_slice())?;
                Ok(Step::Has(Value::Fields(fields)))
            }
            Some(_) => Err(NoValues::Astray),
        },
        Some((part, parts)) => match wires.split_first() {
            None => Err(NoValues::Astray),
            Some((wire, wires)) => {
                let name = symbol_of(fitting.program, &part.name)?;
                let further = Filling {
                    made,
                    parts,
                    wires,
                    scope,
                };
                stack.push(Frame::Field(further, name))?;
                let shape = &part.shape;
                Ok(Step::Wants(Closed { shape, scope }, wire))
            }
        },
    }
}

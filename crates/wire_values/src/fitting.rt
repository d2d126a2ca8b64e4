//! How a wire fits a shape: what is looked at first, and what waits for the values of its parts.
ghost use Rattle.std.specs.Prelude.{IfOk, ◌∷◌};
ghost use Rattle.table_rows.specs.Shapes.{a_data, all_at_arguments};
ghost use Rattle.table_rows.specs.View.{wire_tree, arguments_tree};
ghost use Rattle.run_values.specs.View.{value_tree};
ghost use Rattle.wire_values.specs.Amid.{LeadsTo, wants, has};
ghost use Rattle.wire_values.specs.Known.{known_in};
ghost use Rattle.wire_values.specs.Scoped.{closed_tree, scope_shapes, frame_view, stack_view, amid, moved_to};

use crate::frames::{Frame, Moved, Stack, Step};
use crate::leaves::{number, truth, unit, words};
use crate::records::{begin_record, next_part};
use crate::scoped::{Closed, entered};
use crate::symbols::{case_named, datatype_symbol};
use crate::wires::NoValues;
use core_terms::Program;
use request_region::Region;
use run_values::{Slot, Value};
use std::alloc::Global;
use table_rows::{Arguments, Datatypes, Shape, Wire};

/// What values are made with.
#[derive(Clone, Copy, Drop)]
pub struct Fitting<'r> {
    pub alloc: Global,
    pub program: &'r Program,
    pub region: &'r Region,
    pub datatypes: &'r Datatypes,
}

/// The next step.
pub fn moved<'r>(
    fitting: &Fitting<'r>,
    step: Step<'r>,
    stack: &mut Stack<'r>,
) -> Result<Moved<'r>, NoValues>
    ensures { IfOk result (λ next. LeadsTo (known_in fitting.now)
        (amid step.entry (stack_view stack.old)) (moved_to next (stack_view stack.new))) }
{
    match step {
        Step::Wants(closed, wire) => Ok(Moved::On(begin(fitting, closed, wire, stack)?)),
        Step::Has(value) => match stack.pop() {
            None => Ok(Moved::Whole(value)),
            Some(frame) => Ok(Moved::On(handed_up(fitting, frame, value, stack)?)),
        },
    }
}

/// The first step for a wire of a shape.
fn begin<'r>(
    fitting: &Fitting<'r>,
    closed: Closed<'r>,
    wire: &'r Wire,
    stack: &mut Stack<'r>,
) -> Result<Step<'r>, NoValues>
    ensures { IfOk result (λ step. LeadsTo (known_in fitting.now)
        (wants (stack_view stack.old) (closed_tree closed.entry) (wire_tree wire.now))
        (amid step (stack_view stack.new))) }
{
    let Closed { shape, scope } = closed;
    match shape {
        Shape::Int => Ok(Step::Has(number(wire)?)),
        Shape::Words => Ok(Step::Has(words(wire)?)),
        Shape::Unit => Ok(Step::Has(unit(wire)?)),
        Shape::Truth => Ok(Step::Has(truth(wire)?)),
        Shape::Rec(parts) => begin_record(fitting, parts, scope, wire, stack),
        Shape::Data(place, arguments) => {
            begin_data(fitting, *place, arguments, scope, wire, stack)
        }
        Shape::Parameter(place) => {
            let place = *place as usize;
            if scope.len() <= place {
                return Err(NoValues::Astray);
            }
            Ok(Step::Wants(scope[place], wire))
        }
    }
}

/// A constructor of the datatype with a number. What it holds is wanted, where it holds something.
fn begin_data<'r>(
    fitting: &Fitting<'r>,
    place: u32,
    arguments: &'r Arguments,
    scope: &'r [Closed<'r>],
    wire: &'r Wire,
    stack: &mut Stack<'r>,
) -> Result<Step<'r>, NoValues>
    ensures { IfOk result (λ step. LeadsTo (known_in fitting.now)
        (wants (stack_view stack.old)
        (a_data place (all_at_arguments (scope_shapes scope.now) (arguments_tree arguments.now))) (wire_tree wire.now))
        (amid step (stack_view stack.new))) }
{
    let Wire::Tagged(name, held) = wire else {
        return Err(NoValues::Astray);
    };
    let number = place as usize;
    if fitting.datatypes.items.len() <= number {
        return Err(NoValues::Astray);
    }
    let symbol = datatype_symbol(&fitting.program.decls, number)?;
    let (index, case) = case_named(&fitting.datatypes.items[number], name)?;
    match &case.holds {
        None => match held {
            None => Ok(Step::Has(Value::Bare(symbol, index))),
            Some(_) => Err(NoValues::Astray),
        },
        Some(shape) => match held {
            None => Err(NoValues::Astray),
            Some(inner) => {
                let scope = entered(fitting.alloc, fitting.region, arguments, scope)?;
                stack.push(Frame::Held(symbol, index))?;
                Ok(Step::Wants(Closed { shape, scope }, inner))
            }
        },
    }
}

/// Hands a value to what waits for it.
fn handed_up<'r>(
    fitting: &Fitting<'r>,
    frame: Frame<'r>,
    value: Value<'r>,
    stack: &mut Stack<'r>,
) -> Result<Step<'r>, NoValues>
    ensures { IfOk result (λ step. LeadsTo (known_in fitting.now)
        (has (frame_view frame.entry ∷ stack_view stack.old) (value_tree value.entry))
        (amid step (stack_view stack.new))) }
{
    match frame {
        Frame::Held(symbol, index) => {
            let held = fitting.region.put_value(value)?;
            Ok(Step::Has(Value::Holding(symbol, index, held)))
        }
        Frame::Field(mut filling, name) => {
            filling.made.push(Slot { name, value })?;
            next_part(fitting, filling, stack)
        }
    }
}

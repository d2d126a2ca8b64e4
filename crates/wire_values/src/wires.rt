//! From wires to values, without recursion.
ghost use Rattle.std.specs.Prelude.{◌≡◌, None, map, IfOk};
ghost use Rattle.table_rows.specs.View.{shape_tree, arguments_tree, wire_tree, wires_tree};
ghost use Rattle.run_values.specs.View.{value_tree};
ghost use Rattle.core_meaning.specs.Wired.{HasValue, AreGiven};
ghost use Rattle.wire_values.specs.Known.{known_by, known_in};

use crate::fitting::{Fitting, moved};
use crate::frames::{Moved, Stack, Step};
use crate::scoped::Closed;
use core_terms::Program;
use request_region::Region;
use run_values::Value;
use std::alloc::{AllocError, AllocFailed, Global};
use table_rows::{Arguments, Datatypes, Shape, Wire, Wires};

/// The most moves for one wire. One of more parts counts as want of memory.
const MOVES: u32 = 10_000_000;

/// Why wires are no values.
#[derive(Drop)]
pub enum NoValues {
    /// One of them hasn't its argument's shape, or they aren't as many as the arguments.
    Astray,
    Memory,
}

impl From<AllocError> for NoValues {
    ghost use Rattle.wire_values.specs.declared.wires.NoValues.TheVariants.{Memory};

    ghost from_gives = { λ _ e. e ≡ Memory };

    fn from(_: AllocError) -> NoValues {
        NoValues::Memory
    }
}

impl<T: Drop> From<AllocFailed<T>> for NoValues {
    ghost use Rattle.wire_values.specs.declared.wires.NoValues.TheVariants.{Memory};

    ghost from_gives = { λ _ e. e ≡ Memory };

    fn from(_: AllocFailed<T>) -> NoValues {
        NoValues::Memory
    }
}

/// The values that wires are, in order, where they have the shapes of arguments in a program. The datatypes are those
/// that every program has, and then the program's own. What is made on the way lies in the region.
pub fn values_of_wires<'r>(
    alloc: Global,
    program: &'r Program,
    region: &'r Region,
    datatypes: &'r Datatypes,
    shapes: &'r Arguments,
    wires: &'r Wires,
) -> Result<Vec<Value<'r>>, NoValues>
    ensures given { IfOk result (λ values. AreGiven (known_by program.now datatypes.now)
        (arguments_tree shapes.now) None (wires_tree wires.now) None (map value_tree values.items)) }
{
    let count = shapes.items.len();
    if wires.items.len() != count {
        return Err(NoValues::Astray);
    }
    let fitting = Fitting {
        alloc,
        program,
        region,
        datatypes,
    };
    let mut values = Vec::new(alloc);
    for i in 0..count {
        values.push(value_of(&fitting, &shapes.items[i], &wires.items[i])?)?;
    }
    Ok(values)
}

/// The value that a wire of a shape is.
fn value_of<'r>(
    fitting: &Fitting<'r>,
    shape: &'r Shape,
    wire: &'r Wire,
) -> Result<Value<'r>, NoValues>
    ensures { IfOk result (λ value. HasValue (known_in fitting.now)
        (shape_tree shape.now) (wire_tree wire.now) (value_tree value)) }
{
    let mut stack = Stack::new(fitting.alloc);
    let scope = fitting.region.put_slice(&[])?;
    let mut step = Step::Wants(Closed { shape, scope }, wire);
    for _ in 0..MOVES {
        match moved(fitting, step, &mut stack)? {
            Moved::On(next) => step = next,
            Moved::Whole(value) => return Ok(value),
        }
    }
    Err(NoValues::Memory)
}

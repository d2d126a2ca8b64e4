//! Values that pieces are read as, from left to right, without recursion: what waits for a value stands on a stack.
ghost use Rattle.std.specs.Prelude.{◌≡◌, ◌∷◌, [], ℕ, List, Some, IfOk, IfErr};
ghost use Rattle.table_rows.specs.Shapes.{an_int, a_text, a_truth, a_record, a_data, parameter, Cases, all_at_arguments, parts_at_arguments};
ghost use Rattle.table_rows.specs.View.{wire_tree, wires_tree, shape_tree, arguments_tree, parts_tree, datatypes_view};
ghost use Rattle.link_router.specs.Reading.{Reads, ReadsAll};
ghost use Rattle.link_router.specs.Amid.{LeadsTo, wants, has};
ghost use Rattle.link_router.specs.Scoped.{closed_tree, scope_shapes, frame_view, stack_view, amid, moved_to, EndsSo, StopsSo, StopsAllSo};

use crate::frames::{Frame, Moved, Stack, Step, Stopped};
use crate::leaves::{case_named, number, truth, words};
use crate::pieces::Pieces;
use crate::scoped::{Closed, entered};
use request_region::Region;
use std::alloc::{AllocError, Global};
use table_rows::{Arguments, Datatypes, Parts, Shape, Text, Wire, Wires};

/// The most steps in which one value is read. That a value has so many parts without a piece of their own counts as
/// want of memory.
const MOST_STEPS: u32 = 1_000_000;

/// Reads a number.
fn read_number(pieces: &mut Pieces) -> Result<Wire, Stopped>
    ensures ok { (D : List Cases) → IfOk result (λ wire. Reads D an_int pieces.old (wire_tree wire) pieces.new) }
    ensures err { (D : List Cases) → IfErr result (λ stopped. StopsSo D an_int pieces.old pieces.new stopped) }
{
    let Some(piece) = pieces.first() else {
        return Err(Stopped::Few);
    };
    match number(piece) {
        Some(read) => {
            pieces.pass();
            Ok(Wire::Int(read))
        }
        None => Err(Stopped::Bad),
    }
}

/// Reads a text.
fn read_words(alloc: Global, pieces: &mut Pieces) -> Result<Wire, Stopped>
    ensures ok { (D : List Cases) → IfOk result (λ wire. Reads D a_text pieces.old (wire_tree wire) pieces.new) }
    ensures err { (D : List Cases) → IfErr result (λ stopped. StopsSo D a_text pieces.old pieces.new stopped) }
{
    let Some(piece) = pieces.first() else {
        return Err(Stopped::Few);
    };
    let read = words(alloc, piece)?;
    match read {
        Some(read) => {
            pieces.pass();
            Ok(Wire::Words(read))
        }
        None => Err(Stopped::Bad),
    }
}

/// Reads a truth value.
fn read_truth(alloc: Global, pieces: &mut Pieces) -> Result<Wire, Stopped>
    ensures ok { (D : List Cases) → IfOk result (λ wire. Reads D a_truth pieces.old (wire_tree wire) pieces.new) }
    ensures err { (D : List Cases) → IfErr result (λ stopped. StopsSo D a_truth pieces.old pieces.new stopped) }
{
    let Some(piece) = pieces.first() else {
        return Err(Stopped::Few);
    };
    match truth(piece) {
        Some(name) => {
            let name = Text::of(alloc, name)?;
            pieces.pass();
            Ok(Wire::Tagged(name, None))
        }
        None => Err(Stopped::Bad),
    }
}

/// Why no value is read for an argument that isn't there.
fn no_argument(pieces: &Pieces) -> Stopped
    ensures { (D : List Cases) (place : ℕ) → StopsSo D (parameter place) pieces.now pieces.now result }
{
    match pieces.first() {
        Some(_) => Stopped::Bad,
        None => Stopped::Few,
    }
}

/// Begins to read a record: its first field is wanted.
fn begin_record<'r>(
    alloc: Global,
    parts: &'r Parts,
    scope: &'r [Closed<'r>],
    stack: &mut Stack<'r>,
) -> Result<Step<'r>, AllocError>
    ensures { (D : List Cases) (ps : List (List ℕ)) → IfOk result (λ step.
        LeadsTo D
        (wants (stack_view stack.old)
        (a_record (parts_at_arguments (scope_shapes scope.now) (parts_tree parts.now))) ps)
        (amid step (stack_view stack.new) ps)) }
{
    match parts.items.as_slice().split_first() {
        None => Ok(Step::Has(Wire::Rec(Wires::new(alloc)))),
        Some((first, others)) => {
            stack.push(Frame::Fields(Wires::new(alloc), others, scope))?;
            let shape = &first.shape;
            Ok(Step::Wants(Closed { shape, scope }))
        }
    }
}

/// Reads a constructor's name. What it holds is wanted then.
fn begin_data<'r>(
    alloc: Global,
    region: &'r Region,
    datatypes: &'r Datatypes,
    place: u32,
    arguments: &'r Arguments,
    scope: &'r [Closed<'r>],
    pieces: &mut Pieces,
    stack: &mut Stack<'r>,
) -> Result<Step<'r>, Stopped>
    ensures ok { IfOk result (λ step. LeadsTo (datatypes_view datatypes.now)
        (wants (stack_view stack.old)
        (a_data place (all_at_arguments (scope_shapes scope.now) (arguments_tree arguments.now))) pieces.old)
        (amid step (stack_view stack.new) pieces.new)) }
    ensures err { IfErr result (λ stopped. StopsSo (datatypes_view datatypes.now)
        (a_data place (all_at_arguments (scope_shapes scope.now) (arguments_tree arguments.now)))
        pieces.old pieces.new stopped) }
{
    let Some(piece) = pieces.first() else {
        return Err(Stopped::Few);
    };
    if datatypes.items.len() <= place as usize {
        return Err(Stopped::Bad);
    }
    let Some(case) = case_named(&datatypes.items[place as usize], piece) else {
        return Err(Stopped::Bad);
    };
    let name = case.name.copy(alloc)?;
    pieces.pass();
    match &case.holds {
        None => Ok(Step::Has(Wire::Tagged(name, None))),
        Some(shape) => {
            let scope = entered(alloc, region, arguments, scope)?;
            stack.push(Frame::Held(name))?;
            Ok(Step::Wants(Closed { shape, scope }))
        }
    }
}

/// Begins to read a value of a shape.
fn begin<'r>(
    alloc: Global,
    region: &'r Region,
    datatypes: &'r Datatypes,
    wanted: Closed<'r>,
    pieces: &mut Pieces,
    stack: &mut Stack<'r>,
) -> Result<Step<'r>, Stopped>
    ensures ok { IfOk result (λ step. LeadsTo (datatypes_view datatypes.now)
        (wants (stack_view stack.old) (closed_tree wanted.entry) pieces.old)
        (amid step (stack_view stack.new) pieces.new)) }
    ensures err { IfErr result (λ stopped. StopsSo (datatypes_view datatypes.now) (closed_tree wanted.entry)
        pieces.old pieces.new stopped) }
{
    let Closed { shape, scope } = wanted;
    match shape {
        Shape::Int => match read_number(pieces) {
            Ok(wire) => Ok(Step::Has(wire)),
            Err(stopped) => Err(stopped),
        },
        Shape::Words => match read_words(alloc, pieces) {
            Ok(wire) => Ok(Step::Has(wire)),
            Err(stopped) => Err(stopped),
        },
        Shape::Unit => Ok(Step::Has(Wire::Unit)),
        Shape::Truth => match read_truth(alloc, pieces) {
            Ok(wire) => Ok(Step::Has(wire)),
            Err(stopped) => Err(stopped),
        },
        Shape::Rec(parts) => Ok(begin_record(alloc, parts, scope, stack)?),
        Shape::Data(place, arguments) => begin_data(
            alloc, region, datatypes, *place, arguments, scope, pieces, stack,
        ),
        Shape::Parameter(place) => {
            let place = *place as usize;
            if scope.len() <= place {
                return Err(no_argument(pieces));
            }
            Ok(Step::Wants(scope[place]))
        }
    }
}

/// Hands a value to what waits for it.
fn handed_up<'r>(
    alloc: Global,
    frame: Frame<'r>,
    wire: Wire,
    stack: &mut Stack<'r>,
) -> Result<Step<'r>, AllocError>
    ensures { (D : List Cases) (ps : List (List ℕ)) → IfOk result (λ step.
        LeadsTo D (has (frame_view frame.entry ∷ stack_view stack.old) (wire_tree wire) ps)
        (amid step (stack_view stack.new) ps)) }
{
    match frame {
        Frame::Held(name) => {
            let held = Box::new(alloc, wire)?;
            Ok(Step::Has(Wire::Tagged(name, Some(held))))
        }
        Frame::Fields(mut done, parts, scope) => {
            done.push(wire)?;
            match parts.split_first() {
                None => Ok(Step::Has(Wire::Rec(done))),
                Some((first, others)) => {
                    stack.push(Frame::Fields(done, others, scope))?;
                    let shape = &first.shape;
                    Ok(Step::Wants(Closed { shape, scope }))
                }
            }
        }
    }
}

/// The next step of a reading.
fn moved<'r>(
    alloc: Global,
    region: &'r Region,
    datatypes: &'r Datatypes,
    step: Step<'r>,
    pieces: &mut Pieces,
    stack: &mut Stack<'r>,
) -> Result<Moved<'r>, Stopped>
    ensures ok { IfOk result (λ next. LeadsTo (datatypes_view datatypes.now)
        (amid step.entry (stack_view stack.old) pieces.old) (moved_to next (stack_view stack.new) pieces.new)) }
    ensures err { IfErr result (λ stopped. EndsSo (datatypes_view datatypes.now)
        (amid step.entry (stack_view stack.old) pieces.old) pieces.new stopped) }
{
    match step {
        Step::Wants(wanted) => match begin(alloc, region, datatypes, wanted, pieces, stack) {
            Ok(next) => Ok(Moved::On(next)),
            Err(stopped) => Err(stopped),
        },
        Step::Has(wire) => match stack.pop() {
            None => Ok(Moved::Whole(wire)),
            Some(frame) => match handed_up(alloc, frame, wire, stack) {
                Ok(next) => Ok(Moved::On(next)),
                Err(AllocError) => Err(Stopped::Memory),
            },
        },
    }
}

/// Reads a value of a shape.
fn read_value<'r>(
    alloc: Global,
    region: &'r Region,
    datatypes: &'r Datatypes,
    shape: &'r Shape,
    pieces: &mut Pieces,
) -> Result<Wire, Stopped>
    ensures ok { IfOk result (λ wire. Reads (datatypes_view datatypes.now) (shape_tree shape.now)
        pieces.old (wire_tree wire) pieces.new) }
    ensures err { IfErr result (λ stopped. StopsSo (datatypes_view datatypes.now) (shape_tree shape.now)
        pieces.old pieces.new stopped) }
{
    let mut stack = Stack::new(alloc);
    let scope = region.put_slice(&[])?;
    let mut step = Step::Wants(Closed { shape, scope });
    for _ in 0..MOST_STEPS {
        match moved(alloc, region, datatypes, step, pieces, &mut stack) {
            Ok(Moved::On(next)) => step = next,
            Ok(Moved::Whole(wire)) => return Ok(wire),
            Err(stopped) => return Err(stopped),
        }
    }
    Err(Stopped::Memory)
}

/// Reads the values of a function's arguments.
pub fn read_arguments(
    alloc: Global,
    datatypes: &Datatypes,
    arguments: &Arguments,
    pieces: &mut Pieces,
) -> Result<Wires, Stopped>
    ensures ok { IfOk result (λ wires. ReadsAll (datatypes_view datatypes.now) (arguments_tree arguments.now)
        pieces.old (wires_tree wires) pieces.new) }
    ensures err { IfErr result (λ stopped. StopsAllSo (datatypes_view datatypes.now) (arguments_tree arguments.now)
        pieces.old pieces.new stopped) }
{
    let region = Region::new(alloc);
    let mut wires = Wires::new(alloc);
    let mut rest = arguments.items.as_slice();
    while let Some((first, others)) = rest.split_first() {
        match read_value(alloc, &region, datatypes, first, pieces) {
            Ok(wire) => wires.push(wire)?,
            Err(stopped) => return Err(stopped),
        }
        rest = others;
    }
    Ok(wires)
}

//! Values as they travel in a link, a form or a cookie.
ghost use Rattle.std.specs.Prelude.{◌≡◌, ◌<◌, ◌++◌, ◌∷◌, [], Some, length, slice_get, IfOk, OnOk, OnErr};
ghost use Rattle.table_rows.specs.View.{wire_tree, wires_tree};

use crate::Text;
use std::alloc::{AllocError, Global};

/// A value without functions: what a link, a form or a cookie can carry. Contracts see it as the
/// tree `wire_tree`.
#[cycle(wire)]
pub enum Wire {
    /// A whole number.
    Int(i64),
    /// A text.
    Words(Text),
    /// The record without fields.
    Unit,
    /// The fields of a record, in the byte order of their names.
    Rec(Wires),
    /// A value of a datatype: its constructor's name, and what it holds.
    Tagged(Text, Option<Box<Wire>>),
}

/// A list of values. Contracts see it as the list `wire_list (wires_tree ..)`.
#[cycle(wire)]
#[derive(Drop)]
pub struct Wires {
    pub items: Vec<Wire>,
}

impl Wires {
    ghost use Rattle.table_rows.specs.Wires.{wire_list};
    ghost use Rattle.table_rows.specs.View.{wire_tree, wires_tree};

    /// The empty list. It allocates nothing.
    pub fn new(alloc: Global) -> Wires
        ensures { wire_list (wires_tree result) ≡ [] }
    {
        Wires {
            items: Vec::new(alloc),
        }
    }

    /// Adds a value at the end. An `Err` changes nothing.
    pub fn push(&mut self, wire: Wire) -> Result<(), AllocError>
        ensures grown { OnOk result (wire_list (wires_tree self.new)
            ≡ wire_list (wires_tree self.old) ++ wire_tree wire ∷ []) }
        ensures kept { OnErr result (wire_list (wires_tree self.new) ≡ wire_list (wires_tree self.old)) }
    {
        Ok(self.items.push(wire)?)
    }

    /// The number of values.
    pub fn len(&self) -> usize
        ensures { result ≡ length (wire_list (wires_tree self.now)) }
    {
        self.items.len()
    }

    /// The value at this place, counted from 0.
    pub fn at(&self, i: usize) -> &Wire
        requires { i < length (wire_list (wires_tree self.now)) }
        ensures { slice_get (wire_list (wires_tree self.now)) i ≡ Some (wire_tree result.now) }
    {
        &self.items[i]
    }
}

impl Wire {
    ghost use Rattle.std.specs.Prelude.{◌≤◌, ◌+◌, map, IfSome};
    ghost use Rattle.table_rows.specs.Weights.{weight, weights, around_weight};
    ghost use Rattle.table_rows.specs.View.{wire_tree};

    /// The fields of the record that stands in a value behind constructors alone. All else is let go.
    fn into_fields(mut self) -> Option<Vec<Wire>>
        ensures { IfSome result (λ fields. weights (map wire_tree fields.items) + 2 ≤ weight (wire_tree self)) }
    {
        loop {
            match self {
                Wire::Int(_) => return None,
                Wire::Words(_) => return None,
                Wire::Unit => return None,
                Wire::Rec(fields) => return Some(fields.items),
                Wire::Tagged(_name, held) => match held {
                    None => return None,
                    Some(inner) => self = Box::into_inner(inner),
                },
            }
        }
    }

    /// A record of these fields, or nothing where there are none.
    fn holding(fields: Option<Vec<Wire>>) -> Wire
        ensures { weight (wire_tree result) ≤ around_weight fields + 2 }
    {
        match fields {
            Some(items) => Wire::Rec(Wires { items }),
            None => Wire::Unit,
        }
    }
}

impl Drop for Wire {
    /// Lets go of a value however deep it is, with neither recursion nor memory: a list of fields that is being
    /// emptied keeps the list around it in the place of the field that was taken from it last.
    fn drop(self) {
        let Some(mut current) = self.into_fields() else {
            return;
        };
        let mut around: Option<Vec<Wire>> = None;
        'upwards: loop {
            'downwards: while let Some(field) = current.pop() {
                if let Some(fields) = field.into_fields() {
                    match current.push(Wire::holding(around)) {
                        Ok(()) => {}
                        Err(_) => unreachable!(),
                    }
                    around = Some(current);
                    current = fields;
                }
            }
            current.destroy_empty();
            let Some(mut outer) = around else {
                return;
            };
            let Some(outermost) = outer.pop() else {
                outer.destroy_empty();
                return;
            };
            around = outermost.into_fields();
            current = outer;
        }
    }
}

/// A copy of a value.
#[cycle(copy_wire)]
pub fn copy_wire(alloc: Global, wire: &Wire) -> Result<Wire, AllocError>
    ensures { IfOk result (λ new. wire_tree new ≡ wire_tree wire.now) }
{
    match wire {
        Wire::Int(number) => Ok(Wire::Int(*number)),
        Wire::Words(text) => Ok(Wire::Words(text.copy(alloc)?)),
        Wire::Unit => Ok(Wire::Unit),
        Wire::Rec(fields) => Ok(Wire::Rec(copy_wires(alloc, fields)?)),
        Wire::Tagged(name, held) => {
            let name = name.copy(alloc)?;
            match held {
                None => Ok(Wire::Tagged(name, None)),
                Some(held) => {
                    let held = Box::new(alloc, copy_wire(alloc, held)?)?;
                    Ok(Wire::Tagged(name, Some(held)))
                }
            }
        }
    }
}

/// A copy of a list of values.
#[cycle(copy_wire)]
pub fn copy_wires(alloc: Global, wires: &Wires) -> Result<Wires, AllocError>
    ensures { IfOk result (λ new. wires_tree new ≡ wires_tree wires.now) }
{
    let mut items = Vec::new(alloc);
    for i in 0..wires.items.len() {
        items.push(copy_wire(alloc, &wires.items[i])?)?;
    }
    Ok(Wires { items })
}

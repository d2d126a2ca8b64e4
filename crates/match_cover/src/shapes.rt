//! Shapes of several values.
ghost use Rattle.std.specs.Prelude.{◌≡◌, ◌∷◌, IfOk, map};
ghost use Rattle.core_typing.specs.Cover.{bare_shape, holding_shape, record_shape};
ghost use Rattle.match_cover.specs.Misses.{behind_fields, zipped};
ghost use Rattle.match_cover.specs.View.{part_view, shapes_view};
ghost use Rattle.type_faults.specs.View.{shape_tree, shapes_from};

use crate::seen::Part;
use con_terms::{Sym, copy_con};
use std::alloc::{AllocError, Global};
use type_faults::{Shape, ShapeField, ShapeFields};

/// Shapes, one a column.
#[cycle(shapes)]
#[derive(Drop)]
pub enum Shapes {
    End,
    More(Box<Shape>, Box<Shapes>),
}

/// The shape of a record, and those of the columns behind it.
#[derive(Drop)]
pub struct Gathered {
    pub shape: Shape,
    pub rest: Shapes,
}

/// The shape of a constructor that holds nothing.
pub fn bare(d: Sym, j: u32) -> Shape
    ensures { shape_tree result ≡ bare_shape d.number j }
{
    Shape::Bare(d, j)
}

/// The shape of a constructor with what it holds.
pub fn holding(alloc: Global, d: Sym, j: u32, held: Shape) -> Result<Shape, AllocError>
    ensures { IfOk result (λ s. shape_tree s ≡ holding_shape d.number j (shape_tree held)) }
{
    Ok(Shape::Holding(d, j, Box::new(alloc, held)?))
}

/// Shapes behind a further one.
pub fn shape_before(alloc: Global, s: Shape, rest: Shapes) -> Result<Shapes, AllocError>
    ensures { IfOk result (λ new. shapes_view new ≡ shape_tree s ∷ shapes_view rest) }
{
    let first = Box::new(alloc, s)?;
    Ok(Shapes::More(first, Box::new(alloc, rest)?))
}

/// The record with the first shapes as its fields. Fewer shapes than fields count as want of memory.
pub fn gather(alloc: Global, fields: &Vec<Part>, shapes: Shapes) -> Result<Gathered, AllocError>
    ensures record { IfOk result (λ g. shape_tree g.shape ≡
        record_shape (shapes_from (zipped (map part_view fields.now.items) (shapes_view shapes)))) }
    ensures rest { IfOk result (λ g. shapes_view g.rest ≡
        behind_fields (map part_view fields.now.items) (shapes_view shapes)) }
{
    let mut items = Vec::new(alloc);
    let mut rest = shapes;
    for i in 0..fields.len() {
        match rest {
            Shapes::End => return Err(AllocError),
            Shapes::More(shape, more) => {
                let name = copy_con(alloc, &fields[i].name)?;
                let shape = Box::into_inner(shape);
                items.push(ShapeField { name, shape })?;
                rest = Box::into_inner(more);
            }
        }
    }
    let shape = Shape::Record(ShapeFields { items });
    Ok(Gathered { shape, rest })
}

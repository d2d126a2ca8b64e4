//! Shapes with the arguments that they are taken at.
ghost use Rattle.std.specs.Prelude.{◌≡◌, IfOk};
ghost use Rattle.table_rows.specs.Shapes.{all_at_arguments};
ghost use Rattle.table_rows.specs.View.{arguments_tree, shape_tree};
ghost use Rattle.link_router.specs.Scoped.{closed_tree, shape_in, scope_shapes};

use request_region::Region;
use std::alloc::{AllocError, Global};
use table_rows::{Arguments, Shape};

/// A shape, and what the parameters in it stand for. So the arguments of a datatype are never put into its
/// constructors: each is named where it is wanted.
#[derive(Clone, Copy, Drop)]
pub struct Closed<'r> {
    pub shape: &'r Shape,
    pub scope: &'r [Closed<'r>],
}

/// The same shape, named by what a parameter stands for as long as it is one.
pub fn resolved<'r>(wanted: Closed<'r>) -> Closed<'r>
    ensures { closed_tree result ≡ closed_tree wanted.entry }
{
    let mut named = wanted;
    while let Shape::Parameter(place) = named.shape {
        let place = *place as usize;
        if named.scope.len() <= place {
            return named;
        }
        named = named.scope[place];
    }
    named
}

/// What the parameters of a datatype stand for at these arguments.
pub fn entered<'r>(
    alloc: Global,
    region: &'r Region,
    arguments: &'r Arguments,
    scope: &'r [Closed<'r>],
) -> Result<&'r [Closed<'r>], AllocError>
    ensures { IfOk result (λ inner. scope_shapes inner.now
        ≡ all_at_arguments (scope_shapes scope.now) (arguments_tree arguments.now)) }
{
    let mut inner = Vec::new(alloc);
    for i in 0..arguments.items.len() {
        let shape = &arguments.items[i];
        inner.push(resolved(Closed { shape, scope }))?;
    }
    region.put_slice(inner.as_slice())
}

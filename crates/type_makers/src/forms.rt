//! Constructors and kinds put together from their parts.
ghost use Rattle.std.specs.Prelude.{◌≡◌, IfOk};
ghost use Rattle.con_terms.specs.Equal.{mapped as mapped_row};
ghost use Rattle.con_terms.specs.Trees as tree;
ghost use Rattle.con_terms.specs.View.{con_tree, kind_tree};

use crate::made;
use con_terms::{Con, Kind, Pair};
use std::alloc::{AllocError, Global};

/// `from -> to`
pub fn arrow(alloc: Global, from: Con, to: Con) -> Result<Con, AllocError>
    ensures { IfOk result (λ new. con_tree new ≡ tree.arrow (con_tree from) (con_tree to)) }
{
    made::arrow(alloc, Ok(from), Ok(to))
}

/// `x :: kind -> body`, or `x ::: kind -> body` where it is implicit
pub fn poly(alloc: Global, implicit: bool, kind: Kind, body: Con) -> Result<Con, AllocError>
    ensures { IfOk result (λ new. con_tree new ≡ tree.poly implicit (kind_tree kind) (con_tree body)) }
{
    made::poly(alloc, implicit, Ok(kind), Ok(body))
}

/// `[left ~ right] => body`
pub fn guarded(alloc: Global, left: Con, right: Con, body: Con) -> Result<Con, AllocError>
    ensures { IfOk result (λ new. con_tree new ≡ tree.guarded (con_tree left) (con_tree right) (con_tree body)) }
{
    made::guarded(alloc, Ok(left), Ok(right), Ok(body))
}

/// `$row`
pub fn record(alloc: Global, row: Con) -> Result<Con, AllocError>
    ensures { IfOk result (λ new. con_tree new ≡ tree.record_of (con_tree row)) }
{
    made::record(alloc, Ok(row))
}

/// `function argument`
pub fn applied(alloc: Global, function: Con, argument: Con) -> Result<Con, AllocError>
    ensures { IfOk result (λ new. con_tree new ≡ tree.app (con_tree function) (con_tree argument)) }
{
    made::applied(alloc, Ok(function), Ok(argument))
}

/// `left ++ right`
pub fn joined(alloc: Global, left: Con, right: Con) -> Result<Con, AllocError>
    ensures { IfOk result (λ new. con_tree new ≡ tree.cat (con_tree left) (con_tree right)) }
{
    made::joined(alloc, Ok(left), Ok(right))
}

/// `fn x :: kind => body`
pub fn lambda(alloc: Global, kind: Kind, body: Con) -> Result<Con, AllocError>
    ensures { IfOk result (λ new. con_tree new ≡ tree.lambda (kind_tree kind) (con_tree body)) }
{
    made::lambda(alloc, Ok(kind), Ok(body))
}

/// `map function row`, where the function takes the first kind to the second
pub fn mapped(
    alloc: Global,
    from: Kind,
    to: Kind,
    function: Con,
    row: Con,
) -> Result<Con, AllocError>
    ensures { IfOk result (λ new. con_tree new ≡
        mapped_row (kind_tree from) (kind_tree to) (con_tree function) (con_tree row)) }
{
    let map = made::map_of(alloc, Ok(from), Ok(to));
    let at_function = made::applied(alloc, map, Ok(function));
    made::applied(alloc, at_function, Ok(row))
}

/// `[]`, whose values would have this kind
pub fn empty_row(alloc: Global, kind: Kind) -> Result<Con, AllocError>
    ensures { IfOk result (λ new. con_tree new ≡ tree.row (kind_tree kind) tree.no_pairs) }
{
    made::empty_row(alloc, Ok(kind))
}

/// `[name = value]`, where the value has this kind
pub fn field_row(alloc: Global, kind: Kind, name: Con, value: Con) -> Result<Con, AllocError>
    ensures { IfOk result (λ new. con_tree new ≡
        tree.row (kind_tree kind) (tree.pair (con_tree name) (con_tree value) tree.no_pairs)) }
{
    made::field_row(alloc, Ok(kind), Ok(name), Ok(value))
}

/// `[first = value, second = other]`, where the values have this kind
pub fn two_field_row(
    alloc: Global,
    kind: Kind,
    first: Pair,
    second: Pair,
) -> Result<Con, AllocError>
    ensures { IfOk result (λ new. con_tree new ≡ tree.row (kind_tree kind)
        (tree.pair (con_tree first.name) (con_tree first.value) (tree.pair (con_tree second.name)
        (con_tree second.value) tree.no_pairs))) }
{
    made::two_field_row(alloc, Ok(kind), Ok(first), Ok(second))
}

/// `{kind}`
pub fn row_kind(alloc: Global, kind: Kind) -> Result<Kind, AllocError>
    ensures { IfOk result (λ new. kind_tree new ≡ tree.row_of (kind_tree kind)) }
{
    made::row_kind(alloc, Ok(kind))
}

/// `from -> to`
pub fn arrow_kind(alloc: Global, from: Kind, to: Kind) -> Result<Kind, AllocError>
    ensures { IfOk result (λ new. kind_tree new ≡ tree.to (kind_tree from) (kind_tree to)) }
{
    made::arrow_kind(alloc, Ok(from), Ok(to))
}

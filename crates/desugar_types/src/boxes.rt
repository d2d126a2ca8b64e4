//! Values on the heap, lists of one or two, and results that are wanted together. A function that wants several results
//! has `both` make one of them, since what a `?` lets go beside it is proved anew wherever the `?` stands.
ghost use Rattle.std.specs.Prelude.{◌≡◌, ◌∷◌, [], IfOk, Result};
ghost use Rattle.con_terms.specs.View.{kind_tree};
ghost use Rattle.plain_tree.specs.ConView.{con_tree};

use con_terms::Kind;
use plain_tree::Con;
use std::alloc::{AllocError, Global};

/// A constructor on the heap.
pub fn boxed_con(alloc: Global, con: Con) -> Result<Box<Con>, AllocError>
    ensures { IfOk result (λ b. con_tree b.value ≡ con_tree con) }
{
    Ok(Box::new(alloc, con)?)
}

/// A kind on the heap.
pub fn boxed_kind(alloc: Global, kind: Kind) -> Result<Box<Kind>, AllocError>
    ensures { IfOk result (λ b. kind_tree b.value ≡ kind_tree kind) }
{
    Ok(Box::new(alloc, kind)?)
}

/// Both values, where both are there.
pub fn both<A: Drop, B: Drop>(
    one: Result<A, AllocError>,
    other: Result<B, AllocError>,
) -> Result<(A, B), AllocError>
    ensures one { IfOk result (λ p. one ≡ Result.Ok p.0) }
    ensures other { IfOk result (λ p. other ≡ Result.Ok p.1) }
{
    Ok((one?, other?))
}

/// The list of this value.
pub fn one_of<T: Drop>(alloc: Global, one: T) -> Result<Vec<T>, AllocError>
    ensures { IfOk result (λ all. all.items ≡ one ∷ []) }
{
    let mut all = Vec::new(alloc);
    all.push(one)?;
    Ok(all)
}

/// The list of these two values.
pub fn two_of<T: Drop>(alloc: Global, one: T, other: T) -> Result<Vec<T>, AllocError>
    ensures { IfOk result (λ all. all.items ≡ one ∷ other ∷ []) }
{
    let mut all = Vec::new(alloc);
    all.push(one)?;
    all.push(other)?;
    Ok(all)
}

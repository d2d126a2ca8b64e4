//! What can be wrong with a constructor, wherever it stands, and what is found where nothing is.

ghost use Rattle.std.specs.Prelude.{◌≡◌, IfOk};
ghost use Rattle.con_terms.specs.Trees.{lambda};
ghost use Rattle.con_terms.specs.View.{con_tree, kind_tree};
ghost use Rattle.kind_rules.specs.Rules.{both as found_both, expects as expected, unless as found_unless, unlike};
ghost use Rattle.kind_rules.specs.Flaws.{closed_by as flaw_closed_by, kinds_differ};
ghost use Rattle.kind_rules.specs.View.{flaw_tree, found, maybe_flaw, two_trees};

use con_terms::{Con, Kind, Sym, copy_kind, same_kind};
use disjoint_prover::fault::Pieces;
use std::alloc::{AllocError, Global};

/// What is wrong with a constructor.
#[derive(Drop)]
pub enum Flaw {
    /// A variable with this number isn't bound.
    Variable(u32),
    /// A basic name has no kind.
    Basic(Sym),
    /// Two kinds differ.
    Differ(Box<Differing>),
    /// Two pieces of rows are not known to be apart. Each is closed by the binders of the constructor under which they
    /// touch, as `fn x :: k => piece`, the outermost binder outside. A piece of rows is never itself a function.
    Touch(Box<Pieces>),
    /// A comparison takes too many units, or a constructor is too deep.
    TooLarge,
}

/// Two kinds that differ: what was wanted, and what was found.
#[derive(Drop)]
pub struct Differing {
    pub wanted: Kind,
    pub found: Kind,
}

/// The kinds that are found for two parts.
#[derive(Drop)]
pub struct Two {
    pub first: Kind,
    pub second: Kind,
}

/// What is found for two parts.
pub fn both(first: Result<Kind, Flaw>, second: Result<Kind, Flaw>) -> Result<Two, Flaw>
    ensures { found two_trees result ≡ found_both (found kind_tree first) (found kind_tree second) }
{
    let first = first?;
    let second = second?;
    Ok(Two { first, second })
}

/// The kind, unless there is a flaw.
pub fn unless(flaw: Option<Flaw>, kind: Kind) -> Result<Kind, Flaw>
    ensures { found kind_tree result ≡ found_unless (maybe_flaw flaw) (kind_tree kind) }
{
    match flaw {
        Some(flaw) => Err(flaw),
        None => Ok(kind),
    }
}

/// The flaw that a kind is found where another one is wanted.
pub fn mismatch(alloc: Global, wanted: Kind, kind: Kind) -> Result<Flaw, AllocError>
    ensures { IfOk result (λ flaw. flaw_tree flaw ≡ kinds_differ (kind_tree wanted) (kind_tree kind)) }
{
    let differing = Differing {
        wanted,
        found: kind,
    };
    Ok(Flaw::Differ(Box::new(alloc, differing)?))
}

/// The flaw that a kind isn't the one that is wanted.
pub fn compared(alloc: Global, wanted: &Kind, kind: &Kind) -> Result<Option<Flaw>, AllocError>
    ensures { IfOk result (λ o. maybe_flaw o ≡ unlike (kind_tree wanted.now) (kind_tree kind.now)) }
{
    if same_kind(wanted, kind) {
        return Ok(None);
    }
    let wanted = copy_kind(alloc, wanted)?;
    let kind = copy_kind(alloc, kind)?;
    Ok(Some(mismatch(alloc, wanted, kind)?))
}

/// The kind that is found, where it is the one that is wanted.
pub fn expects(alloc: Global, wanted: &Kind, kind: Kind) -> Result<Result<Kind, Flaw>, AllocError>
    ensures { IfOk result (λ r. found kind_tree r ≡ expected (kind_tree wanted.now) (kind_tree kind)) }
{
    let flaw = compared(alloc, wanted, &kind)?;
    Ok(unless(flaw, kind))
}

/// The function of what a binder of this kind binds, whose body this is.
fn function_of(alloc: Global, k: &Kind, body: Con) -> Result<Con, AllocError>
    ensures { IfOk result (λ new. con_tree new ≡ lambda (kind_tree k.now) (con_tree body)) }
{
    let kind = Box::new(alloc, copy_kind(alloc, k)?)?;
    let body = Box::new(alloc, body)?;
    Ok(Con::Lambda(kind, body))
}

/// Two pieces that touch under a binder of this kind, closed by it.
fn closed_pieces(alloc: Global, k: &Kind, pieces: Pieces) -> Result<Pieces, AllocError>
    ensures left { IfOk result (λ new. con_tree new.left ≡ lambda (kind_tree k.now) (con_tree pieces.left)) }
    ensures right { IfOk result (λ new. con_tree new.right ≡ lambda (kind_tree k.now) (con_tree pieces.right)) }
{
    let Pieces { left, right } = pieces;
    let left = function_of(alloc, k, left)?;
    let right = function_of(alloc, k, right)?;
    Ok(Pieces { left, right })
}

/// A flaw found under a binder of this kind, as it is told outside of it.
pub fn closed_by(alloc: Global, k: &Kind, flaw: Flaw) -> Result<Flaw, AllocError>
    ensures { IfOk result (λ new. flaw_tree new ≡ flaw_closed_by (kind_tree k.now) (flaw_tree flaw)) }
{
    match flaw {
        Flaw::Touch(pieces) => {
            let closed = closed_pieces(alloc, k, Box::into_inner(pieces))?;
            Ok(Flaw::Touch(Box::new(alloc, closed)?))
        }
        other => Ok(other),
    }
}

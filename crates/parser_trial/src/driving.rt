//! Drives the readers of markup and of queries: the engine reads what they leave.
ghost use Rattle.std.specs.Prelude.{◌≡◌, ◌+◌, ℕ, length, IfOk};
ghost use Rattle.surface_grammar.specs.declared.form.Form.TheVariants as f;
ghost use Rattle.surface_grammar.specs.declared.part.Part.TheVariants.{Many, One};
ghost use Rattle.grammar_engine.specs.Reads.{Reads};
ghost use Rattle.hole_reader.specs.Holes.{form_of};
ghost use Rattle.hole_reader.specs.Readers.{most};

use grammar_engine::{Reading, Stop, read_part};
use hole_reader::form_of;
use markup_parser::Markup;
use query_parser::SqlText;
use std::alloc::Global;
use surface_grammar::{Hole, ParseFault, Part, Step, Tree};
use surface_tree::Tokens;

/// A tree, and the place of the token behind it.
#[derive(Drop)]
pub struct Found {
    pub tree: Tree,
    pub behind: u32,
}

/// What the engine read, with a place of 32 bits.
fn narrowed(read: Reading) -> Result<Found, ParseFault>
    ensures { IfOk result (λ found. (found.tree ≡ read.tree) × (found.behind ≡ read.behind)) }
{
    match u32::try_from(read.behind) {
        Ok(behind) => Ok(Found {
            tree: read.tree,
            behind,
        }),
        Err(_) => Err(ParseFault::Memory),
    }
}

/// The tree that fills the hole, by the engine.
fn filling_of(
    alloc: Global,
    tokens: &Tokens,
    hole: Hole,
    place: u32,
    depth: u32,
) -> Result<Found, ParseFault>
    ensures reads { IfOk result
        (λ found. (room : ℕ) → room + depth ≡ most
        → Reads tokens.now.items (One (form_of hole)) place room found.tree found.behind) }
    ensures place { IfOk result (λ found. found.behind ≡ place + length found.tree.leaves) }
{
    match read_part(
        alloc,
        tokens,
        Part::One(form_of(hole)),
        place as usize,
        u64::MAX - u64::from(depth),
        2,
    ) {
        Ok(read) => narrowed(read),
        Err(Stop::Refused(_)) => Err(ParseFault::Syntax { at: tokens.end() }),
        Err(Stop::Memory) => Err(ParseFault::Memory),
    }
}

/// The nodes that begin at the place.
pub fn markup_of(alloc: Global, tokens: &Tokens, at: u32) -> Result<Found, ParseFault>
    ensures { IfOk result (λ found. Reads tokens.now.items (Many f.Node) at most found.tree found.behind) }
{
    let mut reader = Markup::new(alloc, at, 0);
    for _ in 0..tokens.len().saturating_add(1) {
        match reader.step(tokens)? {
            Step::Done(tree, behind) => return Ok(Found { tree, behind }),
            Step::Wants(hole, place, depth) => {
                let found = filling_of(alloc, tokens, hole, place, depth)?;
                reader.fill(found.tree, found.behind);
            }
        }
    }
    Err(ParseFault::Memory)
}

/// The query that begins at the place.
pub fn query_of(alloc: Global, tokens: &Tokens, at: u32) -> Result<Found, ParseFault>
    ensures { IfOk result (λ found. Reads tokens.now.items (One f.Sql) at most found.tree found.behind) }
{
    let mut reader = SqlText::new(alloc, at, 0);
    for _ in 0..tokens.len().saturating_add(1) {
        match reader.step(tokens)? {
            Step::Done(tree, behind) => return Ok(Found { tree, behind }),
            Step::Wants(hole, place, depth) => {
                let found = filling_of(alloc, tokens, hole, place, depth)?;
                reader.fill(found.tree, found.behind);
            }
        }
    }
    Err(ParseFault::Memory)
}

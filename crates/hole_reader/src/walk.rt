//! Reading from one hole to the next.
ghost use Rattle.std.specs.Prelude.{List, IfOk, IfErr};
ghost use Rattle.surface_grammar.specs.Listings.{Listing};
ghost use Rattle.grammar_engine.specs.declared.want.Want.{Want};
ghost use Rattle.hole_reader.specs.Progress.{Comes, ComesTo, IsHole, still};
ghost use Rattle.hole_reader.specs.Refuses.{StopsAt};

use crate::holes::{Asked, hole_of};
use crate::moves::meet;
use grammar_engine::{Machine, Stop};
use std::alloc::Global;
use surface_tree::Tokens;

/// Meets all that is to be read before the next hole, and takes that from what is to be read. At the end there is none.
pub fn read_on(machine: &mut Machine, alloc: Global, tokens: &Tokens) -> Result<Option<Asked>, Stop>
    ensures comes { (first : Want) (handed : List Listing)
        → ComesTo tokens.now.items first handed machine.old
        → IfOk result
        (λ asked. Comes tokens.now.items first handed machine.new.at machine.new.far machine.new.tree
        (still asked machine.new.wants)) }
    ensures stops { (first : Want) (handed : List Listing)
        → ComesTo tokens.now.items first handed machine.old
        → IfErr result (StopsAt tokens.now.items first handed) }
    ensures hole { IfOk result IsHole }
{
    while let Some(want) = machine.wants.pop() {
        match hole_of(want.part) {
            Some(hole) => return Ok(Some(Asked { hole, want })),
            None => {}
        }
        meet(machine, alloc, tokens, want)?;
    }
    Ok(None)
}

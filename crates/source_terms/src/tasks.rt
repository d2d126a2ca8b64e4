//! Terms that are still to be compared. They wait in a list, so that the depth of terms takes no stack.
ghost use Rattle.std.specs.Prelude.{◌≡◌, ◌&&◌, OnOk};
ghost use Rattle.core_terms.specs.Strip.{strip};
ghost use Rattle.core_terms.specs.View.{exp_tree};
ghost use Rattle.plain_tree.specs.ExpView as plain;
ghost use Rattle.source_names.specs.View.{scope_view};
ghost use Rattle.source_terms.specs.Leaves.{form_of};
ghost use Rattle.source_terms.specs.Tasks.{all_read};
ghost use Rattle.source_terms.specs.Terms.{reads_term};

use crate::scopes::share;
use core_terms::Exp;
use source_names::Here;
use std::alloc::AllocError;

/// A term that is to be compared with one of the source, in a scope.
#[derive(Drop)]
pub struct Task<'a, 'p> {
    pub here: Here<'p>,
    pub source: &'a plain_tree::Exp,
    pub term: &'a Exp,
}

/// Adds a task.
#[tactic(auto, using(crate::proofs::Tasking::all_push))]
pub fn ask<'a, 'p>(
    tasks: &mut Vec<Task<'a, 'p>>,
    s: &Here<'p>,
    source: &'a plain_tree::Exp,
    term: &'a Exp,
) -> Result<(), AllocError>
    ensures { OnOk result (all_read tasks.new.items
        ≡ (reads_term (scope_view s.now) (plain.exp_tree source.now) (form_of (strip (exp_tree term.now)))
        && all_read tasks.old.items)) }
{
    let here = share(s)?;
    tasks.push(Task { here, source, term })?;
    Ok(())
}

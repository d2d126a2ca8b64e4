//! Laws of refusals. Their functions do nothing.
ghost use Rattle.ur_parser.specs.Sources.{ModulesAreNotRefused, ModulesHaveOneFault};

use grammar_engine::{one_refusal, trees_are_not_refused};

/// Tokens that are those of no module have one fault.
pub fn modules_have_one_fault()
    ensures { ModulesHaveOneFault }
{
    one_refusal();
}

/// Tokens of a module have no fault but want of memory.
pub fn modules_are_not_refused()
    ensures { ModulesAreNotRefused }
{
    trees_are_not_refused();
}

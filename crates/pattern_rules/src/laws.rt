//! Laws of what is computed for patterns.
ghost use Rattle.pattern_rules.specs.Laws.{BoundIsFound, SilentIsCovered};

/// What a pattern is computed to bind is what it is found to bind: so it has that type.
pub fn what_is_bound_is_found()
    ensures { BoundIsFound }
{}

/// Patterns of which nothing is computed to be told cover the type.
pub fn what_is_silent_is_covered()
    ensures { SilentIsCovered }
{}

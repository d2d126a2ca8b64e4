//! The laws of names that aren't in scope, and of sources.
ghost use Rattle.bound_sources.specs.Examples.{ExamplesAreWorked};
ghost use Rattle.bound_sources.specs.Laws.{UnboundIsNoSource};

/// Modules in which a name stands where it isn't in scope are the source of no program. So what is refused for an
/// unbound name has none.
pub fn unbound_is_no_source()
    ensures { UnboundIsNoSource }
{}

/// There are modules with an unbound name, and modules that are a program's source.
pub fn examples_are_worked()
    ensures { ExamplesAreWorked }
{}

//! Laws of kinds. Each function does nothing; its contract holds of all constructors.

ghost use Rattle.kind_rules.specs.Laws.{EqualGuardKeepsKind, FoundIsKinded, KindIsFound, OneKindOnly};

/// A constructor has one kind only.
pub fn one_kind_only()
    ensures { OneKindOnly }
{}

/// A constructor keeps its kind where the sides of a guard are replaced by equal ones.
pub fn equal_guard_keeps_kind()
    ensures { EqualGuardKeepsKind }
{}

/// A constructor has the kind that is found for it.
pub fn found_is_kinded()
    ensures { FoundIsKinded }
{}

/// Where a constructor has a kind, this kind is found; or two rows are not known to be apart, and what is told of
/// them has
/// its cause in the constructor.
pub fn kind_is_found()
    ensures { KindIsFound }
{}

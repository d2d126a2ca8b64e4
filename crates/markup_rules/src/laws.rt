//! The law of this crate.
ghost use Rattle.markup_rules.specs.Laws.{MarkupIsFound};

/// An element and a literal for which a type and no fault is computed have that type, where the same holds of their
/// terms.
pub fn markup_is_found()
    ensures { MarkupIsFound }
{}

//! The laws of values, of their shapes, and of patterns that cover.
ghost use Rattle.shaped_values.specs.Examples.{ExamplesAreValues};
ghost use Rattle.shaped_values.specs.Laws.{CoveringCasesTakeABranch, EachValueHasAShape, LiteralNamesHold, LiteralPatternsNeedNoSteps, NormalNamesHold, PatternsTakeWhatShapesSay};

/// Each value of a type has one of the type's shapes, down to each depth.
pub fn each_value_has_a_shape()
    ensures { EachValueHasAShape }
{}

/// A pattern takes a value where it takes the value's shape, and else doesn't take it, if the steps suffice.
pub fn patterns_take_what_shapes_say()
    ensures { PatternsTakeWhatShapesSay }
{}

/// Branches whose patterns cover take each value of the type, if the steps suffice for matching.
pub fn covering_cases_take_a_branch()
    ensures { CoveringCasesTakeABranch }
{}

/// Steps suffice for matching a pattern whose names are literals.
pub fn literal_patterns_need_no_steps()
    ensures { LiteralPatternsNeedNoSteps }
{}

/// The names of fields in a pattern hold where they are in normal form.
pub fn normal_names_hold()
    ensures { NormalNamesHold }
{}

/// The names of fields in a pattern hold where they are literals.
pub fn literal_names_hold()
    ensures { LiteralNamesHold }
{}

/// Values that types have, worked out.
pub fn examples_are_values()
    ensures { ExamplesAreValues }
{}

//! Examples of typing and of told faults that the definitions decide.
ghost use Rattle.core_typing.specs.ExampleProgram.{ClashOfProgramIsTold, OnePageIsAccepted, SequenceIsTold};
ghost use Rattle.core_typing.specs.ExampleTypings.{GuardHoldsByAssumption, MapOfMapIsTyped, MoreFieldsMismatch, SameNamesClash, NoneIsMissed, FieldsAtNamesAreCovered, GenericActionIsNotCarried, GenericLinkIsNotCarried, ContextIsKinded};

/// A call whose guard holds by an assumption is typed.
pub fn a_guard_holds_by_assumption()
    ensures { GuardHoldsByAssumption }
{}

/// A map of a map is the map of one function after the other.
pub fn a_map_of_a_map_is_typed()
    ensures { MapOfMapIsTyped }
{}

/// A record with more fields than the written type is told as a mismatch, with both sides.
pub fn more_fields_are_a_mismatch()
    ensures { MoreFieldsMismatch }
{}

/// `{A = 1} ++ {A = 2}` is told not to be disjoint, with its two labels.
pub fn same_names_clash()
    ensures { SameNamesClash }
{}

/// So it is in `val x = {A = 1} ++ {A = 2}`, at byte 8, whatever type stands for the one that isn't written.
pub fn the_clash_of_a_program_is_told()
    ensures { ClashOfProgramIsTold }
{}

/// `sequence s` is told not to be built.
pub fn a_sequence_is_told()
    ensures { SequenceIsTold }
{}

/// `case o of Some n => n` is told to miss `None`.
pub fn none_is_missed()
    ensures { NoneIsMissed }
{}

/// `{nm = None, ...}` and `{nm = Some _, ...}` take every `$([nm = option int] ++ r)`.
pub fn fields_at_names_are_covered()
    ensures { FieldsAtNamesAreCovered }
{}

/// A link and an action of functions with a constructor parameter are told not to be serialisable, and an element
/// tells what isn't bound in the row of its place.
pub fn what_elements_break_is_told()
    ensures link { GenericLinkIsNotCarried }
    ensures action { GenericActionIsNotCarried }
    ensures context { ContextIsKinded }
{}

/// A program of one value that returns one page is accepted.
pub fn one_page_is_accepted()
    ensures { OnePageIsAccepted }
{}

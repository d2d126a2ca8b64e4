//! Laws of typing: exchange, substitution, kinds, what is found, what is told.
ghost use Rattle.core_typing.specs.TypingLaws.{AskingLess, EqualTypesExchange, FoundAskingLess, FoundIsTyped, OneListIsBound, OneTypeIsFound, OnlyNodesAskNoGuard, PlainNodesFillNothing, TypingsStay};
ghost use Rattle.core_typing.specs.FaultLaws.{FoundOrFails, FoundTellsNothing, ProgramSidesDiffer, ToldSidesDiffer};
ghost use Rattle.core_typing.specs.FoundProgram.{FoundIsAccepted, FoundIsClear};
ghost use Rattle.core_typing.specs.KindLaws.{BasisHasKinds, ConstructorsSubstitute, EtaKeepsKinds, KindsStayUnderBinders, KindsStayUnderGuards, KindsSubstitute, ReducedKeepsKinds, StepsKeepKinds};
ghost use Rattle.core_typing.specs.ConLaws.{AcceptedScopesHaveTypes, ConstructorsSubstituteInTerms, TypesHaveKindType, TypingsStayUnderBinders, TypingsSubstitute};
ghost use Rattle.core_typing.specs.ScopeLaws.{DeclarationsSeeWhatIsBefore};
ghost use Rattle.core_typing.specs.SiteLaws.{NoEntryBeginsAnother, OneCallOfAccepted, OneSiteOfAccepted};

/// A type may be replaced by an equal one.
pub fn equal_types_exchange()
    ensures { EqualTypesExchange }
{}

/// A type that is found for a term by comparing normal forms is a type of it.
pub fn a_typing_by_normal_forms_is_a_typing()
    ensures { FoundIsTyped }
{}

/// A type that is found with more asked of cover is found with less.
pub fn a_found_type_asks_less()
    ensures { FoundAskingLess }
{}

/// A term is found to have one type at most, and a pattern to bind one list of types.
pub fn one_type_is_found()
    ensures one_type { OneTypeIsFound }
    ensures one_list { OneListIsBound }
{}

/// Nodes that fill no field are found and fill none, however many stand one after another.
pub fn plain_nodes_fill_nothing()
    ensures { PlainNodesFillNothing }
{}

/// A typing that asks more of patterns and of exchanged types is one that asks less.
pub fn a_typing_asks_less()
    ensures { AskingLess }
{}

/// A constructor has its kind under further binders.
pub fn kinds_stay_under_more_binders()
    ensures { KindsStayUnderBinders }
{}

/// A constructor has its kind where more guards are assumed.
pub fn kinds_stay_under_more_guards()
    ensures { KindsStayUnderGuards }
{}

/// A constructor may be put for a binder of its kind, anywhere among the binders.
pub fn constructors_substitute()
    ensures { ConstructorsSubstitute }
{}

/// A constructor may be put for the innermost binder, which has its kind.
pub fn kinds_substitute()
    ensures { KindsSubstitute }
{}

/// A typing stays in a larger scope: with more guards, variables, values, folders and effects.
pub fn a_typing_stays_in_a_larger_scope()
    ensures { TypingsStay }
{}

/// Of an accepted program at most one call has a path.
pub fn one_call_of_an_accepted_program()
    ensures { OneCallOfAccepted }
{}

/// A mismatch that a term tells keeps two sides that differ, of types and of kinds.
pub fn told_sides_differ()
    ensures { ToldSidesDiffer }
{}

/// A mismatch that a program tells keeps two sides that differ.
pub fn told_sides_of_programs_differ()
    ensures { ProgramSidesDiffer }
{}

/// A term that is found with cover has no fault, neither itself nor in a part.
pub fn what_is_found_tells_nothing()
    ensures { FoundTellsNothing }
{}

/// A program whose declarations are found by normal forms is accepted, and tells no fault.
pub fn what_is_found_is_accepted()
    ensures accepted { FoundIsAccepted }
    ensures clear { FoundIsClear }
{}

/// Where cover and links are decided, a term is found with cover or has a fault: no premise fails untold.
pub fn what_is_not_found_has_a_fault()
    ensures { FoundOrFails }
{}

/// A typing stays under further constructor binders, with nothing asked or with kinds of exchanged types.
pub fn typings_stay_under_more_binders()
    ensures { TypingsStayUnderBinders }
{}

/// A constructor may be put for a binder of its kind in a term and its type, anywhere among the binders.
pub fn constructors_substitute_in_terms()
    ensures { ConstructorsSubstituteInTerms }
{}

/// The body of a function of a constructor is typed with a constructor put for its binder.
pub fn typings_substitute()
    ensures { TypingsSubstitute }
{}

/// The type of a typed term has kind Type, where each type that another is exchanged for has it.
pub fn types_have_kind_type()
    ensures { TypesHaveKindType }
{}

/// The scopes of an accepted program have types for what stands at the top.
pub fn accepted_scopes_have_types()
    ensures { AcceptedScopesHaveTypes }
{}

/// An accepted program has one list of routes at most.
pub fn one_site_of_an_accepted_program()
    ensures { OneSiteOfAccepted }
{}

/// The values of the basis have types, and its types their kinds.
pub fn the_basis_has_its_kinds()
    ensures { BasisHasKinds }
{}

/// A step of reduction keeps a constructor's kind.
pub fn steps_keep_kinds()
    ensures { StepsKeepKinds }
{}

/// Removing eta redexes keeps a constructor's kind.
pub fn eta_keeps_kinds()
    ensures { EtaKeepsKinds }
{}

/// What reduction leaves at last, without eta redexes, has the kind of what it comes from.
pub fn reduced_constructors_keep_kinds()
    ensures { ReducedKeepsKinds }
{}

/// An only node is asked for no guard, whatever it and the nodes before it fill.
pub fn an_only_node_asks_no_guard()
    ensures { OnlyNodesAskNoGuard }
{}

/// No entry's name begins another's: of the pieces of a path, those that name the entry are told.
pub fn no_entry_begins_another()
    ensures { NoEntryBeginsAnother }
{}

/// A declaration sees what is declared before it, and no more.
pub fn declarations_see_what_is_before()
    ensures { DeclarationsSeeWhatIsBefore }
{}

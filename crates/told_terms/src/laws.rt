//! The laws of what is told of terms.
ghost use Rattle.core_typing.specs.FaultLaws.{CoverIsDecided, LinksAreDecided};
ghost use Rattle.told_terms.specs.Laws.{IsFoundOrFails, JudgedIsTold, SilentIsFound};

/// What is judged of a term is its type, and the fault that is told of it.
pub fn judged_is_told()
    ensures told { JudgedIsTold }
{}

/// Patterns cover a type, or a shape that they miss, or the type's size, is told of them.
pub fn cover_is_decided()
    ensures { CoverIsDecided }
{}

/// An attribute is a link, or an action, whose arguments travel, or it isn't.
pub fn links_are_decided()
    ensures { LinksAreDecided }
{}

/// A term is found with cover, or it has a fault; one of which nothing is told is found with cover.
pub fn each_term_is_found_or_fails()
    ensures found { IsFoundOrFails }
    ensures silent { SilentIsFound }
{}

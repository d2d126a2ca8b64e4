//! The laws of what is found for terms.
ghost use Rattle.judged_terms.specs.Laws.{DeclaredIsFound, JudgedIsFound, JudgedIsTyped, NamesAreFound};

/// A term for which a type and no fault is told is found with that type, with cover, and so has it.
pub fn judged_is_found()
    ensures found { JudgedIsFound }
    ensures typed { JudgedIsTyped }
{}

/// Declarations of which all are found, and of which nothing is told, are found by the rules.
pub fn declared_are_found()
    ensures one { DeclaredIsFound }
    ensures together { NamesAreFound }
{}

//! Laws of the type level. Each function does nothing; its contract holds of all constructors.

ghost use Rattle.con_terms.specs.Laws.{ShiftKeepsEqual, SubstitutionKeepsEqual, SubstitutionsSwap, SymbolsAreTexts};

/// Of two substitutions, the outer may go first.
pub fn substitutions_swap()
    ensures { SubstitutionsSwap }
{}

/// A shift keeps equality.
pub fn shift_keeps_equal()
    ensures { ShiftKeepsEqual }
{}

/// A substitution keeps equality, of its argument and of its body.
pub fn substitution_keeps_equal()
    ensures { SubstitutionKeepsEqual }
{}

/// Two symbols of a table are equal exactly where their texts are: the texts are distinct (`SymTable::count`).
pub fn symbols_are_texts()
    ensures { SymbolsAreTexts }
{}

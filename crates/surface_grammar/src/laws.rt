//! What holds of the table, stated by a function that does nothing.
ghost use Rattle.surface_grammar.specs.Firsts.{WordsAreComputed};

/// The words that begin a form are those that its rules give, however many trees lie within each other.
pub fn words_are_computed()
    ensures { WordsAreComputed }
{}

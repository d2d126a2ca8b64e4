//! Laws of the computed answers.
ghost use Rattle.match_cover.specs.Laws.{LevelsTell, MissesAnswer};
ghost use Rattle.match_cover.specs.Why.{SilentCovers};

/// What the computed answer says of patterns and a type is so: each shape is taken, or this one is missed.
pub fn the_computed_answer_is_so()
    ensures { MissesAnswer }
{}

/// Whether a type or that of a part is too large is told level by level.
pub fn levels_tell_what_is_too_large()
    ensures { LevelsTell }
{}

/// Patterns of which nothing is computed to be told cover the type.
pub fn silence_is_cover()
    ensures { SilentCovers }
{}

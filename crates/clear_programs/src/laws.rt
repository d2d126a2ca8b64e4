//! The laws of programs of which no fault is told.
ghost use Rattle.clear_programs.specs.Laws.{ClearIsAccepted, NothingFailsUntold};

/// No premise fails in a program of which no fault is told.
pub fn nothing_fails_untold()
    ensures { NothingFailsUntold }
{}

/// A formed program of which no fault is told is accepted.
pub fn clear_is_accepted()
    ensures { ClearIsAccepted }
{}

//! What holds of every world of passes, whatever they do, and of each step that a cell takes.
ghost use Rattle.commit_cell.specs.World.{EveryWorldKeepsItsFacts};
ghost use Rattle.commit_cell.specs.StepEvents.{TakingLooks, GivingCommits, GivingLeaves, MarkingLeaves, CuttingSeats, DrawingEnters, JoiningJoins};

use crate::replays::Replays;

/// Every list of events, by any passes in any order, leaves a world in which the numbers of live passes and all
/// gathered numbers differ, the history's entries with a live pass's number are its own, in the order of their
/// serials, those with a gathered number are the list that was gathered with it, and a number not given yet has no
/// entry.
pub fn worlds_keep_their_facts<S: Replays>()
    ensures { EveryWorldKeepsItsFacts S.number S.serial }
{}

/// Each kind of step of the cell's table moves the world that the table shows by an event, or leaves it: taking the
/// turn is a look, giving it back with an entry is a commit, a split is a place and then a pass that enters there, a
/// join is a join.
pub fn steps_are_events<S: Replays>()
    ensures take { TakingLooks S S.Entry S.number S.serial }
    ensures give_entry { GivingCommits S S.Entry S.number S.serial }
    ensures give_back { GivingLeaves S S.Entry S.number S.serial }
    ensures mark { MarkingLeaves S S.Entry S.number S.serial }
    ensures cut { CuttingSeats S S.Entry S.number S.serial }
    ensures draw { DrawingEnters S S.Entry S.number S.serial }
    ensures join { JoiningJoins S S.Entry S.number S.serial }
{}

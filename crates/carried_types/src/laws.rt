//! What the computed answers mean, where the marks are those of what links carry.
ghost use Rattle.carried_types.specs.Laws.{CarriedIsCarried, FilledIsFilled, ShownIsShown, SentIsSent};

/// What is told to be carried is so.
#[tactic(auto, using(crate::proofs::Marks::carried_is_carried))]
pub fn what_is_carried()
    ensures { CarriedIsCarried }
{}

/// A form fills exactly the types that are told to be filled.
#[tactic(auto, using(crate::proofs::Shown::filled_is_filled))]
pub fn what_is_filled()
    ensures { FilledIsFilled }
{}

/// What is told to give a page does.
#[tactic(auto, using(crate::proofs::Shown::shown_is_shown))]
pub fn what_is_shown()
    ensures { ShownIsShown }
{}

/// What is told to take a form and give a page does.
#[tactic(auto, using(crate::proofs::Shown::sent_is_sent))]
pub fn what_is_sent()
    ensures { SentIsSent }
{}

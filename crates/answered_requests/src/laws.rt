//! The laws of answers: at each number of steps a request of an accepted program has one at least, with its routes.
ghost use Rattle.answered_requests.specs.Laws.{EachRequestIsAnswered, NoRequestIsWithoutAnswer, RoutesAreNotMissing};

/// Each request of an accepted program, with the program's routes, has an answer within each number of steps.
pub fn each_request_is_answered()
    ensures { EachRequestIsAnswered }
{}

/// No program is without routes.
pub fn routes_are_not_missing()
    ensures { RoutesAreNotMissing }
{}

/// No request of an accepted program is without an answer.
pub fn no_request_is_without_answer()
    ensures { NoRequestIsWithoutAnswer }
{}

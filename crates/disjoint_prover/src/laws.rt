//! Laws of disjointness. Each function does nothing; its contract holds of all rows.

ghost use Rattle.disjoint_prover.specs.Laws.{KeptApartIsSeparated, NoneTouch, TouchIsTheFirst};

/// The pair of pieces that is computed is the first that nothing keeps apart.
pub fn touch_is_the_first()
    ensures { TouchIsTheFirst }
{}

/// No pair is computed exactly where all pieces are kept apart.
pub fn none_touch()
    ensures { NoneTouch }
{}

/// What is kept apart is separated.
pub fn kept_apart_is_separated()
    ensures { KeptApartIsSeparated }
{}

//! The order of places.
ghost use Rattle.std.specs.Prelude.{◌↔◌, IsTrue};
ghost use Rattle.core_typing.specs.Faults.{Earlier};

use con_terms::Place;

/// Whether a place stands before another: by file, and then by byte.
pub fn stands_before(place: Place, other: Place) -> bool
    ensures { IsTrue result ↔ Earlier place other }
{
    if place.file < other.file {
        true
    } else if other.file < place.file {
        false
    } else {
        place.at < other.at
    }
}

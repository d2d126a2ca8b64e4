//! Where faults stand, and which of two is told.
ghost use Rattle.std.specs.Prelude.{◌≡◌};
ghost use Rattle.core_typing.specs.Faults.{at};
ghost use Rattle.told_faults.specs.Computed.{first as first_in, sooner as sooner_in};
ghost use Rattle.type_faults.specs.View.{fault_tree, maybe_fault};

use crate::fault::Fault;
use con_terms::Place;

/// Where a fault stands.
pub fn place_of(f: &Fault) -> Place
    ensures { result ≡ at (fault_tree f.now) }
{
    match f {
        Fault::Unbound(p, _) => *p,
        Fault::KindMismatch(p, _) => *p,
        Fault::Mismatch(p, _, _) => *p,
        Fault::NotDisjoint(p, _, _) => *p,
        Fault::Inexhaustive(p, _, _) => *p,
        Fault::Redeclared(p, _) => *p,
        Fault::LinkNotCall(p) => *p,
        Fault::NotSerialisable(p) => *p,
        Fault::TooLarge(p) => *p,
        Fault::NotBuilt(p) => *p,
    }
}

/// Whether a place stands before another: by file, and then by byte.
fn sooner(p: Place, q: Place) -> bool
    ensures { result ≡ sooner_in p q }
{
    if p.file < q.file {
        true
    } else if q.file < p.file {
        false
    } else {
        p.at < q.at
    }
}

/// The earlier of two faults; of two at one place the first.
pub fn first(k: Option<Fault>, l: Option<Fault>) -> Option<Fault>
    ensures { maybe_fault result ≡ first_in (maybe_fault k) (maybe_fault l) }
{
    match k {
        None => l,
        Some(f) => match l {
            None => Some(f),
            Some(g) => {
                if sooner(place_of(&g), place_of(&f)) {
                    Some(g)
                } else {
                    Some(f)
                }
            }
        },
    }
}

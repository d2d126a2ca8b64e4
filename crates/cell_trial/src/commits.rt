//! One commit: take the turn, and give it back with an entry where there is room.
ghost use Rattle.std.specs.Prelude.{◌≡◌, ◌++◌, ◌∷◌, [], MatchBool, length};
ghost use Rattle.commit_cell.specs.History.{StartsWith};
ghost use Rattle.commit_cell.specs.Words.{IsFreeOf, number, seen, mine, gathered, opening};

use crate::counter::{Counter, Entry};
use commit_cell::{Cell, Pass};
use std::sync::Wait;

/// Adds the amount, and says whether it did: there may be no memory for the entry, or no room in the total.
pub fn commit<R: Wait>(rt: &R, cell: &Cell<Counter>, pass: &mut Pass<Counter>, amount: u64) -> bool
    requires { IsFreeOf cell.now pass.old }
    ensures free { IsFreeOf cell.now pass.new }
    ensures seen { StartsWith (seen pass.new) (seen pass.old) }
    ensures same { (number pass.new ≡ number pass.old) × (gathered pass.new ≡ gathered pass.old)
        × (opening pass.new ≡ opening pass.old) }
    ensures mine { MatchBool result (mine pass.new
        ≡ mine pass.old ++ record {
          number = number pass.old;
          serial = length
              (mine pass.old);
          amount = amount;
        } ∷ []) (mine pass.new ≡ mine pass.old) }
{
    let mut turn = cell.take(rt, pass);
    let has_room = turn.value().has_room(amount);
    if pass.made() == u64::MAX || !has_room {
        cell.give_back(turn, pass);
        return false;
    }
    let entry = Entry {
        number: pass.number(),
        serial: pass.made(),
        amount,
    };
    if turn.value_mut().add(entry).is_err() {
        cell.give_back(turn, pass);
        return false;
    }
    cell.give_entry(turn, pass, &entry);
    true
}

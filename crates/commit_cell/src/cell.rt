//! The shared value, and what is done with it.
ghost use Rattle.std.specs.Prelude.{◌≡◌, ◌≢◌, ◌+◌, ◌<◌, ◌^◌, [], ◌∷◌, ◌++◌, length, IfOk, IfErr, IfSome, IfNone, MatchBool, true, is_some, Some};
ghost use Rattle.commit_cell.specs.History.{StartsWith};
ghost use Rattle.commit_cell.specs.World.{newcomer, joined, committed};
ghost use Rattle.commit_cell.specs.Rule.{from, numbered, given_back, history_after, HasValue, HoldsTurn, IsNextOf, IsUnnumbered};

use crate::pass::{Pass, Place};
use crate::replays::Replays;
use crate::steps::{Both, Compare, Cut, Draw, Give, Gives, Rule, Take};
use crate::turn::Turn;
use crate::view::View;
use atomic_table::{Refused, Table};
use std::alloc::Global;
use std::hint::spin_loop;
use std::marker::Brand;
use std::snapshot::Snapshot;
use std::sync::Wait;

/// How often the turn is looked at before a thread sleeps for it.
const LOOKS: u32 = 100;

/// The turn's word: free, taken, or taken while others may sleep for it.
const FREE: u64 = 0;

const TAKEN: u64 = 1;

const CROWDED: u64 = 2;

/// The shared value.
#[derive(Drop)]
pub struct Cell<S: Replays> {
    given: u32,
    table: Table<Option<S>, View<S, S::Entry>, Snapshot<S>, Rule<S>, Global>,
    ghost sized: { (table.shared.table_id.words ≡ 2) × (table.shared.table_id.slots ≡ 1) },
}

/// Who asks for the turn: one that has not slept for it, or one that sleeps where it isn't free, and leaves word of
/// that.
#[derive(Clone, Copy)]
enum Asker {
    Passes,
    Sleeps,
}

/// There was no memory for a cell, and here is the value.
#[derive(Drop)]
pub struct NotStarted<S> {
    pub value: S,
}

impl<S: Replays> Cell<S> {
    ghost use Rattle.commit_cell.specs.Words.{given, IsSameCell, IsOf, IsFreeOf, HasTurn, HasNoTurn, IsTurnOf, known, seen, mine, opening, StandsFor, MayGive, TakesTurn, StaysFree, Closes, value_of};

    /// Shares the value, and gives the first pass, which has number 0.
    pub fn start(alloc: Global, value: S) -> Result<(Cell<S>, Pass<S>), NotStarted<S>>
        requires { S.stands value [] value }
        ensures pass { IfOk result (λ t. IsFreeOf t.0 t.1 × (known t.1 ≡ newcomer 0 []) × (opening t.1 ≡ Some value)) }
        ensures given { IfOk result (λ t. given t.0 ≡ 1) }
        ensures err { IfErr result (λ e. e.value ≡ value) }
    {
        let about = Snapshot::of(&value);
        let Ok(mut slots) = Vec::with_capacity(alloc, 1) else {
            return Err(NotStarted { value });
        };
        slots.push_reserved(Some(value));
        match Table::new(alloc, &[0, 1], slots, &about) {
            Ok((table, seat)) => Ok((
                Cell { given: 1, table },
                Pass {
                    number: 0,
                    made: 0,
                    seat,
                },
            )),
            Err(Refused { mut slots }) => {
                let value = slots.pop().unwrap().unwrap();
                Err(NotStarted { value })
            }
        }
    }

    /// How many passes it gave out.
    pub fn given(&self) -> u32
        ensures { result ≡ given self.now }
    {
        self.given
    }

    /// Gives a new pass with the next number, which has seen as much and made nothing.
    pub fn split<R: Wait>(&mut self, rt: &R, pass: &mut Pass<S>) -> Pass<S>
        requires pass { IsFreeOf self.old pass.old }
        requires room { given self.old + 1 < 2 ^ 32 }
        ensures cell { IsSameCell self.old self.new × (given self.new ≡ given self.old + 1) }
        ensures pass { IsFreeOf self.new pass.new × (known pass.new ≡ known pass.old)
            × (opening pass.new ≡ opening pass.old) }
        ensures other { IsFreeOf self.new result × (known result ≡ newcomer (given self.old) (seen pass.old))
            × (opening result ≡ opening pass.old) }
    {
        let mut seat = self.table.shared.split_seat::<Cut<S>>(&mut pass.seat);
        self.draw(rt, &mut seat);
        let number = self.given;
        self.given += 1;
        Pass {
            number,
            made: 0,
            seat,
        }
    }

    /// Takes in another pass, with its entries and all that it had gathered.
    pub fn join(&self, pass: &mut Pass<S>, other: Pass<S>)
        requires pass { IsFreeOf self.now pass.old }
        requires other { IsFreeOf self.now other }
        ensures free { IsFreeOf self.now pass.new }
        ensures known { (known pass.new ≡ joined (known pass.old) (known other))
            × (opening pass.new ≡ opening pass.old) }
        ensures this_begins { StartsWith (seen pass.new) (seen pass.old) }
        ensures other_begins { StartsWith (seen pass.new) (seen other) }
    {
        let shared = &self.table.shared;
        let Pass { seat, .. } = other;
        shared.join_seat::<Both<S>>(&mut pass.seat, seat);
        shared.load::<Compare<S>>(&mut pass.seat, 0);
    }

    /// Waits for the turn, and takes it with the value.
    pub fn take<R: Wait>(&self, rt: &R, pass: &mut Pass<S>) -> Turn<S>
        requires { IsFreeOf self.now pass.old }
        ensures { TakesTurn S.number S.serial S.stands self.now pass.old pass.new result }
    {
        if let Some(turn) = self.take_awake(pass) {
            return turn;
        }
        let mut seen = TAKEN;
        // From here on the word is left crowded, since others may sleep that this thread was woken before.
        for _ in rt.forever() {
            if let Some(turn) = self.take_or_crowd(pass, seen) {
                return turn;
            }
            self.table.shared.park(rt, 0, CROWDED as u32);
            seen = self.look();
        }
        unreachable!()
    }

    /// Gives the turn back, with the value as it stands for the history.
    pub fn give_back(&self, turn: Turn<S>, pass: &mut Pass<S>)
        requires turn { IsOf self.now pass.old × HasTurn pass.old × IsTurnOf turn pass.old }
        requires stands { StandsFor S.stands pass.old (seen pass.old) (value_of turn) }
        ensures free { IsFreeOf self.now pass.new }
        ensures known { (known pass.new ≡ known pass.old) × (opening pass.new ≡ opening pass.old) }
    {
        let Turn { value, taken: _ } = turn;
        self.give::<Brand>(value, &mut pass.seat);
    }

    /// Gives the turn back with one entry more, for which the value stands too.
    pub fn give_entry(&self, turn: Turn<S>, pass: &mut Pass<S>, entry: &S::Entry)
        requires turn { IsOf self.now pass.old × HasTurn pass.old × IsTurnOf turn pass.old }
        requires stands { StandsFor S.stands pass.old (seen pass.old ++ entry.now ∷ []) (value_of turn) }
        requires entry { MayGive S.number S.serial pass.old entry.now }
        requires room { length (mine pass.old) + 1 < 2 ^ 64 }
        ensures free { IsFreeOf self.now pass.new }
        ensures known { (known pass.new ≡ committed (known pass.old) (seen pass.old) entry.now)
            × (opening pass.new ≡ opening pass.old) }
    {
        let Turn { value, taken: _ } = turn;
        self.give_named::<Brand>(value, &mut pass.seat, entry);
        pass.made += 1;
    }

    /// Waits for the turn, and takes the value out of the cell.
    pub fn close<R: Wait>(self, rt: &R, mut pass: Pass<S>) -> S
        requires { IsFreeOf self pass }
        ensures { Closes S.number S.serial S.stands pass result }
    {
        let Turn { value, taken: _ } = self.take(rt, &mut pass);
        value
    }

    /// Takes the turn if it is free, or is soon.
    fn take_awake(&self, pass: &mut Pass<S>) -> Option<Turn<S>>
        requires { IsFreeOf self.now pass.old }
        ensures some { IfSome result (λ t. TakesTurn S.number S.serial S.stands self.now pass.old pass.new t) }
        ensures none { IfNone result (StaysFree self.now pass.old pass.new) }
    {
        if let Some(turn) = self.try_take(pass, Asker::Passes) {
            return Some(turn);
        }
        if self.look() != FREE {
            return None;
        }
        self.try_take(pass, Asker::Passes)
    }

    /// Takes the turn if it is free, and else leaves word that one sleeps for it, unless that was seen to stand there.
    fn take_or_crowd(&self, pass: &mut Pass<S>, seen: u64) -> Option<Turn<S>>
        requires { IsFreeOf self.now pass.old }
        ensures some { IfSome result (λ t. TakesTurn S.number S.serial S.stands self.now pass.old pass.new t) }
        ensures none { IfNone result (StaysFree self.now pass.old pass.new) }
    {
        if seen == CROWDED {
            return None;
        }
        self.try_take(pass, Asker::Sleeps)
    }

    /// Looks for a while, as long as the turn is taken and no one sleeps for it, and answers the word that it saw last.
    fn look(&self) -> u64 {
        for _ in 0..LOOKS {
            let seen = self.table.shared.peek(0);
            if seen != TAKEN {
                return seen;
            }
            spin_loop();
        }
        TAKEN
    }

    /// Takes the turn with the value, if it is free.
    fn try_take(&self, pass: &mut Pass<S>, asker: Asker) -> Option<Turn<S>>
        requires { IsFreeOf self.now pass.old }
        ensures some { IfSome result (λ t. TakesTurn S.number S.serial S.stands self.now pass.old pass.new t) }
        ensures none { IfNone result (StaysFree self.now pass.old pass.new) }
    {
        if self.ask(&mut pass.seat, asker) != FREE {
            return None;
        }
        let value = self.table.shared.exchange(&mut pass.seat, 0, None).unwrap();
        let taken = Snapshot::of(&pass.seat);
        Some(Turn { value, taken })
    }

    /// Takes the turn if it is free, and answers the word that it found.
    fn ask(&self, seat: &mut Place<S>, asker: Asker) -> u64
        requires place { seat.old.table_id ≡ self.now.table.shared.table_id }
        requires pass { (seat.old.me.0.live ≡ true) × (is_some seat.old.me.0.opening ≡ true) }
        ensures place { seat.new.table_id ≡ seat.old.table_id }
        ensures free { result ≡ 0 → HasValue S.number S.serial S.stands seat.old.me seat.new.me }
        ensures taken { result ≢ 0 → seat.new.me ≡ seat.old.me }
    {
        let shared = &self.table.shared;
        match asker {
            Asker::Passes => shared.compare_exchange::<Take<S>>(seat, 0, FREE, TAKEN),
            Asker::Sleeps => shared.swap::<Take<S>>(seat, 0, CROWDED),
        }
    }

    /// Puts the value back and frees the turn, with what N gives added to the history.
    fn give<N: Gives<S::Entry>>(&self, value: S, seat: &mut Place<S>)
        requires place { seat.old.table_id ≡ self.now.table.shared.table_id }
        requires pass { (seat.old.me.0.live ≡ true) × (is_some seat.old.me.0.opening ≡ true) }
        requires turn { HoldsTurn seat.old.me }
        requires stands { from S.stands seat.old.me.0.opening (history_after seat.old.me.0.known.seen N.given) value }
        requires entry { (e : S.Entry) → N.given ≡ Some e → IsNextOf S.number S.serial seat.old.me.0.known e }
        ensures place { seat.new.table_id ≡ seat.old.table_id }
        ensures given { seat.new.me ≡ (given_back seat.old.me.0 N.given, []) }
    {
        let shared = &self.table.shared;
        drop(shared.exchange(seat, 0, Some(value)));
        if shared.swap::<Give<S, N>>(seat, 0, FREE) == CROWDED {
            shared.wake_one(0);
        }
    }

    /// The same, where N gives this entry.
    fn give_named<N: Gives<S::Entry>>(&self, value: S, seat: &mut Place<S>, entry: &S::Entry)
        requires name { N.given ≡ Some entry.now }
        requires place { seat.old.table_id ≡ self.now.table.shared.table_id }
        requires pass { (seat.old.me.0.live ≡ true) × (is_some seat.old.me.0.opening ≡ true) }
        requires turn { HoldsTurn seat.old.me }
        requires stands { from S.stands seat.old.me.0.opening (seat.old.me.0.known.seen ++ entry.now ∷ []) value }
        requires entry { IsNextOf S.number S.serial seat.old.me.0.known entry.now }
        ensures place { seat.new.table_id ≡ seat.old.table_id }
        ensures given { seat.new.me ≡ (given_back seat.old.me.0 (Some entry.now), []) }
    {
        let _ = entry;
        self.give::<N>(value, seat);
    }

    /// Draws the next number for a seat that has none.
    fn draw<R: Wait>(&self, rt: &R, seat: &mut Place<S>)
        requires place { seat.old.table_id ≡ self.now.table.shared.table_id }
        requires unnumbered { IsUnnumbered seat.old.me.0 }
        requires room { self.now.given + 1 < 2 ^ 32 }
        ensures place { seat.new.table_id ≡ seat.old.table_id }
        ensures numbered { seat.new.me ≡ (numbered seat.old.me.0 self.now.given, seat.old.me.1) }
    {
        for _ in rt.forever() {
            if self.try_draw(seat) {
                return;
            }
        }
        unreachable!()
    }

    /// Draws the next number, if no other draw came between.
    fn try_draw(&self, seat: &mut Place<S>) -> bool
        requires place { seat.old.table_id ≡ self.now.table.shared.table_id }
        requires unnumbered { IsUnnumbered seat.old.me.0 }
        requires room { self.now.given + 1 < 2 ^ 32 }
        ensures place { seat.new.table_id ≡ seat.old.table_id }
        ensures me { MatchBool result (seat.new.me ≡ (numbered seat.old.me.0 self.now.given, seat.old.me.1))
            (seat.new.me ≡ seat.old.me) }
    {
        let number = u64::from(self.given);
        let shared = &self.table.shared;
        let found = shared.compare_exchange::<Draw<S>>(seat, 1, number, number + 1);
        found == number
    }
}

//! The rule of the table, and what each step on it tells the one that takes it.
ghost use Rattle.std.specs.Prelude.{Option, None};

use crate::replays::Replays;
use crate::view::View;
use atomic_table::{Join, Play, Split, TableRule};
use std::marker::{Brand, PhantomData};
use std::snapshot::Snapshot;

/// The entry that a giver adds to the history, if any. A call picks it.
pub trait Gives<E> {
    ghost given: { Option E };
}

impl<E> Gives<E> for Brand {
    ghost given = { None };
}

/// The rule of the cell's table.
pub struct Rule<S> {
    value: PhantomData<S>,
}

impl<S: Replays> TableRule<Option<S>, View<S, S::Entry>, Snapshot<S>> for Rule<S> {
    ghost use Rattle.commit_cell.specs.Rule.{Kept, first_view};

    ghost holds = { λ key. Kept S.number S.serial S.stands key.value };

    ghost first = { λ key. first_view key.value };
}

/// Takes the turn, if it is free.
pub struct Take<S> {
    value: PhantomData<S>,
}

impl<S: Replays> Play<Option<S>, View<S, S::Entry>> for Take<S> {
    ghost use Rattle.commit_cell.specs.Rule.{took};

    ghost then = { took S.number S.serial S.stands };
}

/// Gives the turn back, with an entry or without.
pub struct Give<S, N> {
    value: PhantomData<(S, N)>,
}

impl<S: Replays, N: Gives<S::Entry>> Play<Option<S>, View<S, S::Entry>> for Give<S, N> {
    ghost use Rattle.commit_cell.specs.Rule.{gave};

    ghost then = { gave N.given };
}

/// Draws a number, if it is the one that was asked for.
pub struct Draw<S> {
    value: PhantomData<S>,
}

impl<S: Replays> Play<Option<S>, View<S, S::Entry>> for Draw<S> {
    ghost use Rattle.commit_cell.specs.Rule.{drew};

    ghost then = { drew };
}

/// Tells that the two passes which were joined last had seen beginnings of one history.
pub struct Compare<S> {
    value: PhantomData<S>,
}

impl<S: Replays> Play<Option<S>, View<S, S::Entry>> for Compare<S> {
    ghost use Rattle.commit_cell.specs.Rule.{compared};

    ghost then = { compared };
}

/// Makes a seat beside a pass, which has seen as much and has no number yet.
pub struct Cut<S> {
    value: PhantomData<S>,
}

impl<S: Replays> Split<View<S, S::Entry>> for Cut<S> {
    ghost use Rattle.commit_cell.specs.Rule.{unnumbered};

    ghost left = { λ v. v };

    ghost right = { unnumbered };
}

/// Joins a pass into another.
pub struct Both<S> {
    value: PhantomData<S>,
}

impl<S: Replays> Join<View<S, S::Entry>> for Both<S> {
    ghost use Rattle.commit_cell.specs.Rule.{both, spent};

    ghost both = { both };

    ghost spent = { spent };
}

//! Workers at a shelf: the cell and their passes cross threads, whatever the shelf holds that may.
ghost use Rattle.std.specs.Prelude.{◌≡◌, ◌<◌, length, All};
ghost use Rattle.commit_cell.specs.Words.{IsFreeOf};
ghost use Rattle.cell_trial.specs.ShelfReady.{IsReady};

use crate::shelf::{Effect, Record, Shelf};
use commit_cell::{Cell, Pass, Replays};
use std::alloc::Global;
use std::sync::Wait;
use std::thread;
use std::thread::Threads;

/// One that commits to the shelf.
#[derive(Drop)]
pub struct ShelfWorker<F: Effect>
where
    Shelf<F>: Replays,
{
    pub rounds: u64,
    pub pass: Pass<Shelf<F>>,
}

/// One turn at the shelf.
fn commit<R: Wait, F: Effect>(
    rt: &R,
    alloc: Global,
    cell: &Cell<Shelf<F>>,
    pass: &mut Pass<Shelf<F>>,
)
    requires { IsFreeOf cell.now pass.old }
    ensures { IsFreeOf cell.now pass.new }
{
    let record = Record {
        number: pass.number(),
        serial: pass.made(),
        text: Vec::new(alloc),
    };
    let mut turn = cell.take(rt, pass);
    let count = turn.value().count;
    if pass.made() == u64::MAX || count == u64::MAX {
        cell.give_back(turn, pass);
        return;
    }
    turn.value_mut().turn();
    cell.give_entry(turn, pass, &record);
}

/// One worker takes its turns.
fn work<R: Wait, F: Effect>(
    rt: &R,
    alloc: Global,
    cell: &Cell<Shelf<F>>,
    worker: &mut ShelfWorker<F>,
)
    requires { IsReady cell.now worker.old }
    ensures { IsReady cell.now worker.new }
{
    for _ in 0..worker.rounds {
        commit(rt, alloc, cell, &mut worker.pass);
    }
}

/// Lets all workers work, each in a thread of its own.
pub fn serve_shelf<R: Wait + Threads + Sync, F: Effect + Send>(
    rt: &R,
    alloc: Global,
    cell: &Cell<Shelf<F>>,
    workers: &mut [ShelfWorker<F>],
)
    requires some { 0 < length workers.old }
    requires ready { All (λ w. IsReady cell.now w) workers.old }
    ensures ready { All (λ w. IsReady cell.now w) workers.new }
{
    let threads = workers.len();
    thread::for_each_mut(
        rt,
        workers,
        threads,
        &|_, worker| work(rt, alloc, cell, worker),
    );
}

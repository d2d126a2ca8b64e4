//! Workers, each with a pass and a number of entries to make.
ghost use Rattle.std.specs.Prelude.{◌≡◌, ◌<◌, length, All};
ghost use Rattle.cell_trial.specs.Ready.{IsReady};

use crate::commits::commit;
use crate::counter::Counter;
use commit_cell::{Cell, Pass};
use std::sync::Wait;
use std::thread;
use std::thread::Threads;

/// One that makes entries.
#[derive(Drop)]
pub struct Worker {
    pub entries: u64,
    pub pass: Pass<Counter>,
}

/// One worker makes its entries.
fn work<R: Wait>(rt: &R, cell: &Cell<Counter>, worker: &mut Worker)
    requires { IsReady cell.now worker.old }
    ensures { IsReady cell.now worker.new }
{
    for _ in 0..worker.entries {
        let _ = commit(rt, cell, &mut worker.pass, 1);
    }
}

/// Lets all workers work, each in a thread of its own.
pub fn serve<R: Wait + Threads + Sync>(rt: &R, cell: &Cell<Counter>, workers: &mut [Worker])
    requires some { 0 < length workers.old }
    requires ready { All (λ w. IsReady cell.now w) workers.old }
    ensures ready { All (λ w. IsReady cell.now w) workers.new }
{
    let threads = workers.len();
    thread::for_each_mut(rt, workers, threads, &|_, worker| work(rt, cell, worker));
}

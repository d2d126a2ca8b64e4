//! A whole run: one cell, so many workers, all joined again, and the cell closed.
ghost use Rattle.std.specs.Prelude.{◌≡◌, ◌≤◌, ℕ, [], All, IfSome, map, sum_by, vec_len};
ghost use Rattle.commit_cell.specs.History.{times};
ghost use Rattle.commit_cell.specs.Words.{IsFreeOf, gathered, opening};
ghost use Rattle.cell_trial.specs.Counter.{HasAllOf, counted};
ghost use Rattle.cell_trial.specs.Ready.{IsReady};

use crate::counter::Counter;
use crate::workers::{Worker, serve};
use commit_cell::{Cell, Pass};
use std::alloc::Global;
use std::sync::Wait;
use std::thread::Threads;

/// What a run leaves: the counter, and of each worker its number and how many entries it made.
#[derive(Drop)]
pub struct Outcome {
    pub counter: Counter,
    pub made: Vec<(u32, u64)>,
}

/// So many workers, each with a pass of its own, or nothing where there is no memory or no number left.
fn staff<R: Wait>(
    rt: &R,
    alloc: Global,
    cell: &mut Cell<Counter>,
    pass: &mut Pass<Counter>,
    workers: u32,
    entries: u64,
) -> Option<Vec<Worker>>
    requires { IsFreeOf cell.old pass.old }
    ensures pass { IsFreeOf cell.new pass.new × (gathered pass.new ≡ gathered pass.old)
        × (opening pass.new ≡ opening pass.old) }
    ensures ready { IfSome result (λ v. All (λ w. IsReady cell.new w) v.items) }
    ensures all { IfSome result (λ v. vec_len v ≡ workers) }
{
    let mut staff = Vec::new(alloc);
    for _ in 0..workers {
        if cell.given() == u32::MAX {
            return None;
        }
        let pass = cell.split(rt, pass);
        staff.push(Worker { entries, pass }).ok()?;
    }
    Some(staff)
}

/// Joins the workers into one pass, and tells of each its number and how many entries it made. It answers
/// nothing where one
/// of them didn't make all its entries.
fn gather(
    alloc: Global,
    cell: &Cell<Counter>,
    pass: &mut Pass<Counter>,
    mut workers: Vec<Worker>,
    entries: u64,
) -> Option<Vec<(u32, u64)>>
    requires pass { IsFreeOf cell.now pass.old × (gathered pass.old ≡ []) }
    requires ready { All (λ w. IsReady cell.now w) workers.items }
    ensures pass { IsFreeOf cell.now pass.new × (opening pass.new ≡ opening pass.old) }
    ensures made { IfSome result (λ v. v.items ≡ map counted (gathered pass.new)) }
    ensures all { IfSome result (λ v. vec_len v ≡ vec_len workers) }
    ensures each { IfSome result (λ v. All (λ m. m.1 ≡ entries) v.items) }
{
    let mut made = Vec::new(alloc);
    while let Some(worker) = workers.pop() {
        if worker.pass.made() != entries {
            return None;
        }
        made.push((worker.pass.number(), worker.pass.made())).ok()?;
        cell.join(pass, worker.pass);
    }
    Some(made)
}

/// Runs so many workers, each with so many entries to make. The counter then has of each worker just its
/// entries, in order,
/// and their sum. It answers nothing where there are no workers, or no memory.
pub fn run<R: Wait + Threads + Sync>(
    rt: &R,
    alloc: Global,
    workers: u32,
    entries: u64,
) -> Option<Outcome>
    ensures own { IfSome result (λ o. All (λ m. HasAllOf o.counter m) o.made.items) }
    ensures all { IfSome result (λ o. vec_len o.made ≡ workers) }
    ensures different { IfSome result (λ o. (n : ℕ) → times n (map (λ m. m.0) o.made.items) ≤ 1) }
    ensures each { IfSome result (λ o. All (λ m. m.1 ≡ entries) o.made.items) }
    ensures total { IfSome result (λ o. o.counter.total ≡ sum_by (λ e. e.amount) o.counter.entries.items) }
{
    let (mut cell, mut pass) = Cell::start(alloc, Counter::new(alloc)).ok()?;
    let mut staff = staff(rt, alloc, &mut cell, &mut pass, workers, entries)?;
    if staff.is_empty() {
        return None;
    }
    serve(rt, &cell, staff.as_mut_slice());
    let made = gather(alloc, &cell, &mut pass, staff, entries)?;
    let counter = cell.close(rt, pass);
    Some(Outcome { counter, made })
}

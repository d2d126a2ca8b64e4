//! Runs under threads: what no clause says is that they end, and that there is memory for all of it.
ghost use Rattle.std.specs.Prelude.{◌≡◌};

use super::*;
use commit_cell::{Cell, worlds_keep_their_facts};
use std::collections::{BTreeMap, HashMap};
use std::sync::Arc;
use std::test::Fail;

const WORKERS: u32 = 4;

const ENTRIES: u64 = 100_000;

/// Each of four workers makes all its entries, numbered in its own order, and none is lost.
#[test]
fn four_workers_make_their_entries_in_order(rt: HostRuntime) -> Result<(), Fail> {
    let outcome = run(&rt, rt.alloc(), WORKERS, ENTRIES).ok_or("memory")?;
    let entries = outcome.counter.entries.as_slice();
    assert_eq!(rt; entries.len(), 400_000);
    assert_eq!(rt; outcome.counter.total, 400_000);
    assert_eq!(rt;
        outcome.made.as_slice(),
        [(4, ENTRIES), (3, ENTRIES), (2, ENTRIES), (1, ENTRIES)].as_slice()
    );
    for number in 1..=WORKERS {
        let mut serial = 0;
        for entry in entries {
            if entry.number == number {
                assert_eq!(rt; entry.serial, serial, "of worker {number}");
                assert!(rt; serial < ENTRIES);
                serial += 1;
            }
        }
        assert_eq!(rt; serial, ENTRIES, "of worker {number}");
    }
    Ok(())
}

/// Two workers take 1,000 turns each on a store of shared code, maps, rows and effects, and each turn is counted.
#[test]
fn a_store_of_everything_crosses_threads(rt: HostRuntime) -> Result<(), Fail> {
    let alloc = rt.alloc();
    let mut effects = Vec::new(alloc);
    effects.push(Tape { turns: 0 })?;
    effects.push(Tape { turns: 10 })?;
    let shelf = Shelf {
        code: Arc::new(
            alloc,
            Code {
                words: Vec::new(alloc),
            },
        )?,
        names: BTreeMap::new(alloc),
        places: HashMap::new(alloc),
        rows: Vec::new(alloc),
        effects,
        count: 0,
    };
    let (mut cell, mut pass) = Cell::start(alloc, shelf).ok().ok_or("memory")?;
    let mut workers = Vec::new(alloc);
    let own = cell.split(&rt, &mut pass);
    workers.push(ShelfWorker {
        rounds: 1000,
        pass: own,
    })?;
    let own = cell.split(&rt, &mut pass);
    workers.push(ShelfWorker {
        rounds: 1000,
        pass: own,
    })?;
    serve_shelf(&rt, alloc, &cell, workers.as_mut_slice());
    let shelf = cell.close(&rt, pass);
    assert_eq!(rt; shelf.count, 2000);
    let mut turns = shelf.effects.iter().map(|tape| tape.turns);
    assert_eq!(rt; turns.next(), Some(2000));
    assert_eq!(rt; turns.next(), Some(2010));
    worlds_keep_their_facts::<Counter>();
    Ok(())
}

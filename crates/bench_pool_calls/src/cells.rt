//! How many calls a second are answered, of so many clients by so many workers of a server.

use crate::{Plan, pool_of, service_of, tied_of};
use std::alloc::Global;
use std::sync::Wait;
use std::thread::Threads;
use std::time::Clock;

/// So many times all cells are run, one after another, so that what slows the machine for a while slows few runs of each.
const PASSES: u32 = 25;

/// The servers, in the order in which they are run.
const SERVERS: [&str; 3] = ["a pool", "a service", "a service with known seats"];

/// So many clients of so many workers, and how many calls a second were answered by each server, in each pass.
#[derive(Drop)]
struct Cell {
    clients: u8,
    workers: u8,
    rates: [Vec<u128>; 3],
}

/// Runs each cell so many times, with so many calls of each client, and prints how many calls a second were answered in the middle
/// of its runs, and in the slowest and the fastest.
pub fn time_cells<R: Threads + Wait + Clock + Print + Sync>(
    rt: &R,
    alloc: Global,
    calls: u32,
) -> anyhow::Result<()> {
    let mut cells = Vec::new(alloc);
    for clients in [1, 2, 4, 8] {
        for workers in [1, 2, 4] {
            let rates = [Vec::new(alloc), Vec::new(alloc), Vec::new(alloc)];
            cells.push(Cell {
                clients,
                workers,
                rates,
            })?;
        }
    }
    for _ in 0..PASSES {
        for cell in cells.iter_mut() {
            cell.run(rt, alloc, calls)?;
        }
    }
    println!(rt; "calls a second in the middle of {PASSES} passes:")?;
    for cell in cells.iter_mut() {
        cell.tell(rt)?;
    }
    Ok(())
}

impl Cell {
    /// Runs each server once.
    fn run<R: Threads + Wait + Clock + Sync>(
        &mut self,
        rt: &R,
        alloc: Global,
        calls: u32,
    ) -> anyhow::Result<()> {
        let plan = Plan::of_status(self.workers, self.clients, calls, false);
        let rates = [
            pool_of(rt, alloc, &plan)?.rate(),
            service_of(rt, alloc, &plan)?.rate(),
            tied_of(rt, alloc, &plan)?.rate(),
        ];
        for (all, rate) in self.rates.iter_mut().zip(rates) {
            all.push(rate)?;
        }
        Ok(())
    }

    fn tell<R: Print>(&mut self, rt: &R) -> anyhow::Result<()> {
        let (clients, workers) = (self.clients, self.workers);
        for (server, rates) in SERVERS.iter().zip(self.rates.iter_mut()) {
            rates.sort_unstable();
            let middle = rates.get(rates.len() / 2).unwrap_or(&0);
            let (slowest, fastest) = (rates.first().unwrap_or(&0), rates.last().unwrap_or(&0));
            println!(rt;
                "{clients} clients, {workers} workers, {server}: {middle} ({slowest} to {fastest})"
            )?;
        }
        Ok(())
    }
}

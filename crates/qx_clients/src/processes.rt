//! The processes of a user, from 1: a place for each number.

ghost use Rattle.std.specs.Prelude.{IsSome, ◌≡◌, ◌∷◌, ◌<◌, ◌≤◌, [], Err, None, Ok, true, length, slice_set, IfErr, IsErr, IsOk, IfOk, OnOk, OnErr, OnSome};
ghost use Rattle.std.specs.Option.{option_copied, option_copied_mut};
ghost use Rattle.std.specs.Borrow.{sem};
ghost use Rattle.std.specs.List.{list_any, sum_by};
ghost use Rattle.qx_types.specs.declared.limits.TheConstants.Limits.{PROCESSES, THREADS};
ghost use Rattle.qx_machine.specs.Calls as calls;
ghost use Rattle.qx_machine.specs.Clients as clients;
ghost use Rattle.qx_machine.specs.Processes.{living, new_process};
ghost use Rattle.qx_isolation.specs.Rows.{put_row, row_at};
ghost use Rattle.qx_process.specs.Reads.{IsPriority};
ghost use Rattle.qx_clients.specs.Calls.{has_ended_in, spawn_outcome, spawned, done_or, after_or, with_prio};
ghost use Rattle.qx_machine.specs.Parts.{connection_of, thread_of};

use qx_hint::as_mut_unchecked;
use qx_machine::Connection;
use qx_process::{Process, ThreadCell};
use qx_rows::places;
use qx_types::{Coid, Errno, LimitName, Limits, Manager, Outcome, Prio, UserLimits};
use std::alloc::{AllocError, Global};
use std::marker::Model;

/// The processes of a user, in a table with memory for at most twice its places.
#[derive(Drop)]
pub struct Processes {
    rows: Vec<Option<Process>>,
}

impl Model for Processes {
    ghost use Rattle.std.specs.Prelude.{◌+◌, ◌*◌, ◌<◌, ◌≤◌, List, Option, length, vec_capacity};
    ghost use Rattle.qx_types.specs.declared.limits.TheConstants.Limits.{PROCESSES};
    ghost use Rattle.qx_machine.specs.Processes as machine;

    ghost Value = { List (Option machine.Process) };

    ghost view = { λ p. p.rows.items };

    ghost invariant = { λ p. (0 < length p.rows.items) × (length p.rows.items ≤ PROCESSES + 1) × (vec_capacity p.rows ≤ 2 * length p.rows.items) };
}

impl Processes {
    ghost use Rattle.qx_clients.specs.Lends.{lends_process, lends_process_there, lends_thread_of};

    /// No process.
    pub fn new(alloc: Global) -> Result<Self, AllocError>
        ensures none { IfOk result (λ processes. processes ≡ None ∷ []) }
    {
        Ok(Processes {
            rows: places::empty(alloc)?,
        })
    }

    /// How many numbers have a place, the 0 among them, which no process has; the number of each process is below.
    pub fn places(&self) -> u8
        ensures places { result ≡ length self.now }
    {
        self.rows.len() as u8
    }

    /// Whether a process is there still that has ended.
    pub fn has_ended(&self) -> bool
        ensures ended { result ≡ list_any has_ended_in self.now }
    {
        self.rows.iter().any(|row| is_ended(row))
    }

    /// A process; none where it is not there.
    pub fn process(&self, process: u8) -> Option<&Process>
        ensures row { option_copied result ≡ row_at self.now process }
        ensures within { OnSome result (process ≤ PROCESSES) }
    {
        places::row(self.rows.as_slice(), process as usize)
    }

    /// A process that has not ended; none where there is no such process.
    pub fn living(&self, process: u8) -> Option<&Process>
        ensures row { option_copied result ≡ living (row_at self.now process) }
        ensures within { OnSome result (process ≤ PROCESSES) }
    {
        let row = self.process(process)?;
        if row.has_ended() { None } else { Some(row) }
    }

    /// A process, for writing; none where it is not there.
    pub fn process_mut(&mut self, process: u8) -> Option<&mut Process>
        ensures* writes_back { sem 𝓛 (lends_process self.entry process result) }
        ensures row { option_copied_mut result ≡ row_at self.old process }
        ensures within { OnSome result (process ≤ PROCESSES) }
    {
        self.rows.get_mut(process as usize)?.as_mut()
    }

    /// A process that is there, for writing.
    pub fn process_there(&mut self, process: u8) -> &mut Process
        requires there { IsSome (row_at self.old process) }
        ensures* writes_back { sem 𝓛 (lends_process_there self.entry process result) }
        ensures row { row_at self.old process ≡ Some result.now }
    {
        as_mut_unchecked(&mut self.rows[process as usize])
    }

    /// A thread; none where it is not there.
    pub fn thread(&self, process: u8, thread: u8) -> Option<&ThreadCell>
        ensures row { option_copied result ≡ thread_of thread (row_at self.now process) }
    {
        self.process(process)?.thread(thread)
    }

    /// A thread, for writing; none where it is not there.
    pub fn thread_mut(&mut self, process: u8, thread: u8) -> Option<&mut ThreadCell>
        ensures* writes_back { sem 𝓛 (lends_thread_of self.entry process thread result) }
        ensures row { option_copied_mut result ≡ thread_of thread (row_at self.old process) }
    {
        self.process_mut(process)?.thread_mut(thread)
    }

    /// A connection's row; none where it is not there.
    pub fn conn_of(&self, process: u8, coid: Coid) -> Option<&Connection>
        ensures row { option_copied result ≡ connection_of coid.0 (row_at self.now process) }
    {
        self.process(process)?.conn_of(coid)
    }

    /// The number of a new process of 1 to 4 threads of a priority from 1 to the user's ceiling, the lowest free one. EINVAL
    /// for other numbers, EPERM for a priority above the ceiling, then EAGAIN where the user has as many processes as may be.
    pub fn spawn_number(&self, limits: &UserLimits, threads: u8, prio: Prio) -> Result<u8, Outcome>
        ensures number { result ≡ clients.spawn_number limits.now self.now threads prio.0 }
        ensures few { IfOk result (λ number. number ≤ PROCESSES) }
        ensures lowest { IsOk result → 1 ≤ prio.0 }
    {
        let is_valid = 1 <= threads && threads <= Limits::THREADS;
        if !is_valid {
            return Err(Outcome::Refused(Errno::EINVAL));
        }
        may_give(limits.ceiling(), prio)?;
        let number = places::lowest_free(self.rows.as_slice(), 1);
        if number > limits.get(LimitName::Processes) {
            return Err(Outcome::Refused(Errno::EAGAIN));
        }
        Ok(number as u8)
    }

    /// Starts a process of so many ready threads of a priority, under the number that `spawn_number` gives, and is refused
    /// as that is (C Library Reference: `spawn`). A spawn that is refused wants no memory.
    pub fn spawn(
        &mut self,
        alloc: Global,
        limits: &UserLimits,
        threads: u8,
        prio: Prio,
    ) -> Result<Outcome, AllocError>
        ensures outcome { IfOk result (λ outcome. outcome ≡ spawn_outcome (clients.spawn_number limits.now self.old threads prio.0)) }
        ensures rows { OnOk result (self.new ≡ spawned self.old threads prio.0 (clients.spawn_number limits.now self.old threads prio.0)) }
        ensures place { 0 < length self.old }
        ensures sure { IsErr (clients.spawn_number limits.now self.old threads prio.0) → IsOk result }
        ensures err { OnErr result (self.new ≡ self.old) }
    {
        // there is a place for number 0
        let _ = &self.rows;
        match self.spawn_number(limits, threads, prio) {
            Ok(number) => {
                self.start(alloc, number, threads, prio)?;
                Ok(Outcome::Spawned(number))
            }
            Err(outcome) => Ok(outcome),
        }
    }

    /// Starts a process of so many ready threads of a priority under a number.
    pub fn start(
        &mut self,
        alloc: Global,
        number: u8,
        threads: u8,
        prio: Prio,
    ) -> Result<(), AllocError>
        requires few { number ≤ PROCESSES }
        requires threads { threads ≤ THREADS }
        requires priority { IsPriority prio.0 }
        ensures rows { OnOk result (self.new ≡ put_row self.old number (new_process threads prio.0)) }
        ensures place { 0 < length self.old }
        ensures err { OnErr result (self.new ≡ self.old) }
    {
        // there is a place for number 0
        let _ = &self.rows;
        // matched here, as a `?` would copy the process once more
        match Process::new(alloc, threads, prio) {
            Ok(process) => places::put(&mut self.rows, number as usize, process),
            Err(error) => Err(error),
        }
    }

    /// A thread gets another priority, from 1 to the user's ceiling (C Library Reference: `SchedSet`). `WrongState` where it is
    /// not there, then EINVAL for 0, then EPERM for one above the ceiling.
    #[tactic(auto, using(crate::proofs::LendLemmas::put_thread_same))]
    pub fn set_prio(&mut self, ceiling: Prio, process: u8, thread: u8, prio: Prio) -> Outcome
        ensures outcome { result ≡ done_or (with_prio ceiling.0 self.old process thread prio.0) }
        ensures rows { self.new ≡ after_or self.old (with_prio ceiling.0 self.old process thread prio.0) }
    {
        let Some(cell) = self.thread_mut(process, thread) else {
            return Outcome::WrongState;
        };
        if let Err(outcome) = may_give(ceiling, prio) {
            return outcome;
        }
        cell.set_prio(prio);
        Outcome::Done
    }

    /// Whether a process has a server connection in use at a manager, or the user fewer there than may be.
    pub fn can_serve(&self, most: usize, process: &Process, manager: Manager) -> bool
        ensures served { result ≡ calls.can_serve most self.now process.now manager }
    {
        process.is_served(manager) || self.server_count(manager) < most
    }

    /// How many server connections the user has at a manager, those whose disconnect pulse was made among them.
    fn server_count(&self, manager: Manager) -> usize
        ensures count { result ≡ sum_by (calls.server_count manager) self.now }
    {
        let mut count = 0;
        for place in &self.rows {
            if let Some(row) = place {
                count += row.server_count(manager);
            }
        }
        count
    }

    /// A process that has ended goes, and its number is free.
    pub fn free_ended(&mut self, process: u8)
        ensures freed { self.new ≡ slice_set self.old process None }
        ensures free { row_at self.new process ≡ None }
    {
        places::free(&mut self.rows, process as usize);
    }
}

/// Whether a process is there and has ended.
fn is_ended(row: &Option<Process>) -> bool
    ensures ended { result ≡ has_ended_in row.now }
{
    match row {
        Some(process) => process.has_ended(),
        None => false,
    }
}

/// Whether a user with this ceiling gives a thread a priority: EINVAL for 0, then EPERM for one above the ceiling.
#[tactic(auto, unfolding(qx_machine::specs::Clients::may_give))]
fn may_give(ceiling: Prio, prio: Prio) -> Result<(), Outcome>
    ensures given { IfOk result (λ _. clients.may_give ceiling.0 prio.0 ≡ Ok true) }
    ensures lowest { IsOk result → 1 ≤ prio.0 }
    ensures refused { IfErr result (λ outcome. clients.may_give ceiling.0 prio.0 ≡ Err outcome) }
{
    if prio.0 == 0 {
        return Err(Outcome::Refused(Errno::EINVAL));
    }
    if prio.0 > ceiling.0 {
        return Err(Outcome::Refused(Errno::EPERM));
    }
    Ok(())
}

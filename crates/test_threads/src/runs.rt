//! A run of a server with a thread for each of some texts, and what came of it.

use crate::acts::{Act, Signals, read};
use crate::servers::{On, serve, serve_on};
use qx_play::text::{push_outcome, push_transcript};
use qx_pool::{CallEnd, ClientOf, Note, Seat, ServerOf, StepFault, UnderLock, worker_loop};
use qx_script::{Script, parse};
use qx_types::{Item, Manager, NoMemory, Outcome, Proc, Step, Thread, User};
use qx_world::Traced;
use std::alloc::Global;
use std::marker::Brand;
use std::process::Abort;
use std::sync::Wait;
use std::sync::atomic::AtomicU64;
use std::sync::ledger::{Blank, Ledger};
use std::thread;
use std::thread::{JoinHandle, Scope, Threads};

/// What a thread is to do, and how its calls ended, for which there is room.
#[derive(Drop)]
pub(crate) struct Role {
    acts: Vec<Act>,
    ends: Vec<CallEnd>,
}

/// What came of a run: the trace, unless it was of a service whose recorder cut a step, and how the calls of each thread ended,
/// the clients' first.
#[derive(Drop)]
pub(crate) struct Ran {
    pub(crate) traced: Option<Traced>,
    pub(crate) ends: Vec<Vec<CallEnd>>,
}

/// What a seat tells of calls.
pub(crate) trait Tells {
    /// Whether a call that was made there ended so, as far as the seat knows.
    fn tells(&self, end: &CallEnd) -> bool;
}

impl<L: Ledger> Tells for Seat<L> {
    fn tells(&self, end: &CallEnd) -> bool {
        is_told(end, self.notes())
    }
}

impl Tells for () {
    fn tells(&self, _end: &CallEnd) -> bool {
        true
    }
}

/// What is to be seen of a run.
#[derive(Clone, Copy, Debug)]
pub(crate) enum Wanted {
    /// A user received these lines, as `show` prints them, and would have in the run of the user's own steps.
    Received(User, &'static str),
    /// The stored steps gave this, one after another.
    Gave(&'static str),
    /// The calls of a thread, by its place among the clients and then the workers, ended so, as they are printed for debugging.
    Ended(usize, &'static str),
    /// The first thread of a user's first process is answered.
    Answered(User),
    /// It waits for an answer.
    Blocked(User),
    /// So many items stand in the lines of the RAM manager and of the pipe manager.
    Waiting { ram: usize, pipe: usize },
}

/// A thread of a user's first process.
pub(crate) fn thread(user: User, tid: u8) -> Thread {
    let proc = Proc { user, num: 1 };
    Thread { proc, tid }
}

/// Whether a call ended with what its last step told, unless it ended early.
fn is_told(end: &CallEnd, notes: &[Note]) -> bool {
    if matches!(end, CallEnd::Stopped(_) | CallEnd::NoMemory) {
        return true;
    }
    let Some(note) = notes.last() else {
        return false;
    };
    match (end, &note.outcome) {
        (CallEnd::Reply(status, bytes), Outcome::Reply(told, content)) => {
            status == told && bytes == content
        }
        (CallEnd::Failed(error), Outcome::Failed(told)) => error == told,
        (CallEnd::Refused(error), Outcome::Refused(told)) => error == told,
        (CallEnd::WrongState, Outcome::WrongState) => true,
        _ => false,
    }
}

/// Takes a step, if it is a client's. Whether it was `WrongState`, or the server was stopped.
fn take<S: UnderLock>(
    rt: &impl Wait,
    server: &ServerOf<S>,
    client: &mut ClientOf<S>,
    step: Step,
) -> bool {
    step.is_client()
        && matches!(
            client.step(rt, server, step),
            Ok(Outcome::WrongState) | Err(StepFault::Stopped(..))
        )
}

/// Does all that a thread is to do at its seat, and tells how its calls ended.
fn play<S: UnderLock, R: Wait>(
    rt: &R,
    server: &ServerOf<S>,
    signals: &Signals,
    seat: S::Seat,
    role: Role,
) -> (S::Seat, Vec<CallEnd>)
where
    S::Seat: Tells,
{
    let Role { acts, mut ends } = role;
    let mut helper = ClientOf::new(seat, thread(User(1), 1));
    for act in acts {
        match act {
            Act::Call(thread, request) => {
                let mut client = ClientOf::new(helper.into_seat(), thread);
                let end = client.call(rt, server, request);
                let seat = client.into_seat();
                if !seat.tells(&end) {
                    signals.fail();
                }
                let _ = ends.push(end);
                helper = ClientOf::new(seat, thread);
            }
            Act::Take(step) => {
                take(rt, server, &mut helper, step);
            }
            Act::Until(step) => signals.wait_until(rt, || match step.clone() {
                Ok(step) => take(rt, server, &mut helper, step),
                Err(_) => true,
            }),
            Act::Work(worker) => {
                let seat = helper.into_seat();
                let seat = worker_loop(rt, server, seat, worker, signals, signals);
                helper = ClientOf::new(seat, thread(User(1), 1));
            }
            Act::Await(count) => signals.wait_for(rt, count),
            Act::Raise => signals.raise(),
            Act::Stop => server.stop(rt),
        }
    }
    (helper.into_seat(), ends)
}

/// The seats, and for each role how its calls ended, for which there is room.
pub(crate) type Played<S> = (Vec<<S as UnderLock>::Seat>, Vec<Vec<CallEnd>>);

/// Plays each role in a thread at a seat, and stops the server once the first `callers` of them have ended.
pub(crate) fn play_all<'a, S: UnderLock + Send, R: Threads + Wait + Sync>(
    rt: &'a R,
    server: &'a ServerOf<S>,
    signals: &'a Signals,
    callers: usize,
    roles: Vec<Role>,
    running: Vec<JoinHandle<(S::Seat, Vec<CallEnd>)>>,
    played: Played<S>,
) -> Played<S>
where
    S::Seat: Tells + Send,
{
    thread::scope(thread::scope_env(), rt, move |scope| {
        play_in(rt, scope, server, signals, callers, roles, running, played)
    })
}

/// The same in a scope, which lets the threads borrow the server.
fn play_in<'s, E, S: UnderLock + Send, R: Threads + Wait + Sync>(
    rt: &'s R,
    scope: &Scope<'s, E>,
    server: &'s ServerOf<S>,
    signals: &'s Signals,
    callers: usize,
    roles: Vec<Role>,
    mut running: Vec<JoinHandle<(S::Seat, Vec<CallEnd>)>>,
    played: Played<S>,
) -> Played<S>
where
    S::Seat: Tells + Send,
{
    let (mut seats, mut ends) = played;
    for role in roles {
        let Some(seat) = seats.pop() else {
            break;
        };
        match scope.spawn(move || play(rt, server, signals, seat, role)) {
            Ok(thread) => drop(running.push(thread)),
            Err(_) => server.stop(rt),
        }
    }
    for thread in running {
        if ends.len() == callers {
            server.stop(rt);
        }
        let (seat, ended) = thread.join(rt);
        let _ = seats.push(seat);
        let _ = ends.push(ended);
    }
    (seats, ends)
}

/// Runs one of both servers for the users whom the first lines of a script name, with a thread for each client and each worker.
/// Asserts that the run is whole, that nobody waited in vain, and that each call was told its end.
pub(crate) fn run<R: Threads + Wait + Abort + Sync>(
    rt: &R,
    alloc: Global,
    on: On,
    users: &str,
    held: Option<(Item, u64)>,
    clients: &[&str],
    workers: &[&str],
) -> Result<Ran, NoMemory> {
    let mut roles = Vec::new(alloc);
    for text in clients.iter().chain(workers) {
        let mut acts = Vec::new(alloc);
        for line in text.lines() {
            acts.push(read(rt, alloc, users, line)?)?;
        }
        let ends = Vec::with_capacity(alloc, acts.len())?;
        roles.push(Role { acts, ends })?;
    }
    let Script::Good(config, _) = parse(alloc, users.as_bytes())? else {
        panic!(rt; "a line of {users} is bad");
    };
    let raised = AtomicU64::new(0);
    let signals = Signals { raised, held };
    let own = usize::from(config.workers());
    let spare = roles.len().saturating_sub(own);
    let blank = Blank::new((own + spare) as u64);
    let callers = clients.len();
    let ran = match on {
        On::Pool => serve::<Brand, R>(rt, alloc, blank, config, spare, roles, callers, &signals)?,
        On::Service => serve_on(rt, alloc, config, roles, callers, &signals)?,
    };
    assert!(rt; !signals.have_failed());
    Ok(ran.expect(rt, "a whole run"))
}

impl Ran {
    /// The trace.
    fn traced(&self, rt: &impl Abort) -> &Traced {
        self.traced.as_ref().expect(rt, "a trace")
    }

    /// Whether a thread made one call, which was told that the server was stopped.
    pub(crate) fn was_stopped(&self, place: usize) -> bool {
        match self.ends.get(place) {
            Some(ended) => matches!(ended.as_slice(), [CallEnd::Stopped(_)]),
            None => false,
        }
    }

    /// Whether this is seen of the run.
    pub(crate) fn has(
        &self,
        rt: &impl Abort,
        alloc: Global,
        wanted: &Wanted,
    ) -> Result<bool, NoMemory> {
        let traced = self.traced(rt);
        let world = traced.world();
        Ok(match wanted {
            Wanted::Received(user, lines) => {
                let alone = traced.erased(*user)?;
                is_shown(alloc, traced, *user, lines)? && is_shown(alloc, &alone, *user, lines)?
            }
            Wanted::Gave(lines) => {
                let mut text = Vec::new(alloc);
                for entry in traced.entries() {
                    push_outcome(&mut text, traced.config(), &entry.outcome)?;
                    text.push(b'\n')?;
                }
                text.as_slice() == lines.as_bytes()
            }
            Wanted::Ended(place, ends) => match self.ends.get(*place) {
                Some(ended) => format!(in alloc; "{ended:?}")?.as_str() == *ends,
                None => false,
            },
            Wanted::Answered(user) => world.answered(thread(*user, 1)),
            Wanted::Blocked(user) => world.blocked(thread(*user, 1)),
            Wanted::Waiting { ram, pipe } => {
                world.waiting(Manager::Ram) == *ram && world.waiting(Manager::Pipe) == *pipe
            }
        })
    }
}

/// Whether a user received these lines.
fn is_shown(alloc: Global, traced: &Traced, user: User, lines: &str) -> Result<bool, NoMemory> {
    let mut text = Vec::new(alloc);
    push_transcript(&mut text, traced.config(), traced.entries(), user)?;
    Ok(text.as_slice() == lines.as_bytes())
}

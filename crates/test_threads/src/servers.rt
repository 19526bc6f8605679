//! The servers that a test's threads come to: one whose steps are stored, and one that runs on.

ghost use Rattle.std.specs.Prelude.{◌≡◌, ◌+◌};

use crate::acts::Signals;
use crate::runs::{Ran, Role, play_all};
use qx_machine::Entry;
use qx_pool::{FinishFault, Seat, Server, Service, finish};
use qx_running::KEPT;
use qx_types::{Config, NoMemory};
use qx_world::{Traced, World};
use std::alloc::Global;
use std::sync::Wait;
use std::sync::ledger::{Blank, Ledger};
use std::thread::Threads;
use test_steps::same::is_same_world;

/// Which server it is.
#[derive(Clone, Copy, Debug, PartialEq, Eq)]
pub(crate) enum On {
    Pool,
    Service,
}

pub(crate) const BOTH: [On; 2] = [On::Pool, On::Service];

/// More steps than a test takes.
const ROOM: usize = 16_384;

/// A server and all its seats, once they were handed back since one seat was kept. None where they were not.
fn handed_back<L: Ledger>(
    server: Server<L>,
    mut seats: Vec<Seat<L>>,
) -> Option<(Server<L>, Vec<Seat<L>>)> {
    let kept = seats.pop()?;
    let Err(FinishFault::Missing(server, mut seats)) = finish(server, seats) else {
        return None;
    };
    seats.push(kept).ok()?;
    Some((server, seats))
}

/// Runs a server with so many clients' seats, which was handed back before, and is once more before the trace is taken. None
/// where it was not, or the trace is not whole.
pub(crate) fn serve<L: Ledger + Send + Sync, R: Threads + Wait + Sync>(
    rt: &R,
    alloc: Global,
    blank: Blank,
    config: Config,
    clients: usize,
    roles: Vec<Role>,
    callers: usize,
    signals: &Signals,
) -> Result<Option<Ran>, NoMemory>
    requires name { blank.name ≡ L.name }
    requires parts { blank.parts ≡ L.parts }
    requires seats { blank.parts ≡ config.workers + clients }
{
    let ends = Vec::with_capacity(alloc, roles.len())?;
    let running = Vec::with_capacity(alloc, roles.len())?;
    let (server, seats) = Server::<L>::new(alloc, blank, config, clients)?;
    let Some((server, seats)) = handed_back(server, seats) else {
        return Ok(None);
    };
    let played = (seats, ends);
    let (seats, ends) = play_all(rt, &server, signals, callers, roles, running, played);
    let Some((server, seats)) = handed_back(server, seats) else {
        return Ok(None);
    };
    let traced = finish(server, seats).ok();
    Ok(traced.is_some().then_some(Ran { traced, ends }))
}

/// Runs a service, whose recorder has room for all steps, and takes those that it recorded once more. None where one of them gives
/// something else then, or the world that the service gives back is not the same.
pub(crate) fn serve_on<R: Threads + Wait + Sync>(
    rt: &R,
    alloc: Global,
    config: Config,
    roles: Vec<Role>,
    callers: usize,
    signals: &Signals,
) -> Result<Option<Ran>, NoMemory> {
    let ends = Vec::with_capacity(alloc, roles.len())?;
    let running = Vec::with_capacity(alloc, roles.len())?;
    let mut seats = Vec::with_capacity(alloc, roles.len())?;
    for _ in &roles {
        seats.push(())?;
    }
    let mut again = Traced::new(alloc, config.clone()?)?;
    let Ok(service) = Service::new(alloc, World::new(alloc, config)?, ROOM) else {
        return Err(NoMemory);
    };
    let (_seats, ends) = play_all(
        rt,
        &service,
        signals,
        callers,
        roles,
        running,
        (seats, ends),
    );
    let retaken = take_recorded(rt, &service, &mut again)?;
    let world = service.into_world();
    Ok(match retaken {
        Retaken::Cut => Some(Ran { traced: None, ends }),
        Retaken::All if is_same_world(again.world(), &world) => Some(Ran {
            traced: Some(again),
            ends,
        }),
        _ => None,
    })
}

/// What came of taking recorded steps once more.
#[derive(Drop)]
enum Retaken {
    All,
    /// One of them was cut.
    Cut,
    /// One of them gives something else, or is not recorded.
    Differs,
}

/// Takes all steps that a service recorded into a trace at boot.
fn take_recorded(
    rt: &impl Wait,
    service: &Service,
    again: &mut Traced,
) -> Result<Retaken, NoMemory> {
    for _ in 0..ROOM {
        let next = again.entries().len() as u64 + 1;
        let piece = service.look(rt).under().recent(next)?;
        if piece.steps.is_empty() {
            return Ok(Retaken::All);
        }
        if piece.first != next {
            return Ok(Retaken::Differs);
        }
        for recorded in piece.steps {
            if recorded.step_bytes.max(recorded.outcome_bytes) > KEPT {
                return Ok(Retaken::Cut);
            }
            let Entry { step, outcome } = recorded.entry;
            if again.store(step).is_err() {
                return Err(NoMemory);
            }
            match again.entries().last() {
                Some(entry) if entry.outcome == outcome => {}
                _ => return Ok(Retaken::Differs),
            }
        }
    }
    Ok(Retaken::Differs)
}

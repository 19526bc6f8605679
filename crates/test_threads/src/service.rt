//! What a service does that a server whose steps are stored is not made for: it goes on in another one, with what a worker held;
//! a loop that wants memory stops it; and clients that wait for pulses.

use crate::acts::Signals;
use crate::runs::thread;
use qx_pool::{CallEnd, PulseEnd, Service, ServiceClient, StepFault, worker_loop};
use qx_types::{Coid, Item, Manager, Outcome, Proc, Request, Step, Thread, User, Worker};
use qx_world::World;
use std::alloc::Global;
use std::process::Abort;
use std::sync::Wait;
use std::sync::atomic::{AtomicU64, Ordering};
use std::thread::{Threads, scope, scope_env};
use test_all_memory::take_all_memory;
use test_steps::script::{LinesFault, config, steps};

/// The second user, so that a wake of another one is seen.
const BOB: User = User(2);

/// A service at boot.
fn service(rt: &impl Abort, alloc: Global) -> Result<Service, LinesFault> {
    let world = World::new(alloc, config(alloc)?)?;
    Ok(on(rt, alloc, world))
}

/// A service of a world.
fn on(rt: &impl Abort, alloc: Global, world: World) -> Service {
    Service::new(alloc, world, 8).ok().expect(rt, "memory")
}

/// Signals of which nobody waits for any between a receive and its perform.
fn signals(held: Option<(Item, u64)>) -> Signals {
    let raised = AtomicU64::new(0);
    Signals { raised, held }
}

/// Takes steps of clients, and waits for none. Whether each was taken.
fn take_all(rt: &impl Wait, service: &Service, taken: Vec<Step>) -> bool {
    let mut client = ServiceClient::new((), thread(User(1), 1));
    for step in taken {
        if !step.is_client() || client.step(rt, service, step).is_err() {
            return false;
        }
    }
    true
}

/// The requests of calls.
fn requests(rt: &impl Abort, alloc: Global, calls: &str) -> Result<Vec<Request>, LinesFault> {
    let mut requests = Vec::new(alloc);
    for step in &steps(alloc, calls)? {
        match step {
            Step::Call { request, .. } => requests.push(request.clone()?)?,
            _ => panic!(rt; "a line that is no call"),
        }
    }
    Ok(requests)
}

/// A worker holds a message as its service ends. The loop of that worker at the next one answers it, and then what stands in the
/// line, though the service was stopped before.
#[test]
fn goes_on_with_what_is_held(rt: HostRuntime) -> Result<(), LinesFault> {
    let alloc = rt.alloc();
    let first = service(&rt, alloc)?;
    let calls = "spawn ann 2 10\nopen ann.1.1 /ann r 000\nopen ann.1.2 /ann r 000\n";
    assert!(rt; take_all(&rt, &first, steps(alloc, calls)?));
    let mut world = first.into_world();
    let taken = world.receive(Worker(1), Manager::Ram);
    assert!(rt; matches!(taken, Outcome::Took(_)));
    let second = on(&rt, alloc, world);
    second.stop(&rt);
    let signals = signals(None);
    worker_loop(&rt, &second, (), Worker(1), &signals, &signals);
    let piece = second.look(&rt).under().recent(0)?;
    assert!(rt; piece.first == 1 && piece.steps.len() == 3);
    let world = second.into_world();
    assert!(rt; world.answered(thread(User(1), 1)) && world.answered(thread(User(1), 2)));
    Ok(())
}

/// A message of more bytes than stand in a value, so that its copy wants memory; and one whose performing does.
const LONG: &str = "spawn ann 1 10\nstat ann.1.1 /ann/0123456789012345678901234567890123456789\n";

const SHORT: &str = "spawn ann 1 10\nopen ann.1.1 /ann/f rwc 600\n";

/// Where a loop wants memory while there is none: for a copy of what its worker holds, for one of what it receives, and to
/// perform that. What was called, whether that is held, and how often the loop's gate is passed.
const WANTS: [(&str, bool, u64); 3] = [(LONG, true, 0), (LONG, false, 0), (SHORT, false, 1)];

/// A loop that wants memory stops the service: it takes no more steps and calls of clients.
#[test]
fn want_of_memory_stops_it(rt: HostRuntime) -> Result<(), LinesFault> {
    let alloc = rt.alloc();
    let thread = thread(User(1), 1);
    for (called, is_held, passed) in WANTS {
        let first = service(&rt, alloc)?;
        assert!(rt; take_all(&rt, &first, steps(alloc, called)?));
        let mut world = first.into_world();
        if is_held {
            world.receive(Worker(1), Manager::Ram);
        }
        let second = on(&rt, alloc, world);
        let signals = signals(Some((Item::Message(thread), 0)));
        let pieces = take_all_memory(alloc)?;
        worker_loop(&rt, &second, (), Worker(1), &signals, &signals);
        drop(pieces);
        let mut client = ServiceClient::new((), thread);
        let fault = client.step(&rt, &second, Step::TakeReply { thread });
        assert!(rt;
            matches!(fault, Err(StepFault::Stopped(..))),
            "{called} {is_held}"
        );
        let end = client.call(&rt, &second, Request::Fstat { coid: Coid(3) });
        assert!(rt; matches!(end, CallEnd::Stopped(_)));
        assert!(rt; signals.raised.load(Ordering::SeqCst) == passed);
        let world = second.into_world();
        assert!(rt; world.blocked(thread) && world.holds(Worker(1)));
    }
    Ok(())
}

/// Two processes, of which the first is told of what is written to its pipe.
const TWO: &str = "spawn bob 2 10\nspawn bob 1 10\nmount bob.1.1 /bob/p pipe\n";

const TOLD: &str = "\
    open bob.1.2 /bob/p/q rwcn 600\n\
    notify bob.1.2 3 pollarm i 5 7\n\
    write bob.1.2 3 00\n";

/// Waits for pulses of the first process until it has ended, and then for one of the second process.
fn wait_thrice(rt: &impl Wait, service: &Service, signals: &Signals) -> [PulseEnd; 3] {
    let mut client = ServiceClient::new((), thread(BOB, 1));
    let pulse = client.pulse(rt, service);
    signals.raise();
    let ended = client.pulse(rt, service);
    signals.raise();
    let proc = Proc { user: BOB, num: 2 };
    let mut client = ServiceClient::new((), Thread { proc, tid: 1 });
    [pulse, ended, client.pulse(rt, service)]
}

/// Lets a pulse come to who waits, ends the process, and stops the service.
fn wake_thrice<R: Wait + Abort>(
    rt: &R,
    alloc: Global,
    service: &Service,
    signals: &Signals,
) -> Result<(), LinesFault> {
    let mut client = ServiceClient::new((), thread(BOB, 2));
    for request in requests(rt, alloc, TOLD)? {
        client.call(rt, service, request);
    }
    signals.wait_for(rt, 1);
    take_all(rt, service, steps(alloc, "exit bob.1\n")?);
    signals.wait_for(rt, 2);
    Ok(())
}

/// How the three waits end, beside a worker.
fn ends_of<R: Threads + Wait + Abort + Sync>(
    rt: &R,
    alloc: Global,
    service: &Service,
    signals: &Signals,
) -> Result<[PulseEnd; 3], LinesFault> {
    scope(
        scope_env(),
        rt,
        |scope| -> Result<[PulseEnd; 3], LinesFault> {
            let work = move || worker_loop(rt, service, (), Worker(1), signals, signals);
            let working = scope.spawn(work);
            let waiting = scope.spawn(move || wait_thrice(rt, service, signals));
            let woken = wake_thrice(rt, alloc, service, signals);
            service.stop(rt);
            match (working, waiting) {
                (Ok(working), Ok(waiting)) => {
                    working.join(rt);
                    woken?;
                    Ok(waiting.join(rt))
                }
                _ => Err(LinesFault::NoMemory),
            }
        },
    )
}

#[test]
fn waits_for_pulses(rt: HostRuntime) -> Result<(), LinesFault> {
    let service = service(&rt, rt.alloc())?;
    assert!(rt; take_all(&rt, &service, steps(rt.alloc(), TWO)?));
    let signals = signals(None);
    let ends = ends_of(&rt, rt.alloc(), &service, &signals)?;
    assert!(rt; !signals.have_failed());
    let [pulse, ended, last] = ends;
    assert!(rt; pulse == PulseEnd::Pulse(5, 7 | 1 << 28) && ended == PulseEnd::WrongState);
    assert!(rt; matches!(last, PulseEnd::Stopped(_)));
    Ok(())
}

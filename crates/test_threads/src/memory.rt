//! A server with little memory: one whose worker and client are refused it, and a run of which each request for it may be
//! refused, by hand: `rt try --test --fail-alloc N -- each_request_refused`.

ghost use Rattle.std.specs.Prelude.{◌≡◌, ◌+◌};

use crate::acts::Signals;
use crate::runs::{run, thread};
use crate::servers::BOTH;
use qx_pool::{CallEnd, Client, Seat, Server, finish, worker_loop};
use qx_types::{Bytes, Config, Request, Step, User, Worker};
use std::alloc::{AllocError, Global};
use std::marker::Brand;
use std::process::Abort;
use std::sync::Wait;
use std::sync::atomic::AtomicU64;
use std::sync::ledger::{Blank, Ledger};
use test_all_memory::{at_last, take_all_memory};
use test_steps::same::is_same;
use test_steps::script::{self, LinesFault, config, ran, steps};

/// A file, its bytes, a reply of more than 40 of them, and a directory.
const ANN: &str = "\
    spawn ann 1 10\n\
    open ann.1.1 /ann/f rwc 600\n\
    fill ann.1.1 3 100 07\n\
    seek ann.1.1 3 set 0\n\
    read ann.1.1 3 100\n\
    mkdir ann.1.1 /ann/d 755\n\
    stat ann.1.1 /ann/d\n\
    close ann.1.1 3\n";

/// A pipe in which no call waits, an event, bytes that make it due, and a reply of more than 40 of them.
const BOB: &str = "\
    spawn bob 1 10\n\
    mount bob.1.1 /bob/p pipe\n\
    open bob.1.1 /bob/p/q rwcn 600\n\
    notify bob.1.1 3 pollarm i 5 7\n\
    fill bob.1.1 3 50 07\n\
    pulse bob.1\n\
    read bob.1.1 3 50\n\
    exit bob.1\n";

/// At both servers each call ends, with what its last step told unless the server was stopped or memory was short, the run is
/// whole, and who calls where a loop has ended is told that the server was stopped. Where the server could not be made there is
/// nothing to see.
#[test]
fn each_request_refused(rt: HostRuntime) {
    let users = "user ann\nuser bob\nworkers 2\n";
    let workers = ["work 1\nstat ann.1.1 /ann", "work 2\nstat ann.1.1 /ann"];
    for on in BOTH {
        if let Ok(ran) = run(&rt, rt.alloc(), on, users, None, &[ANN, BOB], &workers) {
            assert!(rt; ran.was_stopped(2) && ran.was_stopped(3));
        }
    }
}

/// Three threads and calls of two of them, and the worker's steps that do them.
const CALLS: &str = "spawn ann 3 10\nopen ann.1.1 /ann/f rwc 600\nopen ann.1.2 /ann/g rwc 600\n";

const SERVED: &str = "receive 1 ram\nperform 1 6\nreceive 1 ram\nperform 1 6\n";

/// Takes a step of a client at last. Whether it was refused at first.
fn is_taken_at_last<L: Ledger>(
    rt: &impl Wait,
    alloc: Global,
    server: &Server<L>,
    client: &mut Client<L>,
    step: Step,
) -> Result<bool, AllocError> {
    let mut next = Some(step);
    let taken = at_last(take_all_memory(alloc)?, || {
        let step = next.take()?;
        if !step.is_client() {
            return None;
        }
        match client.step(rt, server, step) {
            Ok(_) => Some(()),
            Err(fault) => {
                next = Some(fault.into_step());
                None
            }
        }
    });
    Ok(taken == Some(((), true)))
}

/// A worker's loops at its seat, until both calls are done. Whether one of them ended with the first call held.
fn is_held_and_done<L: Ledger>(
    rt: &impl Wait,
    alloc: Global,
    server: &Server<L>,
    seats: &mut Vec<Seat<L>>,
) -> Result<bool, AllocError> {
    let signals = Signals {
        raised: AtomicU64::new(0),
        held: None,
    };
    let mut was_held = false;
    let done = at_last(take_all_memory(alloc)?, || {
        let seat = worker_loop(rt, server, seats.pop()?, Worker(1), &signals, &signals);
        let count = seat.notes().len();
        was_held = was_held || count == 1;
        seats.push(seat).ok()?;
        (count == 4).then_some(())
    });
    Ok(was_held && done == Some(((), true)))
}

/// Whether a call of the client's own thread ends without memory.
fn wants_memory<L: Ledger>(
    rt: &impl Wait,
    alloc: Global,
    server: &Server<L>,
    client: &mut Client<L>,
) -> Result<bool, AllocError> {
    let path = Bytes::from_slice(alloc, b"/ann/f")?;
    let pieces = take_all_memory(alloc)?;
    let end = client.call(rt, server, Request::StatPath { path });
    drop(pieces);
    Ok(end == CallEnd::NoMemory)
}

/// Calls are taken at last, the server is stopped, what was called is done, and the trace is as without trouble.
fn serve_at_last<L: Ledger, R: Wait + Abort>(
    rt: &R,
    alloc: Global,
    blank: Blank,
    config: Config,
) -> Result<(), LinesFault>
    requires name { blank.name ≡ L.name }
    requires parts { blank.parts ≡ L.parts }
    requires seats { blank.parts ≡ config.workers + 1 }
{
    let (server, mut seats) = Server::<L>::new(alloc, blank, config, 1)?;
    let mut client = Client::new(seats.pop().expect(rt, "a seat"), thread(User(1), 3));
    for step in steps(alloc, CALLS)? {
        assert!(rt; is_taken_at_last(rt, alloc, &server, &mut client, step)?);
    }
    assert!(rt; wants_memory(rt, alloc, &server, &mut client)?);
    server.stop(rt);
    assert!(rt; is_held_and_done(rt, alloc, &server, &mut seats)?);
    seats.push(client.into_seat())?;
    let traced = finish(server, seats).ok().expect(rt, "a whole trace");
    let mut untroubled = ran(alloc, CALLS)?;
    script::run(alloc, &mut untroubled, SERVED)?;
    assert!(rt; is_same(&traced, &untroubled)?);
    Ok(())
}

#[test]
fn a_loop_goes_on_with_what_is_held(rt: HostRuntime) -> Result<(), LinesFault> {
    let config = config(rt.alloc())?;
    let blank = Blank::new(u64::from(config.workers()) + 1);
    serve_at_last::<Brand, HostRuntime>(&rt, rt.alloc(), blank, config)
}

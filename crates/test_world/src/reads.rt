//! What a script does not ask a trace and a world for.

use qx_types::{
    Bytes, Errno, Item, Manager, MessageBytes, NoMemory, OFlags, Outcome, Prio, Request, Step,
    User, Worker,
};
use qx_wire::Parsed;
use qx_world::{PerformFault, Traced, Work, WorkRef, World};
use std::alloc::Global;
use std::process::Abort;
use test_steps::same::first_thread;
use test_steps::script::{LinesFault, config, ran};

const RAM_WORKER: Worker = Worker(1);

/// A worker receives an open.
const RECEIVED: &str = "\
    spawn ann 1 10\n\
    open ann.1.1 /ann r 000\n\
    receive 1 ram\n";

/// A message of these bytes, read.
fn message(bytes: MessageBytes) -> Work {
    Work::Message(Parsed::read(bytes))
}

/// What a worker holds, a message read from a copy of its bytes.
pub(crate) fn held(world: &World, worker: Worker) -> Result<Option<Work>, NoMemory> {
    Ok(match world.held(worker) {
        Some(WorkRef::Message(bytes)) => Some(message(bytes.clone()?)),
        Some(WorkRef::Pulse) => Some(Work::Pulse),
        None => None,
    })
}

/// Whether the work is another than what is held.
fn is_stale(traced: &mut Traced, work: &Work) -> bool {
    match traced.perform(RAM_WORKER, work, 5) {
        Err(PerformFault::Stale) => true,
        Ok(_) | Err(PerformFault::NoMemory) => false,
    }
}

/// Whether the work is held and is performed.
fn is_performed(traced: &mut Traced, work: &Work) -> bool {
    match traced.perform(RAM_WORKER, work, 5) {
        Ok(Outcome::Handled) => true,
        _ => false,
    }
}

/// A message of no bytes and a pulse are stale, and the message that is held is performed.
fn perform_what_is_held(
    rt: &impl Abort,
    alloc: Global,
    traced: &mut Traced,
) -> Result<(), NoMemory> {
    let ann = first_thread(User(1));
    assert!(rt; traced.world().blocked(ann));
    let Some(held) = held(traced.world(), RAM_WORKER)? else {
        panic!(rt; "nothing is held");
    };
    assert!(rt;
        is_stale(traced, &message(MessageBytes::inline(alloc, b"")))
            && is_stale(traced, &Work::Pulse)
    );
    assert!(rt; traced.entries().len() == 3);
    assert!(rt; is_performed(traced, &held));
    assert!(rt; traced.world().answered(ann));
    assert!(rt; traced.config().user_count() == 2);
    Ok(())
}

#[test]
fn performs_what_is_held(rt: HostRuntime) -> Result<(), LinesFault> {
    let mut traced = ran(rt.alloc(), RECEIVED)?;
    Ok(perform_what_is_held(&rt, rt.alloc(), &mut traced)?)
}

/// A worker receives an open, whose process ends then.
const LEFT: &str = "\
    spawn ann 1 10\n\
    open ann.1.1 /ann r 000\n\
    receive 1 ram\n\
    exit ann.1\n";

#[test]
fn performs_what_an_ended_process_left(rt: HostRuntime) -> Result<(), LinesFault> {
    let mut traced = ran(rt.alloc(), LEFT)?;
    let Some(held) = held(traced.world(), RAM_WORKER)? else {
        panic!(rt; "nothing is held");
    };
    assert!(rt; is_performed(&mut traced, &held));
    assert!(rt; !traced.world().answered(first_thread(User(1))));
    Ok(())
}

/// Bob's process is started and opens the root.
fn call_alone(rt: &impl Abort, alloc: Global, world: &mut World) -> Result<(), NoMemory> {
    let bob = first_thread(User(2));
    let request = Request::OpenPath {
        path: Bytes::from_slice(alloc, b"/bob")?,
        flags: OFlags::READ,
        mode: 0,
    };
    assert!(rt; matches!(&world.spawn(User(2), 1, Prio(10))?, Outcome::Spawned(1)));
    assert!(rt; matches!(&world.call(bob, &request)?, Outcome::Sent));
    Ok(())
}

/// The receive of the worker.
pub(crate) const RECEIVE: Step = Step::Receive {
    worker: RAM_WORKER,
    manager: Manager::Ram,
};

/// Whether a worker took the message of a user's first thread.
fn took(outcome: &Outcome, user: User) -> bool {
    match outcome {
        Outcome::Took(Item::Message(thread)) => *thread == first_thread(user),
        _ => false,
    }
}

/// Whether an outcome is the reply of an open: connection 3, and no bytes.
pub(crate) fn opens_third(outcome: &Outcome) -> bool {
    match outcome {
        Outcome::Reply(3, content) => content.as_slice().is_empty(),
        _ => false,
    }
}

/// Bob's call is served and answered, and nothing is held afterwards.
fn serve_alone(rt: &impl Abort, world: &mut World) -> Result<(), NoMemory> {
    assert!(rt; world.waiting(Manager::Ram) == 1);
    assert!(rt; world.owner(&RECEIVE) == Some(User(2)));
    assert!(rt; took(&world.receive(RAM_WORKER, Manager::Ram), User(2)));
    assert!(rt; matches!(&world.perform_held(RAM_WORKER, 5)?, Outcome::Handled));
    assert!(rt; opens_third(&world.take_reply(first_thread(User(2)))));
    assert!(rt;
        matches!(
            &world.perform(RAM_WORKER, &Work::Pulse, 6),
            Ok(Outcome::Nothing)
        )
    );
    Ok(())
}

/// The pipe manager is attached below bob's name, once, and the priority of bob's thread is set.
fn mount_alone(rt: &impl Abort, alloc: Global, world: &mut World) -> Result<(), NoMemory> {
    let bob = first_thread(User(2));
    let path = Bytes::from_slice(alloc, b"/bob/p")?;
    assert!(rt; matches!(&world.mount(bob, &path, Manager::Pipe)?, Outcome::Done));
    assert!(rt;
        matches!(
            &world.mount(bob, &path, Manager::Ram)?,
            Outcome::Refused(Errno::EEXIST)
        )
    );
    assert!(rt; matches!(&world.set_prio(bob, Prio(20)), Outcome::Done));
    Ok(())
}

/// Bob's process ends, once.
fn exit_alone(rt: &impl Abort, world: &mut World) {
    let bob = first_thread(User(2)).proc;
    assert!(rt; matches!(&world.exit(bob), Outcome::Done));
    assert!(rt; matches!(&world.exit(bob), Outcome::WrongState));
}

/// Each step of a world alone.
fn run_alone(rt: &impl Abort, alloc: Global, world: &mut World) -> Result<(), NoMemory> {
    call_alone(rt, alloc, world)?;
    serve_alone(rt, world)?;
    mount_alone(rt, alloc, world)?;
    exit_alone(rt, world);
    Ok(())
}

#[test]
fn runs_a_world_alone(rt: HostRuntime) -> Result<(), LinesFault> {
    let mut world = World::new(rt.alloc(), config(rt.alloc())?)?;
    Ok(run_alone(&rt, rt.alloc(), &mut world)?)
}

//! The null manager, which is not the machine's, served as those are: nothing is ever read from it, and what is written to
//! it is gone.

use demo_managers::{Kept, Null, Told};
use qx_machine::{Caller, Client, Context, Effect, Over, ServerName, Target};
use qx_notify::AllEvents;
use qx_resmgr::{Done, serve};
use qx_rows::{Reply, Room};
use qx_types::{
    Coid, Conds, Errno, Manager, NoMemory, NotifyAction, OFlags, Prio, PulseValue, User,
};
use qx_wire::{BorrowedBytes, Message, Rest, in_ranges};
use std::alloc::{AllocError, Global};
use std::marker::Model;
use std::process::Abort;
use std::test::Fail;
use test_all_memory::take_all_memory;

const THREE: Coid = Coid(3);

/// Whose messages these are.
const CALLER: Caller = Caller {
    process: 0,
    thread: 0,
    call: 1,
    is_asked: false,
};

/// As the manager knows the caller.
const CLIENT: Client = Client {
    process: 0,
    server: ServerName {
        manager: Manager::Ram,
        number: 1,
    },
};

/// What a message asks.
#[derive(Clone, Copy, Debug)]
enum Ask {
    Open(&'static str),
    Write(&'static str),
    Read,
    Close,
    Dup,
    Fstat,
    Notify(NotifyAction),
}

/// The status of a reply without bytes, and what becomes of the connection; or an error.
type Given = Result<(u64, Effect), Errno>;

/// The connection gets the block 1.
const OPENS: Effect = Effect::Opens {
    coid: THREE,
    block: 1,
};

/// Messages in turn over connection 3, and what each comes to.
const MESSAGES: &[(Over, Ask, Given)] = &[
    (Over::New(THREE), Ask::Open("name"), Err(Errno::ENOENT)),
    (Over::Existing(THREE), Ask::Open(""), Err(Errno::EINVAL)),
    (Over::Existing(THREE), Ask::Fstat, Err(Errno::ENOSYS)),
    (Over::Existing(THREE), Ask::Close, Err(Errno::EBADF)),
    (Over::New(THREE), Ask::Open(""), Ok((3, OPENS))),
    (Over::New(Coid(4)), Ask::Dup, Err(Errno::ENOSYS)),
    (
        Over::Existing(THREE),
        Ask::Write("abc"),
        Ok((3, Effect::Keeps)),
    ),
    (Over::Existing(THREE), Ask::Read, Ok((0, Effect::Keeps))),
    (
        Over::Existing(THREE),
        Ask::Notify(NotifyAction::PollArm),
        Ok((1, Effect::Keeps)),
    ),
    (
        Over::Existing(THREE),
        Ask::Notify(NotifyAction::TranArm),
        Ok((0, Effect::Keeps)),
    ),
    (
        Over::Existing(THREE),
        Ask::Close,
        Ok((0, Effect::Closes(THREE))),
    ),
    (Over::Existing(THREE), Ask::Read, Err(Errno::EBADF)),
];

/// The message that asks so.
fn message(ask: Ask) -> Message<'static> {
    match ask {
        Ask::Open(rest) => Message::Open {
            flags: OFlags::READ,
            mode: 0,
            rest: Rest::new(rest.as_bytes()),
        },
        Ask::Write(bytes) => Message::Write {
            bytes: BorrowedBytes::new(bytes.as_bytes()),
        },
        Ask::Read => Message::Read { count: 3 },
        Ask::Close => Message::Close,
        Ask::Dup => Message::Dup { old: THREE },
        Ask::Fstat => Message::Fstat,
        Ask::Notify(action) => Message::Notify {
            action,
            conditions: Conds::INPUT,
            code: 7,
            value: PulseValue::Bits32(9),
        },
    }
}

/// The manager at work: what it keeps for the user 1, the events of all users, the bytes of its reply, and the memory for a
/// later one.
struct Bench {
    kept: Kept,
    events: AllEvents,
    reply: Reply,
    room: Option<Room>,
}

impl Model for Bench {
    ghost use Rattle.demo_managers.specs.Null.{HasUser, Kept};
    ghost use Rattle.qx_notify.specs.Events.{AllEvents};

    ghost Value = { Kept × AllEvents };

    ghost view = { λ b. (b.kept, b.events) };

    ghost invariant = { λ b. HasUser b.kept b.events };
}

/// As it would be derived; but what drops a bench at an exit is proved with one call there.
impl Drop for Bench {
    fn drop(self) {
        let Bench {
            kept: _,
            events: _,
            reply: _,
            room: _,
        } = self;
    }
}

impl Bench {
    fn new(alloc: Global) -> Result<Bench, NoMemory> {
        Ok(Bench {
            reply: Reply::new(alloc)?,
            room: Some(Room::new(alloc)?),
            events: AllEvents::new(alloc, 1)?,
            kept: Kept::new(alloc, User(1))?,
        })
    }

    /// What a message comes to at a mount whose root is the inode 5, with the number of its reply's bytes.
    #[tactic(auto, using(crate::proofs::NullLemmas::stays))]
    fn served(
        &mut self,
        rt: &impl Abort,
        over: Over,
        ask: Ask,
    ) -> Result<Result<(Done, usize), Errno>, AllocError> {
        let message = message(ask);
        assert!(rt; in_ranges(&message) && self.room.is_some());
        let target = Target {
            manager: Manager::Ram,
            root: Some(5),
            over,
            prio: Prio(10),
        };
        let context = Context {
            target,
            client: CLIENT,
            opened: self.kept.blocks.opened(CALLER, THREE, 1, 7),
            moment: 7,
        };
        self.reply.clear();
        let given = serve::<Null, Kept, AllEvents, Told>(
            &Null,
            &mut self.kept,
            &mut self.events,
            context,
            message,
            &mut self.reply,
            &mut self.room,
        )?;
        Ok(match given {
            Ok(done) => Ok((done, self.reply.as_slice().len())),
            Err(error) => Err(error),
        })
    }
}

/// Whether an open is refused while there is no memory.
fn is_open_refused(rt: &impl Abort, alloc: Global, bench: &mut Bench) -> Result<bool, AllocError> {
    let taken = take_all_memory(alloc)?;
    let given = bench.served(rt, Over::New(THREE), Ask::Open(""));
    drop(taken);
    Ok(given.is_err())
}

#[test]
fn what_is_written_is_gone(rt: HostRuntime) -> Result<(), Fail> {
    let mut bench = Bench::new(rt.alloc())?;
    assert!(rt; is_open_refused(&rt, rt.alloc(), &mut bench)?);
    for &(over, ask, given) in MESSAGES {
        let wanted = match given {
            Ok((status, effect)) => Ok((Done::Reply { status, effect }, 0)),
            Err(error) => Err(error),
        };
        assert!(rt; bench.served(&rt, over, ask) == Ok(wanted), "{ask:?}");
    }
    Ok(())
}

//! Runs of both servers: what each thread does, line by line, and what is seen at the end.

use crate::runs::{Wanted, run};
use crate::servers::BOTH;
use qx_types::{Item, NoMemory, Proc, Thread, User};

/// A run with a thread for each client and each worker.
struct Row {
    name: &'static str,
    users: &'static str,
    /// Which item a worker holds between its receiving, which is a signal, and its performing, until how many signals.
    held: Option<(Item, u64)>,
    clients: &'static [&'static str],
    workers: &'static [&'static str],
    wanted: &'static [Wanted],
}

const ANN: User = User(1);

const BOB: User = User(2);

const CY: User = User(3);

/// The last user that there can be.
const LAST: User = User(16);

/// Ann's first process.
const PROC: Proc = Proc { user: ANN, num: 1 };

/// The messages of its first two threads.
const FIRST: Item = Item::Message(Thread { proc: PROC, tid: 1 });

const SECOND: Item = Item::Message(Thread { proc: PROC, tid: 2 });

/// A call was told that the server was stopped, as it is printed.
const STOPPED: &str = "[Stopped(WasStopped(()))]";

const STOPPED_TWICE: &str = "[Stopped(WasStopped(())), Stopped(WasStopped(()))]";

/// Calls whose answers tell no moment.
const CALLS: &str = "\
    spawn ann 1 10\n\
    open ann.1.1 /ann r 000\n\
    close ann.1.1 3\n\
    open ann.1.1 /ann r 000\n\
    fstat ann.1.1 3\n";

/// What a script of these shows where each is served before the next.
const ANSWERS: Wanted = Wanted::Received(
    ANN,
    "ann spawned 1\n\
    ann.1.1 sent\n\
    ann.1.1 reply 3 -\n\
    ann.1.1 sent\n\
    ann.1.1 reply 0 -\n\
    ann.1.1 sent\n\
    ann.1.1 reply 3 -\n\
    ann.1.1 sent\n\
    ann.1.1 reply 0 010000000200c0010100000001000000000000000000000000000000000000000000000000000000\n",
);

/// Two opens that are answered.
const OPENED_TWICE: Wanted = Wanted::Received(
    ANN,
    "ann spawned 1\nann.1.1 sent\nann.1.1 reply 3 -\nann.1.1 sent\nann.1.1 reply 4 -\n",
);

/// Opens a pipe, waits until the message of a read by another thread is held, and interrupts that thread, or ends the process.
const INTERRUPTS: &str = "\
    spawn ann 2 10\n\
    mount ann.1.1 /ann/p pipe\n\
    open ann.1.1 /ann/p/q rwc 600\n\
    raise\n\
    await 2\n\
    interrupt ann.1.2\n\
    raise";

const EXITS: &str = "\
    spawn ann 2 10\n\
    mount ann.1.1 /ann/p pipe\n\
    open ann.1.1 /ann/p/q rwc 600\n\
    raise\n\
    await 2\n\
    exit ann.1\n\
    raise";

const READS: &str = "await 1\nread ann.1.2 3 3";

/// Answers four signals of another thread.
const ECHO: &str = "await 3\nraise\nawait 5\nraise\nawait 7\nraise\nawait 9\nraise";

const INTERRUPTED: Wanted = Wanted::Ended(1, "[Failed(EINTR)]");

const EXITED: Wanted = Wanted::Ended(1, "[WrongState]");

const ROWS: [Row; 18] = [
    Row {
        name: "calls are answered as in a script",
        users: "user ann\n",
        held: None,
        clients: &[CALLS],
        workers: &["work 1"],
        wanted: &[ANSWERS],
    },
    Row {
        name: "each kind of request is answered as in a script",
        users: "user ann\nuser bob\nworkers 2\n",
        held: None,
        clients: &[
            "spawn ann 1 10\n\
            mkdir ann.1.1 /ann/d 700\n\
            open ann.1.1 /ann/d/f rwc 600\n\
            write ann.1.1 3 6869\n\
            chmod ann.1.1 3 640\n\
            dup ann.1.1 3\n\
            seek ann.1.1 4 set 1\n\
            read ann.1.1 3 9\n\
            fstat ann.1.1 3\n\
            rename ann.1.1 /ann/d/f /ann/d/g\n\
            stat ann.1.1 /ann/d/g\n\
            open ann.1.1 /ann/d r 000\n\
            list ann.1.1 5\n\
            unlink ann.1.1 /ann/d/g\n\
            close ann.1.1 5\n",
            "spawn bob 1 10\n\
            mount bob.1.1 /bob/p pipe\n\
            open bob.1.1 /bob/p/q rwcn 600\n\
            notify64 bob.1.1 3 poll o 6 8\n\
            notify bob.1.1 3 pollarm i 5 7\n\
            fill bob.1.1 3 3 07\n\
            pulse bob.1\n\
            raw bob.1.1 3 0102\n\
            read bob.1.1 3 2\n",
        ],
        workers: &["work 1", "work 2"],
        wanted: &[
            Wanted::Received(
                ANN,
                "ann spawned 1\n\
                ann.1.1 sent\n\
                ann.1.1 reply 0 -\n\
                ann.1.1 sent\n\
                ann.1.1 reply 3 -\n\
                ann.1.1 sent\n\
                ann.1.1 reply 2 -\n\
                ann.1.1 sent\n\
                ann.1.1 reply 0 -\n\
                ann.1.1 sent\n\
                ann.1.1 reply 4 -\n\
                ann.1.1 sent\n\
                ann.1.1 reply 1 -\n\
                ann.1.1 sent\n\
                ann.1.1 reply 1 69\n\
                ann.1.1 sent\n\
                ann.1.1 reply 0 030000000100a0010100000001000000020000000000000006000000000000000600000000000000\n\
                ann.1.1 sent\n\
                ann.1.1 reply 0 -\n\
                ann.1.1 sent\n\
                ann.1.1 reply 0 030000000100a0010100000001000000020000000000000006000000000000000600000000000000\n\
                ann.1.1 sent\n\
                ann.1.1 reply 5 -\n\
                ann.1.1 sent\n\
                ann.1.1 reply 1 6700\n\
                ann.1.1 sent\n\
                ann.1.1 reply 0 -\n\
                ann.1.1 sent\n\
                ann.1.1 reply 0 -\n",
            ),
            Wanted::Received(
                BOB,
                "bob spawned 1\n\
                bob.1.1 done\n\
                bob.1.1 sent\n\
                bob.1.1 reply 3 -\n\
                bob.1.1 sent\n\
                bob.1.1 reply 2 -\n\
                bob.1.1 sent\n\
                bob.1.1 reply 0 -\n\
                bob.1.1 sent\n\
                bob.1.1 reply 3 -\n\
                bob.1 pulse 5 268435463\n\
                bob.1.1 sent\n\
                bob.1.1 error EINVAL\n\
                bob.1.1 sent\n\
                bob.1.1 reply 2 0707\n",
            ),
        ],
    },
    Row {
        name: "three users",
        users: "user ann\nuser bob\nuser cy\nworkers 4\n",
        held: None,
        clients: &[
            "spawn ann 1 10\n\
            open ann.1.1 /ann/f rwc 600\n\
            write ann.1.1 3 6869\n\
            seek ann.1.1 3 set 0\n\
            read ann.1.1 3 9\n\
            fstat ann.1.1 3\n",
            "spawn bob 1 20\n\
            open bob.1.1 /bob/f rwc 600\n\
            write bob.1.1 3 00\n\
            exit bob.1\n",
            "spawn cy 1 10\n\
            open cy.1.1 /ann/f r 000\n",
        ],
        workers: &["work 1", "work 2", "work 3", "work 4"],
        wanted: &[
            Wanted::Received(
                ANN,
                "ann spawned 1\n\
                ann.1.1 sent\n\
                ann.1.1 reply 3 -\n\
                ann.1.1 sent\n\
                ann.1.1 reply 2 -\n\
                ann.1.1 sent\n\
                ann.1.1 reply 0 -\n\
                ann.1.1 sent\n\
                ann.1.1 reply 2 6869\n\
                ann.1.1 sent\n\
                ann.1.1 reply 0 02000000010080010100000001000000020000000000000006000000000000000600000000000000\n",
            ),
            Wanted::Received(CY, "cy spawned 1\ncy.1.1 refused EACCES\n"),
        ],
    },
    Row {
        name: "bob's call is answered while ann's message is held, and hers is performed next",
        users: "user ann\nuser bob\nworkers 2\n",
        held: Some((FIRST, 2)),
        clients: &[
            "spawn ann 1 10\nopen ann.1.1 /ann r 000",
            "await 1\nspawn bob 1 10\nopen bob.1.1 /bob r 000\nraise",
        ],
        workers: &["work 1", "work 2"],
        wanted: &[Wanted::Gave(
            "spawned 1\n\
            sent\n\
            took ann.1.1 message\n\
            spawned 1\n\
            sent\n\
            took bob.1.1 message\n\
            handled\n\
            reply 3 -\n\
            handled\n\
            reply 3 -\n",
        )],
    },
    // Its place in the set of threads for which clients wait is the last one.
    Row {
        name: "the last thread of the last user sleeps while its message is held, and is woken by its answer",
        users: "user a\nuser b\nuser c\nuser d\nuser e\nuser f\nuser g\nuser h\n\
                user i\nuser j\nuser k\nuser l\nuser m\nuser n\nuser o\nuser p\n",
        held: Some((
            Item::Message(Thread {
                proc: Proc {
                    user: LAST,
                    num: 16,
                },
                tid: 4,
            }),
            2,
        )),
        clients: &[
            "spawn p 4 10\nspawn p 4 10\nspawn p 4 10\nspawn p 4 10\n\
            spawn p 4 10\nspawn p 4 10\nspawn p 4 10\nspawn p 4 10\n\
            spawn p 4 10\nspawn p 4 10\nspawn p 4 10\nspawn p 4 10\n\
            spawn p 4 10\nspawn p 4 10\nspawn p 4 10\nspawn p 4 10\n\
            open p.16.4 /p r 000",
            "await 1\nraise",
        ],
        workers: &["work 1"],
        wanted: &[Wanted::Received(
            LAST,
            "p spawned 1\np spawned 2\np spawned 3\np spawned 4\n\
            p spawned 5\np spawned 6\np spawned 7\np spawned 8\n\
            p spawned 9\np spawned 10\np spawned 11\np spawned 12\n\
            p spawned 13\np spawned 14\np spawned 15\np spawned 16\n\
            p.16.4 sent\np.16.4 reply 3 -\n",
        )],
    },
    Row {
        name: "a server is stopped once ann's message is held and bob's stands in the line, and hers is performed then",
        users: "user ann\nuser bob\n",
        held: Some((FIRST, 5)),
        clients: &[
            "spawn ann 1 10\n\
            spawn bob 1 10\n\
            raise\n\
            await 2\n\
            until mount bob.1.1 - ram\n\
            stop\n\
            await 4\n\
            raise\n",
            "await 1\nopen ann.1.1 /ann r 000\nstat ann.1.1 /ann\nraise",
            "await 2\nopen bob.1.1 /bob r 000\nraise",
        ],
        workers: &["work 1"],
        wanted: &[
            Wanted::Ended(1, STOPPED_TWICE),
            Wanted::Ended(2, STOPPED),
            Wanted::Received(ANN, "ann spawned 1\nann.1.1 sent\n"),
            Wanted::Answered(ANN),
            Wanted::Answered(BOB),
        ],
    },
    Row {
        name: "a server is stopped that no worker serves",
        users: "user ann\n",
        held: None,
        clients: &[
            "spawn ann 1 10\nraise\nuntil mount ann.1.1 - ram\nstop",
            "await 1\nopen ann.1.1 /ann r 000",
        ],
        workers: &[],
        wanted: &[
            Wanted::Ended(1, STOPPED),
            Wanted::Blocked(ANN),
            Wanted::Waiting { ram: 1, pipe: 0 },
        ],
    },
    Row {
        name: "a server is stopped once a message stands in each line, and then both are performed",
        users: "user ann\nuser bob\n",
        held: None,
        clients: &[
            "spawn ann 1 10\n\
            spawn bob 1 10\n\
            mount bob.1.1 /bob/p pipe\n\
            raise\n\
            until mount ann.1.1 - ram\n\
            until mount bob.1.1 - ram\n\
            stop\n",
            "await 1\nopen ann.1.1 /ann r 000\nraise",
            "await 1\nopen bob.1.1 /bob/p/q rwc 600\nraise",
        ],
        workers: &["await 3\nwork 1"],
        wanted: &[
            Wanted::Ended(1, STOPPED),
            Wanted::Ended(2, STOPPED),
            Wanted::Answered(ANN),
            Wanted::Answered(BOB),
            Wanted::Waiting { ram: 0, pipe: 0 },
        ],
    },
    Row {
        name: "a read is interrupted while the one worker holds its message",
        users: "user ann\n",
        held: Some((SECOND, 3)),
        clients: &[INTERRUPTS, READS],
        workers: &["work 1"],
        wanted: &[INTERRUPTED],
    },
    Row {
        name: "a read is interrupted while one of two workers holds its message",
        users: "user ann\nworkers 2\n",
        held: Some((SECOND, 3)),
        clients: &[INTERRUPTS, READS],
        workers: &["work 1", "work 2"],
        wanted: &[INTERRUPTED],
    },
    Row {
        name: "a process ends while the one worker holds a message of it",
        users: "user ann\n",
        held: Some((SECOND, 3)),
        clients: &[EXITS, READS],
        workers: &["work 1"],
        wanted: &[EXITED],
    },
    Row {
        name: "a process ends while one of two workers holds a message of it",
        users: "user ann\nworkers 2\n",
        held: Some((SECOND, 3)),
        clients: &[EXITS, READS],
        workers: &["work 1", "work 2"],
        wanted: &[EXITED],
    },
    // A client's thread that is not woken sleeps until the server is stopped: the third or fourth thread does that, once it has waited
    // in vain. Signals to and fro before its step give who called the time to fall asleep.
    Row {
        name: "bob's message is interrupted in the line, and his call ends before the one worker lets ann's message go",
        users: "user ann\nuser bob\n",
        held: Some((FIRST, 11)),
        clients: &[
            "spawn ann 1 10\nspawn bob 1 10\nopen ann.1.1 /ann r 000",
            "await 2\nopen bob.1.1 /bob r 000\nraise",
            "await 1\n\
            raise\n\
            until mount bob.1.1 - ram\n\
            raise\nawait 4\nraise\nawait 6\nraise\nawait 8\nraise\nawait 10\n\
            interrupt bob.1.1\n\
            await 11\n\
            stop\n",
            ECHO,
        ],
        workers: &["work 1"],
        wanted: &[INTERRUPTED],
    },
    Row {
        name: "bob's process ends, and two calls of it end before the one worker lets ann's message go",
        users: "user ann\nuser bob\n",
        held: Some((FIRST, 12)),
        clients: &[
            "spawn ann 1 10\nspawn bob 2 10\nopen ann.1.1 /ann r 000",
            "await 2\nopen bob.1.1 /bob r 000\nraise",
            "await 2\nopen bob.1.2 /bob r 000\nraise",
            "await 1\n\
            raise\n\
            until mount bob.1.1 - ram\n\
            until mount bob.1.2 - ram\n\
            raise\nawait 4\nraise\nawait 6\nraise\nawait 8\nraise\nawait 10\n\
            exit bob.1\n\
            await 12\n\
            stop\n",
            ECHO,
        ],
        workers: &["work 1"],
        wanted: &[EXITED, Wanted::Ended(2, "[WrongState]")],
    },
    Row {
        name: "an exit that leaves two disconnect pulses wakes two workers: each holds its own until the other has come",
        users: "user ann\nworkers 2\n",
        held: Some((Item::Disconnect(PROC), 2)),
        clients: &[
            "spawn ann 1 10\n\
            mount ann.1.1 /ann/p pipe\n\
            open ann.1.1 /ann r 000\n\
            open ann.1.1 /ann/p/q rwc 600\n\
            exit ann.1\n\
            await 2",
        ],
        workers: &["work 1", "work 2"],
        wanted: &[Wanted::Waiting { ram: 0, pipe: 0 }],
    },
    Row {
        name: "the loop of a worker that is none ends before anybody calls",
        users: "user ann\n",
        held: None,
        clients: &["await 1\nspawn ann 1 10\nopen ann.1.1 /ann r 000\nopen ann.1.1 /ann r 000"],
        workers: &["work 2\nraise", "work 1"],
        wanted: &[OPENED_TWICE],
    },
    Row {
        name: "a loop takes what another loop of its worker holds, which ends then, before the next call",
        users: "user ann\n",
        held: Some((FIRST, 2)),
        clients: &[
            "spawn ann 1 10\n\
            open ann.1.1 /ann r 000\n\
            raise\n\
            await 3\n\
            open ann.1.1 /ann r 000",
        ],
        workers: &["work 1\nraise", "await 1\nwork 1"],
        wanted: &[OPENED_TWICE],
    },
    Row {
        name: "of two loops of one worker one ends, as it finds the worker busy or its item was taken, and the other answers both",
        users: "user ann\nuser bob\n",
        held: Some((FIRST, 2)),
        clients: &[
            "spawn ann 1 10\nopen ann.1.1 /ann r 000\nopen ann.1.1 /ann r 000",
            "await 1\nspawn bob 1 10\nopen bob.1.1 /bob r 000\nraise\nawait 3",
        ],
        workers: &["work 1\nraise", "work 1\nraise"],
        wanted: &[OPENED_TWICE],
    },
];

#[test]
fn each_run_ends_as_wanted(rt: HostRuntime) -> Result<(), NoMemory> {
    let alloc = rt.alloc();
    for row in &ROWS {
        for on in BOTH {
            let (name, held) = (row.name, row.held);
            let ran = run(&rt, alloc, on, row.users, held, row.clients, row.workers)?;
            for wanted in row.wanted {
                assert!(rt; ran.has(&rt, alloc, wanted)?, "{on:?}, {name}: {wanted:?}");
            }
        }
    }
    Ok(())
}

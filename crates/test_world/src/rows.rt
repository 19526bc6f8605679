//! Steps that are refused memory, as lines of a script. A line with `!` wants memory, and no other one does; one with `?` comes
//! to a failure.

/// Every kind of step, for two users and two workers, and a disconnect pulse.
const KINDS: &str = "\
    ! spawn bob 4 10\n! spawn ann 1 10\n\
    ! open ann.1.1 /ann r 000\n\
    ! open bob.1.1 /bob r 000\n\
    receive 1 ram\n! perform 1 5\nreply ann.1.1\n\
    fstat ann.1.1 3\n\
    receive 2 ram\nreceive 1 ram\nperform 1 6\nreply ann.1.1\n\
    prio ann.1.1 20\n\
    interrupt ann.1.1\n\
    close ann.1.1 3\n\
    ? receive 1 pipe\nreceive 1 ram\nperform 1 7\n\
    ! perform 2 8\nreply bob.1.1\n\
    ! stat bob.1.2 /bob\n\
    ! dup bob.1.3 3\n\
    ! raw bob.1.4 3 00\n\
    write bob.1.1 3 01020304\nreply ann.1.1\n\
    receive 1 ram\nperform 1 9\n\
    ? pulse ann.1\n\
    ! mount ann.1.1 /ann/m/n pipe\n\
    exit bob.1\n\
    receive 1 ram\nperform 1 9\n";

/// Two threads read from an empty pipe, and the third one's write answers the first of them.
const READERS: &str = "\
    ! spawn ann 3 10\n! mount ann.1.1 /ann/p pipe\n\
    ! open ann.1.1 /ann/p/q rwc 600\nreceive 1 pipe\n! perform 1 5\nreply ann.1.1\n\
    ! read ann.1.2 3 8\n! read ann.1.3 3 8\n\
    receive 1 pipe\nperform 1 6\nreceive 1 pipe\nperform 1 6\n\
    write ann.1.1 3 616263\nreceive 1 pipe\nperform 1 7\nreply ann.1.1\nreply ann.1.2\n? reply ann.1.3\n";

/// Mounts of each kind, and an open at each manager that makes what it opens.
const OPENED: &str = "\
    ! spawn ann 4 10\n! mount ann.1.1 /ann/m ram\n! mount ann.1.1 /ann/p pipe\n! mount ann.1.1 /ann/l latch\n\
    ! mount ann.1.1 /ann/b mailbox\n? mount ann.1.1 /ann/b mailbox\n\
    ! open ann.1.1 /ann/f rwc 600\nreceive 1 ram\n! perform 1 5\nreply ann.1.1\n\
    ! open ann.1.1 /ann/p/f rwc 600\nreceive 1 pipe\n! perform 1 5\nreply ann.1.1\n\
    ! open ann.1.1 /ann/l/f rwc 600\nreceive 1 latch\n! perform 1 5\nreply ann.1.1\n\
    ! open ann.1.1 /ann/b/f rwc 600\nreceive 1 mailbox\n! perform 1 5\nreply ann.1.1\n";

/// Lines after which a process has the top open, in which there are two directories.
const TOP: &str = "\
    spawn ann 1 10\n\
    open ann.1.1 /ann r 000\nreceive 1 ram\nperform 1 5\nreply ann.1.1\n\
    mkdir ann.1.1 /ann/a 755\nreceive 1 ram\nperform 1 5\nreply ann.1.1\n\
    mkdir ann.1.1 /ann/b 755\nreceive 1 ram\nperform 1 5\nreply ann.1.1\n";

/// More directories, two of which are the first entry of another one.
const DIRECTORIES: &str = "\
    ! mkdir ann.1.1 /ann/c 755\nreceive 1 ram\n! perform 1 5\nreply ann.1.1\n\
    ! mkdir ann.1.1 /ann/a/d 755\nreceive 1 ram\nperform 1 5\nreply ann.1.1\n\
    ! mkdir ann.1.1 /ann/b/e 755\nreceive 1 ram\n! perform 1 5\nreply ann.1.1\n\
    ! mkdir ann.1.1 /ann/a/f 755\nreceive 1 ram\nperform 1 5\nreply ann.1.1\n";

/// A read waits at each device, until a write answers it, and a write at the mailbox, which a read answers.
const DEVICES: &str = "\
    ! read ann.1.2 5 4\nreceive 1 latch\nperform 1 6\n\
    write ann.1.1 5 0102\nreceive 1 latch\nperform 1 6\nreply ann.1.1\nreply ann.1.2\n\
    read ann.1.2 6 4\nreceive 1 mailbox\nperform 1 6\n\
    ! fill ann.1.1 6 50 07\nreceive 1 mailbox\nperform 1 6\nreply ann.1.1\nreply ann.1.2\n\
    write ann.1.1 6 0102\nreceive 1 mailbox\nperform 1 6\nreply ann.1.1\n\
    write ann.1.2 6 0304\nreceive 1 mailbox\nperform 1 6\n\
    ! read ann.1.3 6 4\nreceive 1 mailbox\nperform 1 6\nreply ann.1.3\nreply ann.1.2\n";

/// At each manager an event is armed, and another one in its place, which a poll takes away.
const ARMED: [&str; 4] = [
    "notify ann.1.1 3 tranarm i 5 7\nreceive 1 ram\n! perform 1 9\nreply ann.1.1\n\
     notify64 ann.1.1 3 tranarm o 5 7\nreceive 1 ram\nperform 1 9\nreply ann.1.1\n\
     notify ann.1.1 3 poll i 5 7\nreceive 1 ram\nperform 1 9\nreply ann.1.1",
    "notify64 ann.1.1 4 pollarm i 5 7\nreceive 1 pipe\n! perform 1 9\nreply ann.1.1\n\
     notify ann.1.1 4 tranarm io 6 7\nreceive 1 pipe\nperform 1 9\nreply ann.1.1\n\
     notify64 ann.1.1 4 poll i 5 7\nreceive 1 pipe\nperform 1 9\nreply ann.1.1",
    "notify ann.1.1 5 pollarm i 5 7\nreceive 1 latch\n! perform 1 9\nreply ann.1.1\n\
     notify ann.1.1 5 pollarm i 6 7\nreceive 1 latch\nperform 1 9\nreply ann.1.1\n\
     notify ann.1.1 5 poll i 5 7\nreceive 1 latch\nperform 1 9\nreply ann.1.1",
    "notify ann.1.1 6 tranarm o 5 7\nreceive 1 mailbox\n! perform 1 9\nreply ann.1.1\n\
     notify ann.1.1 6 pollarm i 6 7\nreceive 1 mailbox\nperform 1 9\nreply ann.1.1\n\
     notify ann.1.1 6 poll i 5 7\nreceive 1 mailbox\nperform 1 9\nreply ann.1.1",
];

/// Lines after which four threads have their rooms and a connection to a file and to the top.
const ROOMS: &str = "\
    spawn ann 4 10\n\
    open ann.1.1 /ann/f rwc 644\nreceive 1 ram\nperform 1 1\nreply ann.1.1\n\
    open ann.1.2 /ann r 000\nreceive 1 ram\nperform 1 1\nreply ann.1.2\n\
    fstat ann.1.3 3\nreceive 1 ram\nperform 1 1\nreply ann.1.3\n\
    fstat ann.1.4 3\nreceive 1 ram\nperform 1 1\nreply ann.1.4\n";

/// Messages of 40 bytes, and of more: where the memory of one message is in use, the next one wants some.
const LENGTHS: &str = "\
    fill ann.1.1 3 32 07\n\
    list ann.1.2 4 12345678901234567890123456789012\n\
    raw ann.1.3 3 02010000200000000707070707070707070707070707070707070707070707070707070707070707\n\
    ! rename ann.1.4 /ann/of_fifteen_byte /ann/of_fifteen_more\n\
    receive 1 ram\n! perform 1 2\nreply ann.1.1\nreceive 1 ram\nperform 1 2\nreply ann.1.2\n\
    receive 1 ram\nperform 1 2\nreply ann.1.3\nreceive 1 ram\nperform 1 2\n? reply ann.1.4\n\
    ! fill ann.1.1 3 33 07\n\
    ! list ann.1.2 4 123456789012345678901234567890123\n\
    ! raw ann.1.3 3 0201000021000000070707070707070707070707070707070707070707070707070707070707070707\n\
    ! rename ann.1.4 /ann/of_fifteen_byte /ann/of_fifteen_more_\n\
    receive 1 ram\nperform 1 2\nreply ann.1.1\nreceive 1 ram\nperform 1 2\nreply ann.1.2\n\
    receive 1 ram\nperform 1 2\nreply ann.1.3\nreceive 1 ram\nperform 1 2\n? reply ann.1.4\n";

/// Lines after which a reply of ann waits to be taken, her second thread is ready, and an open of bob is to be received.
const CALLED: &str = "\
    spawn ann 2 10\nspawn bob 1 10\n\
    open ann.1.1 /ann r 000\nreceive 1 ram\nperform 1 5\nreply ann.1.1\n\
    fstat ann.1.1 3\n\
    receive 1 ram\nperform 1 6\n\
    open bob.1.1 /bob r 000\n";

/// Lines after which one process has a file of 100 bytes and the top open, two others the file for reading alone.
const FILES: &str = "\
    spawn ann 4 10\nspawn ann 4 10\nspawn ann 2 10\nmount ann.1.1 /ann/p pipe\n\
    open ann.1.1 /ann/f rwc 644\nreceive 1 ram\nperform 1 1\nreply ann.1.1\n\
    open ann.1.1 /ann r 000\nreceive 1 ram\nperform 1 2\nreply ann.1.1\n\
    open ann.2.1 /ann/f r 000\nreceive 1 ram\nperform 1 3\nreply ann.2.1\n\
    open ann.3.1 /ann/f r 000\nreceive 1 ram\nperform 1 3\nreply ann.3.1\n\
    fill ann.1.1 3 100 07\nreceive 1 ram\nperform 1 4\nreply ann.1.1\n";

/// Calls, one from each thread, which are received, performed and answered; with the close goes the last connection of the
/// second process, whose disconnect pulse is received before what waits, and performed.
const USES: &str = "\
    seek ann.1.1 3 set 0\n\
    ! read ann.1.2 3 100\n\
    ! list ann.1.3 4\n\
    ! chmod ann.1.4 3 600\n\
    ! stat ann.2.1 /ann/f\n\
    ! fstat ann.2.2 3\n\
    ! unlink ann.2.3 /ann/f\n\
    ! close ann.2.4 3\n\
    dup ann.3.1 3\n\
    ! close ann.3.2 4\n\
    receive 1 ram\nperform 1 5\nreply ann.1.1\nreceive 1 ram\nperform 1 6\nreply ann.1.2\n\
    receive 1 ram\nperform 1 7\nreply ann.1.3\nreceive 1 ram\nperform 1 8\nreply ann.1.4\n\
    receive 1 ram\nperform 1 9\nreply ann.2.1\nreceive 1 ram\nperform 1 10\nreply ann.2.2\n\
    receive 1 ram\nperform 1 11\nreply ann.2.3\nreceive 1 ram\nperform 1 12\nreply ann.2.4\n\
    receive 1 ram\nperform 1 12\nreceive 1 ram\nperform 1 13\nreply ann.3.1\n\
    receive 1 ram\nperform 1 14\nreply ann.3.2\n";

/// Calls, three to the RAM manager and one to the pipe manager, which are answered errors; and each thread calls again.
const MISTAKES: &str = "\
    ! open ann.1.1 /ann/g rw 000\n\
    ! mkdir ann.1.2 /ann/f 755\n\
    write ann.2.1 3 01020304\n\
    ! open ann.2.2 /ann/p/g r 000\n\
    receive 1 ram\nperform 1 5\n? reply ann.1.1\nreceive 1 ram\nperform 1 6\n? reply ann.1.2\n\
    receive 1 ram\nperform 1 7\n? reply ann.2.1\nreceive 1 pipe\nperform 1 8\n? reply ann.2.2\n\
    chmod ann.1.1 3 600\nread ann.1.2 3 100\nfstat ann.2.1 3\nclose ann.2.2 3\n";

/// Opens of what exists, with truncation, with append, and of what is new; writes with append, in a gap, over three blocks before
/// it, at the end, and within what was written; an open with truncation that finds the room of those that were closed.
const GROWTHS: [&str; 6] = [
    "! open ann.1.1 /ann/f r 000\nreceive 1 ram\n! perform 1 5\nreply ann.1.1\n\
     ! open ann.1.1 /ann/f r 000\nreceive 1 ram\n! perform 1 5\nreply ann.1.1\n\
     close ann.1.1 6\nreceive 1 ram\nperform 1 5\nreply ann.1.1\n\
     close ann.1.1 5\nreceive 1 ram\nperform 1 5\nreply ann.1.1\n\
     ! open ann.1.1 /ann/f rwt 000\nreceive 1 ram\nperform 1 5\nreply ann.1.1",
    "! open ann.1.1 /ann/f wt 000\nreceive 1 ram\n! perform 1 5\nreply ann.1.1",
    "! open ann.1.1 /ann/g rwc 600\nreceive 1 ram\n! perform 1 5\nreply ann.1.1",
    "! open ann.1.1 /ann/f wa 000\nreceive 1 ram\n! perform 1 5\nreply ann.1.1\n\
     ! fill ann.1.1 5 512 07\nreceive 1 ram\n! perform 1 5\nreply ann.1.1",
    "seek ann.1.1 3 set 2048\nreceive 1 ram\nperform 1 5\nreply ann.1.1\n\
     write ann.1.1 3 05\nreceive 1 ram\n! perform 1 5\nreply ann.1.1\n\
     seek ann.1.1 3 set 500\nreceive 1 ram\nperform 1 5\nreply ann.1.1\n\
     ! fill ann.1.1 3 1030 07\nreceive 1 ram\n! perform 1 5\nreply ann.1.1\n\
     seek ann.1.1 3 set 0\nreceive 1 ram\nperform 1 5\nreply ann.1.1\n\
     fill ann.1.1 3 200 08\nreceive 1 ram\nperform 1 5\nreply ann.1.1\n\
     read ann.1.1 3 2049\nreceive 1 ram\nperform 1 5\nreply ann.1.1",
    "! fill ann.1.1 3 412 07\nreceive 1 ram\nperform 1 5\nreply ann.1.1\n\
     write ann.1.1 3 05\nreceive 1 ram\n! perform 1 5\nreply ann.1.1\n\
     seek ann.1.1 3 set 1\nreceive 1 ram\nperform 1 5\nreply ann.1.1\n\
     write ann.1.1 3 05\nreceive 1 ram\nperform 1 5\nreply ann.1.1",
];

/// Lines after which a process has a file open, and there are two others and three directories, one of them in another.
const NAMES: &str = "\
    spawn ann 4 10\nspawn ann 4 10\n\
    open ann.1.1 /ann/f rwc 644\nreceive 1 ram\nperform 1 1\nreply ann.1.1\n\
    open ann.1.1 /ann/g rwc 644\nreceive 1 ram\nperform 1 1\nreply ann.1.1\n\
    close ann.1.1 4\nreceive 1 ram\nperform 1 1\nreply ann.1.1\n\
    open ann.1.1 /ann/h rwc 644\nreceive 1 ram\nperform 1 2\nreply ann.1.1\n\
    fill ann.1.1 4 600 07\nreceive 1 ram\nperform 1 2\nreply ann.1.1\n\
    close ann.1.1 4\nreceive 1 ram\nperform 1 2\nreply ann.1.1\n\
    mkdir ann.1.1 /ann/d 755\nreceive 1 ram\nperform 1 3\nreply ann.1.1\n\
    mkdir ann.1.1 /ann/d/a 755\nreceive 1 ram\nperform 1 3\nreply ann.1.1\n\
    mkdir ann.1.1 /ann/e 755\nreceive 1 ram\nperform 1 4\nreply ann.1.1\n";

/// Renames: of the open file into an empty directory, of the directory above that in place of an empty one, of a file in
/// place of the open one, to the same path, of a directory to another name, of that below itself, of a file in place of a
/// directory, and of it in place of a file with bytes, which goes. Two come to an error, and with the last one goes all that
/// the second process has at the manager.
const RENAMES: &str = "\
    ! rename ann.1.1 /ann/f /ann/d/a/f\n\
    ! rename ann.1.2 /ann/d /ann/e\n\
    ! rename ann.1.3 /ann/g /ann/e/a/f\n\
    ! rename ann.1.4 /ann/e/a/f /ann/e/a//f\n\
    ! rename ann.2.1 /ann/e /ann/k\n\
    ! rename ann.2.2 /ann/k /ann/k/a/b\n\
    ! rename ann.2.3 /ann/k/a/f /ann/k/a\n\
    ! rename ann.2.4 /ann/k/a/f /ann/h\n\
    receive 1 ram\nperform 1 5\nreply ann.1.1\nreceive 1 ram\nperform 1 6\nreply ann.1.2\n\
    receive 1 ram\nperform 1 7\nreply ann.1.3\nreceive 1 ram\nperform 1 8\nreply ann.1.4\n\
    receive 1 ram\nperform 1 9\nreply ann.2.1\nreceive 1 ram\nperform 1 10\n? reply ann.2.2\n\
    receive 1 ram\nperform 1 11\n? reply ann.2.3\nreceive 1 ram\nperform 1 12\nreply ann.2.4\n\
    receive 1 ram\nperform 1 13\n";

/// Lines after which ann has an empty pipe open, for both sides.
const PIPE: &str = "\
    spawn ann 4 10\nmount ann.1.1 /ann/p pipe\n\
    open ann.1.1 /ann/p/f rwc 600\nreceive 1 pipe\nperform 1 1\nreply ann.1.1\n";

/// A read waits, a write serves it, and a read is interrupted and calls again.
const READS: &str = "\
    read ann.1.1 3 4\n\
    ! write ann.1.2 3 01020304\n\
    ! read ann.1.3 3 4\n\
    receive 1 pipe\nperform 1 5\nreceive 1 pipe\nperform 1 6\nreply ann.1.1\nreply ann.1.2\n\
    receive 1 pipe\nperform 1 7\n\
    interrupt ann.1.3\n\
    receive 2 pipe\nperform 2 8\n? reply ann.1.3\n\
    read ann.1.3 3 4\n";

/// A write fills the pipe, one waits, one is interrupted, and a read takes all that stands.
const WRITES: &str = "\
    ! fill ann.1.1 3 4096 07\n\
    ! write ann.1.2 3 01020304\n\
    ! fill ann.1.3 3 100 07\n\
    ! read ann.1.4 3 4096\n\
    receive 1 pipe\nperform 1 5\nreply ann.1.1\nreceive 1 pipe\nperform 1 6\nreceive 1 pipe\nperform 1 7\n\
    interrupt ann.1.3\n\
    receive 1 pipe\nreceive 2 pipe\nperform 2 8\n? reply ann.1.3\n\
    perform 1 9\nreply ann.1.4\nreply ann.1.2\n";

/// Two reads wait, and what they wait on is closed.
const CLOSES: &str = "\
    read ann.1.1 3 4\n! read ann.1.2 3 4\n\
    ! close ann.1.3 3\n\
    receive 1 pipe\nperform 1 5\nreceive 1 pipe\nperform 1 6\nreceive 1 pipe\nperform 1 7\n? reply ann.1.1\n\
    ? reply ann.1.2\nreply ann.1.3\n";

/// A dup, a read that waits, and a close of each connection. The first close leaves the read, and the second one answers it.
/// With that goes the process' last connection, whose disconnect pulse is received and performed.
const DUPS: &str = "\
    dup ann.1.1 3\n\
    ! read ann.1.2 3 4\n\
    ! close ann.1.3 3\n! close ann.1.4 4\n\
    receive 1 pipe\nperform 1 5\nreply ann.1.1\nreceive 1 pipe\nperform 1 6\n\
    receive 1 pipe\nperform 1 7\nreply ann.1.3\nreceive 1 pipe\nperform 1 8\nreply ann.1.4\n? reply ann.1.2\n\
    receive 1 pipe\nperform 1 9\n";

/// A process ends while one worker holds its message and the other the pulse that asks to unblock that; its disconnect
/// pulse comes once both are done.
const EXIT_WHILE_ASKED: &str = "\
    read ann.1.1 3 4\n\
    receive 1 pipe\n\
    interrupt ann.1.1\n\
    receive 2 pipe\n\
    exit ann.1\n\
    perform 1 5\n\
    perform 2 6\n\
    receive 1 pipe\nperform 1 7\n";

/// A process ends while a worker holds its message, and is there until that is done, after its disconnect pulse: it can't end
/// again before, nor afterwards.
const EXIT_WHILE_HELD: &str = "\
    read ann.1.1 3 4\n\
    receive 1 pipe\n\
    exit ann.1\n\
    receive 2 pipe\nperform 2 5\n\
    ? exit ann.1\n\
    perform 1 6\n\
    ? exit ann.1\n";

/// Lines after which a process has five connections to one empty pipe, with an event armed over each.
const EVENTS: &str = "\
    spawn ann 3 10\nmount ann.1.1 /ann/p pipe\n\
    open ann.1.1 /ann/p/f rwc 600\nreceive 1 pipe\nperform 1 1\nreply ann.1.1\n\
    open ann.1.1 /ann/p/f r 000\nreceive 1 pipe\nperform 1 1\nreply ann.1.1\n\
    open ann.1.1 /ann/p/f r 000\nreceive 1 pipe\nperform 1 1\nreply ann.1.1\n\
    open ann.1.1 /ann/p/f r 000\nreceive 1 pipe\nperform 1 1\nreply ann.1.1\n\
    open ann.1.1 /ann/p/f r 000\nreceive 1 pipe\nperform 1 1\nreply ann.1.1\n\
    notify ann.1.1 3 pollarm i 1 7\nreceive 1 pipe\nperform 1 2\nreply ann.1.1\n\
    notify ann.1.1 4 tranarm i 2 7\nreceive 1 pipe\nperform 1 2\nreply ann.1.1\n\
    notify ann.1.1 5 pollarm i 3 7\nreceive 1 pipe\nperform 1 2\nreply ann.1.1\n\
    notify ann.1.1 6 pollarm i 4 7\nreceive 1 pipe\nperform 1 2\nreply ann.1.1\n\
    notify ann.1.1 7 pollarm i 5 7\nreceive 1 pipe\nperform 1 2\nreply ann.1.1\n";

/// A poll and a close, each of which takes an event away, and a write that makes the three others due. The pulses are taken,
/// until there is none.
const TRIGGERS: &str = "\
    notify ann.1.1 6 poll i 4 7\n\
    ! close ann.1.2 7\n\
    ! write ann.1.3 3 01\n\
    receive 1 pipe\nperform 1 5\nreply ann.1.1\nreceive 1 pipe\nperform 1 6\nreply ann.1.2\n\
    receive 1 pipe\nperform 1 7\nreply ann.1.3\n\
    pulse ann.1\npulse ann.1\npulse ann.1\n? pulse ann.1\n";

/// Lines after which ann's first process has a call that waits in a pipe, one that waits and is asked to unblock, an answer
/// that it has not taken, and a message in a line; a call of her second process waits in the pipe too.
const CALLING: &str = "\
    spawn ann 4 10\nspawn ann 1 10\nmount ann.1.1 /ann/p pipe\n\
    open ann.1.1 /ann/p/f rwc 600\nreceive 1 pipe\nperform 1 1\nreply ann.1.1\n\
    open ann.2.1 /ann/p/f r 000\nreceive 1 pipe\nperform 1 1\nreply ann.2.1\n\
    read ann.1.1 3 4\nreceive 1 pipe\nperform 1 2\nread ann.1.2 3 4\nreceive 1 pipe\nperform 1 2\n\
    read ann.2.1 3 4\nreceive 1 pipe\nperform 1 2\n\
    interrupt ann.1.2\n\
    open ann.1.3 /ann r 000\nreceive 1 ram\nperform 1 3\n\
    fstat ann.1.4 3\n";

/// The first process ends, and its disconnect pulses are received and performed: nobody writes to the pipe any more, so the
/// second process gets its answer. Nothing else stood in the pipe manager's line.
const EXIT: &str = "\
    exit ann.1\n\
    receive 1 ram\nperform 1 5\nreceive 1 pipe\nperform 1 6\nreply ann.2.1\n? receive 1 pipe\n";

/// What comes before, and what is refused then, each time anew.
pub(crate) const ROWS: [(&str, &[&str]); 12] = [
    ("", &[KINDS, READERS, OPENED]),
    (TOP, &[DIRECTORIES]),
    (OPENED, &[DEVICES]),
    (OPENED, &ARMED),
    (ROOMS, &[LENGTHS]),
    (
        CALLED,
        &[
            // Interrupts of a thread that is answered, and of one that is ready.
            "interrupt ann.1.1\ninterrupt ann.1.2\nreply ann.1.1",
            // Interrupts of a thread whose message waits.
            "interrupt bob.1.1\ninterrupt bob.1.1\n! spawn bob 1 10",
            // Interrupts of one whose message was received, and whose manager was asked then.
            "receive 1 ram\ninterrupt bob.1.1\ninterrupt bob.1.1",
        ],
    ),
    (FILES, &[USES, MISTAKES]),
    (FILES, &GROWTHS),
    (NAMES, &[RENAMES]),
    (
        PIPE,
        &[
            READS,
            WRITES,
            CLOSES,
            DUPS,
            EXIT_WHILE_ASKED,
            EXIT_WHILE_HELD,
        ],
    ),
    (EVENTS, &[TRIGGERS]),
    (CALLING, &[EXIT]),
];

//! Messages and unblock pulses, as a worker performs them.

ghost use Rattle.std.specs.Prelude.{◌≡◌, false, Ok, Option, Some, IfOk, IfSome, IsFalse, IsOk, IsSome, IsTrue, None, OnErr, OnOk, vec_capacity};
ghost use Rattle.std.specs.Option.{option_copied};
ghost use Rattle.qx_base.specs.Memory.{Leave};
ghost use Rattle.qx_types.specs.Configuration.{limits_of};
ghost use Rattle.qx_types.specs.Managers.{manager_number};
ghost use Rattle.qx_wire.specs.Reading as reading;
ghost use Rattle.qx_machine.specs.Machine.{line_without};
ghost use Rattle.qx_machine.specs.Performing.{or_kept, serve_disconnect, serve_message, serve_pulse};
ghost use Rattle.qx_isolation.specs.Rows.{row_at};
ghost use Rattle.qx_machine.specs.Wants.{thread_wants_memory};
ghost use Rattle.qx_isolation.specs.declared.rows.OwnItem.TheVariants as item;
ghost use Rattle.qx_isolation.specs.declared.rows.ServerName.{ServerName as AnyServer};
ghost use Rattle.qx_queues.specs.Queues.{unblock_call};
ghost use Rattle.qx_process.specs.Reads.{Loses, bytes_received};
ghost use Rattle.qx_shared.specs.Shared.{shared_line, with_shared_line};
ghost use Rattle.qx_resmgr.specs.Deeds.{IsReplied};
ghost use Rattle.qx_resources.specs.Ranges.{IsInRanges};
ghost use Rattle.qx_chan.specs.inner.Answers.{answered_process, answered_queues};
ghost use Rattle.qx_chan.specs.inner.Calls.{taken_call};
ghost use Rattle.qx_chan.specs.Calls.{taken_of};
ghost use Rattle.qx_chan.specs.Serving.{IsReadOf, Serves, part_in, settled};
ghost use Rattle.qx_chan.specs.inner.Kept.{HasServerNodesOf};
ghost use Rattle.qx_chan.specs.inner.Serving.{caller_of_call};
ghost use Rattle.qx_chan.specs.Users.{thread_row};

use crate::answers::give_answers;
use crate::call::{self, Call};
use crate::channel::Channel;
use crate::servers;
use qx_machine::{Caller, Client, ServerName};
use qx_process::{Process, Replied};
use qx_resmgr::Done;
use qx_resources::{Resources, context_of};
use qx_rows::{Reply, Room};
use qx_shared::Shared;
use qx_types::{Config, Errno, MessageBytes, Proc, Thread};
use qx_wire::{Meaning, Parsed, meaning};
use std::alloc::AllocError;

impl Channel {
    /// The message of a thread, which was received, is served by its manager at a moment, and answered, unless its call is to
    /// wait; so are the calls that waited and can be answered then (Writing a Resource Manager: `dispatch_handler`; C Library
    /// Reference: `MsgReply`, `MsgError`). An unblock pulse of a call that is answered is in its line no more, and the user's
    /// events that are due give their pulses (`iofunc_notify_trigger`). Nothing happens to a thread with no such message; tells
    /// whether there was one. The bytes may have been read before; more than a few leave their memory for others.
    #[tactic(auto, using(crate::proofs::ProcessLemmas::puts_back))]
    #[inline(always)]
    pub fn serve(
        &mut self,
        config: &Config,
        resources: &mut Resources,
        thread: Thread,
        read: Option<&Parsed>,
        moment: u64,
        reply: &mut Reply,
        memory: &mut Vec<u8>,
    ) -> Result<bool, AllocError>
        requires user { resources.old.user ≡ thread.proc.user.0 }
        requires read { IsReadOf (option_copied read) (taken_of (thread_row self.old.users thread)) }
        ensures ok { OnOk result (Serves self.old self.new resources.old resources.new (λ part. settled part (or_kept part (serve_message (limits_of config.now thread.proc.user.0).disconnect part thread.proc.num thread.tid moment)))) }
        ensures served { IfOk result (λ served. IsTrue served → IsSome (thread_row self.old.users thread)) }
        ensures unserved { IfOk result (λ served. IsFalse served → taken_of (thread_row self.old.users thread) ≡ None) }
        ensures room { OnOk result (self.new.room ≡ self.old.room) }
        ensures err { OnErr result ((self.new ≡ self.old) × (resources.new ≡ resources.old)) }
        ensures sure { IsFalse (thread_wants_memory (part_in self.old resources.old) thread.proc.num thread.tid moment) → IsOk result }
        ensures memory { OnOk result (Leave (bytes_received (thread_row self.old.users thread)) (vec_capacity memory.old) (vec_capacity memory.new)) }
        ensures kept { OnErr result (vec_capacity memory.new ≡ vec_capacity memory.old) }
    {
        let Some(processes) = self.users.processes_mut(thread.proc.user) else {
            return nothing();
        };
        let Some(process) = processes.process_mut(thread.proc.num) else {
            return nothing();
        };
        let Some(cell) = process.thread(thread.tid) else {
            return nothing();
        };
        let Some(sent) = cell.taken() else {
            return nothing();
        };
        let call = call::call_of(cell, sent);
        let (tables, spare) = (&mut self.tables, &mut self.spare);
        let meaning = meaning_of(&sent.bytes, read);
        let context = context_of(process, caller(thread, call), call.target, moment, &meaning);
        let watched = resources.watch_message(tables, &meaning, context.opened);
        let given = resources.perform(tables, context, meaning, reply, spare)?;
        answer(
            process,
            &mut tables.shared,
            config,
            thread,
            call,
            given,
            reply,
            spare,
            memory,
        );
        resources.trigger(tables, processes, watched);
        give_answers(&mut self.users, &mut tables.shared);
        Ok(true)
    }

    /// A call of a thread is asked to unblock by the pulse that a worker performs: if it waits in a pipe, it is answered, and
    /// so are others that can be then (Writing a Resource Manager: the unblock pulse). The user's events that are due give
    /// their pulses.
    #[inline(always)]
    pub fn cancel(&mut self, resources: &mut Resources, thread: Thread, call: u64, moment: u64)
        requires user { resources.old.user ≡ thread.proc.user.0 }
        ensures cancelled { Serves self.old self.new resources.old resources.new (λ part. settled part (or_kept part (serve_pulse part thread.proc.num thread.tid call moment))) }
        ensures room { self.new.room ≡ self.old.room }
    {
        let Some(processes) = self.users.processes(thread.proc.user) else {
            return;
        };
        let tables = &mut self.tables;
        let watched = resources.watch_call(tables, thread, call);
        resources.cancel(tables, thread, call, moment);
        resources.trigger(tables, processes, watched);
        give_answers(&mut self.users, &mut tables.shared);
    }

    /// The disconnect pulse of a process' server connection is performed: the open control blocks go that are open over it still,
    /// and then it goes itself; calls that waited and can be answered by that are, and the user's events that are due give
    /// their pulses (Writing a Resource Manager: `_PULSE_CODE_DISCONNECT`). Nothing happens where the process is not there.
    #[inline(always)]
    pub fn disconnect(
        &mut self,
        resources: &mut Resources,
        proc: Proc,
        server: ServerName,
        moment: u64,
    )
        requires user { resources.old.user ≡ proc.user.0 }
        ensures disconnected { Serves self.old self.new resources.old resources.new (λ part. settled part (or_kept part (serve_disconnect part (record { process = proc.num; server = server }) moment))) }
        ensures room { self.new.room ≡ self.old.room }
    {
        let Some(processes) = self.users.processes(proc.user) else {
            return;
        };
        if processes.process(proc.num).is_none() {
            return;
        }
        let client = Client {
            process: proc.num,
            server,
        };
        let tables = &mut self.tables;
        resources.disconnect(tables, processes, client, moment);
        self.users.free_server(proc, server);
        give_answers(&mut self.users, &mut tables.shared);
    }
}

/// A thread whose message was served is answered with what that came to, unless it is left without a reply: the message does
/// what it does to the connection that it came over, a side connection goes, a new one goes with an error, and an unblock
/// pulse of the call is in the line no more. There is a spare room again, and the message leaves its memory for others.
#[tactic(auto, using(crate::proofs::RoomLemmas::taken_awaits))]
fn answer(
    process: &mut Process,
    queues: &mut Shared,
    config: &Config,
    thread: Thread,
    call: Call,
    given: Result<Done, Errno>,
    reply: &mut Reply,
    spare: &mut Option<Room>,
    memory: &mut Vec<u8>,
)
    requires taken { Some call ≡ taken_call (row_at process.old.threads thread.tid) }
    requires room { IsReplied given → IsSome spare.old }
    requires nodes { HasServerNodesOf (Some process.old) queues.old thread.proc }
    requires unasked { call.is_asked ≡ false → unblock_call (shared_line queues.old (manager_number call.target.manager)) thread ≡ None }
    ensures process { process.new ≡ answered_process thread.tid call.target.over reply.old given process.old }
    ensures queues { queues.new ≡ answered_queues (limits_of config.now thread.proc.user.0).disconnect queues.old process.old process.new thread call given }
    ensures lost { IsReplied given → (lost : Option AnyServer) × Loses lost process.old process.new }
    ensures gone { IsReplied given → unblock_call (shared_line queues.old (manager_number call.target.manager)) thread ≡ Some call.number → unblock_call (line_without thread.proc.user.0 (item.Unblock thread.proc.num thread.tid call.number) (shared_line queues.old (manager_number call.target.manager))) thread ≡ None }
    ensures spare { IsSome spare.new }
    ensures memory { Leave (bytes_received (row_at process.old.threads thread.tid)) (vec_capacity memory.old) (vec_capacity memory.new) }
{
    let over = call.target.over;
    let lost = match given {
        Ok(Done::NoReply) => {
            *spare = Some(process.thread_there(thread.tid).wait(memory));
            return;
        }
        Ok(Done::Reply { status, effect }) => {
            let replied = Replied { status, effect };
            process.reply(thread.tid, over, replied, reply, memory)
        }
        Err(error) => process.reply_error(thread.tid, over, error, memory),
    };
    drop_pulse(queues, thread, call);
    servers::disconnect(queues, config, thread.proc, lost);
}

/// The unblock pulse of a call that is answered is in the line no more, where one stands only if the call was asked to unblock
/// its thread.
fn drop_pulse(queues: &mut Shared, thread: Thread, call: Call)
    requires unasked { call.is_asked ≡ false → unblock_call (shared_line queues.old (manager_number call.target.manager)) thread ≡ None }
    ensures dropped { queues.new ≡ with_shared_line queues.old (manager_number call.target.manager) (line_without thread.proc.user.0 (item.Unblock thread.proc.num thread.tid call.number)) }
    ensures gone { unblock_call (shared_line queues.old (manager_number call.target.manager)) thread ≡ Some call.number → unblock_call (line_without thread.proc.user.0 (item.Unblock thread.proc.num thread.tid call.number) (shared_line queues.old (manager_number call.target.manager))) thread ≡ None }
{
    if call.is_asked {
        queues.reply(call.target.manager, thread, call.number);
    }
}

/// Whose message a call is.
fn caller(thread: Thread, call: Call) -> Caller
    ensures { result ≡ caller_of_call thread call }
{
    Caller {
        process: thread.proc.num,
        thread: thread.tid,
        call: call.number,
        is_asked: call.is_asked,
    }
}

/// What the bytes of a message mean, which may have been read before.
fn meaning_of<'a>(bytes: &'a MessageBytes, read: Option<&'a Parsed>) -> Meaning<'a>
    requires { IfSome read (λ read. read.now ≡ bytes.now) }
    ensures meaning { result ≡ reading.meaning bytes.now }
    ensures ranges { IsInRanges result }
{
    match read {
        Some(read) => read.meaning(),
        None => meaning(bytes.as_slice()),
    }
}

/// Nothing is served. Told to be seldom, so that the compiler puts in place what comes behind.
#[cold]
#[inline(never)]
fn nothing() -> Result<bool, AllocError>
    ensures { result ≡ Ok false }
{
    Ok(false)
}

//! A thread's room for its replies: when it stays, and what of it an answer gives back. And the memory of bytes that a recorder
//! cuts. No clause says what memory is left.

ghost use Rattle.std.specs.Prelude.{◌≡◌, ◌<◌, IfOk, IsSome};
ghost use Rattle.qx_types.specs.declared.limits.TheConstants.Limits.{CALLS};
ghost use Rattle.qx_machine.specs.Performing.{taken_in};

use qx_machine::{Over, Sent, Target};
use qx_process::ThreadCell;
use qx_rows::Reply;
use qx_types::{Answer, Bytes, Coid, Errno, KEPT, Limits, Manager, MessageBytes, Prio};
use std::alloc::{AllocError, Global};
use std::test::Fail;
use test_all_memory::take_all_memory;

/// A message with no bytes, over connection 3.
fn sent(alloc: Global) -> Sent
    ensures priority { result.target.prio.0 ≡ 10 }
{
    Sent {
        target: Target {
            manager: Manager::Ram,
            root: None,
            over: Over::Existing(Coid(3)),
            prio: Prio(10),
        },
        is_asked: false,
        bytes: MessageBytes::inline(alloc, b""),
    }
}

/// A thread whose message was received.
fn received(alloc: Global) -> Result<ThreadCell, AllocError>
    ensures received { IfOk result (λ cell. IsSome (taken_in cell.state)) }
    ensures counted { IfOk result (λ cell. cell.calls ≡ 1) }
{
    let mut cell = ThreadCell::new(Prio(10));
    cell.send(alloc, sent(alloc))?;
    cell.take();
    Ok(cell)
}

/// How a thread whose message was received is answered.
#[derive(Clone, Copy, Debug)]
enum Way {
    /// With as many bytes as stand in the value.
    Few,
    /// With one more.
    More,
    /// With an error, after it waited; the room came back.
    Returned,
}

/// The reply that a thread gets so.
fn reply(alloc: Global, way: Way) -> Result<Reply, AllocError> {
    let mut reply = Reply::new(alloc)?;
    reply.push(&[7; MessageBytes::INLINE]);
    if let Way::More = way {
        reply.push(&[7]);
    }
    Ok(reply)
}

/// A thread whose message was received is answered.
fn answer(alloc: Global, cell: &mut ThreadCell, way: Way, reply: &mut Reply)
    requires received { IsSome (taken_in cell.old.state) }
    ensures counted { cell.new.calls ≡ cell.old.calls }
{
    let mut memory = Vec::new(alloc);
    match way {
        Way::Few | Way::More => cell.reply(0, reply, &mut memory),
        Way::Returned => {
            let room = cell.wait(&mut memory);
            cell.answer(Answer::Failed(Errno::EINTR), Some(room));
        }
    }
}

/// Whether a thread calls with all memory taken.
fn calls_without_memory(alloc: Global, cell: &mut ThreadCell) -> Result<bool, AllocError>
    requires countable { cell.old.calls < CALLS }
{
    let pieces = take_all_memory(alloc)?;
    let is_sent = cell.send(alloc, sent(alloc)).is_ok();
    drop(pieces);
    Ok(is_sent)
}

/// Whether a thread that was answered so calls again with all memory taken.
fn calls_again(alloc: Global, way: Way) -> Result<bool, AllocError> {
    let mut cell = received(alloc)?;
    answer(alloc, &mut cell, way, &mut reply(alloc, way)?);
    calls_without_memory(alloc, &mut cell)
}

#[test]
fn a_room_stays_with_its_thread_or_goes(rt: HostRuntime) -> Result<(), Fail> {
    for (way, stays) in [(Way::Few, true), (Way::More, false), (Way::Returned, true)] {
        assert!(rt; calls_again(rt.alloc(), way)? == stays, "{way:?}");
    }
    Ok(())
}

/// Whether a piece of half the room is to be had with all memory taken, once a thread is answered so.
fn frees_half(alloc: Global, cell: &mut ThreadCell, way: Way) -> Result<bool, AllocError>
    requires received { IsSome (taken_in cell.old.state) }
{
    let mut reply = reply(alloc, way)?;
    let pieces = take_all_memory(alloc)?;
    answer(alloc, cell, way, &mut reply);
    let piece: Result<Vec<u8>, AllocError> = Vec::with_capacity(alloc, Limits::BODY / 2);
    drop(pieces);
    Ok(piece.is_ok())
}

/// The same of a thread whose message was received.
fn gives_back(alloc: Global, way: Way) -> Result<bool, AllocError> {
    let mut cell = received(alloc)?;
    frees_half(alloc, &mut cell, way)
}

#[test]
fn more_bytes_take_the_room_and_no_more_of_it(rt: HostRuntime) -> Result<(), Fail> {
    assert!(rt; !gives_back(rt.alloc(), Way::Few)?);
    assert!(rt; gives_back(rt.alloc(), Way::More)?);
    Ok(())
}

#[test]
fn cut_bytes_keep_memory_for_themselves_alone(rt: HostRuntime) -> Result<(), Fail> {
    let mut bytes = Bytes::from_vec(vec![in rt.alloc(); 7; Limits::TRANSFER]?);
    bytes.keep_first(KEPT);
    assert!(rt; bytes.into_vec().capacity() == KEPT);
    Ok(())
}

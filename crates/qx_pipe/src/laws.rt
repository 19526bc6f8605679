//! What holds of the calls on a pipe, or on a device, by their definitions alone, whatever calls wait there.
ghost use Rattle.qx_machine.specs.Pipes as machine;
ghost use Rattle.qx_machine.specs.Pipes.{removed, with_reader, with_writer};
ghost use Rattle.qx_machine.specs.declared.rows.Manner.{Manner};
ghost use Rattle.qx_machine.specs.declared.rows.Sides.{Sides};
ghost use Rattle.qx_machine.specs.declared.rows.WaitingCall.{WaitingCall};
ghost use Rattle.qx_machine.specs.Waiting.{is_gone, offered, wanted};
ghost use Rattle.qx_pipe.specs.Laws.{AnswersInOrder, AnswersOnce, Conserves, IsSettled};
ghost use Rattle.std.specs.Prelude.{◌≡◌, Bool, None};

/// As a pipe or a device is settled, messages are answered in the order in which they wait.
#[tactic(auto, using(crate::proofs::LawLemmas::in_order))]
pub fn messages_are_answered_in_order()
    ensures order { (p : machine.Pipe WaitingCall) → AnswersInOrder p (machine.settle wanted offered p) }
{}

/// And of a pipe no byte is lost, doubled or moved then. What becomes of a device's bytes is its own affair.
#[tactic(auto, using(crate::proofs::LawLemmas::conserves))]
pub fn bytes_are_conserved()
    ensures conserved { (p : machine.Pipe WaitingCall) → p.device ≡ None → Conserves offered p (machine.settle wanted offered p) }
{}

/// After each call the first reader and the first writer would wait if they came now: at a pipe no reader waits beside
/// bytes, and no first writer whose bytes fit.
pub fn nobody_waits_in_vain()
    ensures settle { (p : machine.Pipe WaitingCall) → IsSettled wanted offered (machine.settle wanted offered p).pipe }
    ensures read { (manner : Manner) (reader : WaitingCall) (p : machine.Pipe WaitingCall) → IsSettled wanted offered (machine.read wanted offered is_gone manner reader p).pipe }
    ensures write { (manner : Manner) (writer : WaitingCall) (p : machine.Pipe WaitingCall) → IsSettled wanted offered (machine.write wanted offered is_gone manner writer p).pipe }
    ensures cancel { (is_asked : WaitingCall → Bool) (p : machine.Pipe WaitingCall) → IsSettled wanted offered (machine.cancel wanted offered is_gone is_asked p).pipe }
    ensures release { (is_on_it : WaitingCall → Bool) (sides : Sides) (p : machine.Pipe WaitingCall) → IsSettled wanted offered (machine.release wanted offered is_gone is_on_it sides p).pipe }
{}

/// Whoever waits in a clean pipe or device, or comes to it, is answered once or waits on.
pub fn nobody_is_answered_twice()
    ensures read { (manner : Manner) (reader : WaitingCall) (p : machine.Pipe WaitingCall) → AnswersOnce (with_reader (removed is_gone p) reader) (machine.read wanted offered is_gone manner reader p) }
    ensures write { (manner : Manner) (writer : WaitingCall) (p : machine.Pipe WaitingCall) → AnswersOnce (with_writer (removed is_gone p) writer) (machine.write wanted offered is_gone manner writer p) }
    ensures cancel { (is_asked : WaitingCall → Bool) (p : machine.Pipe WaitingCall) → AnswersOnce (removed is_gone p) (machine.cancel wanted offered is_gone is_asked p) }
    ensures release { (is_on_it : WaitingCall → Bool) (sides : Sides) (p : machine.Pipe WaitingCall) → AnswersOnce (removed is_gone p) (machine.release wanted offered is_gone is_on_it sides p) }
{}

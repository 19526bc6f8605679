//! Which calls of a list are meant.

ghost use Rattle.std.specs.Prelude.{◌≡◌};
ghost use Rattle.qx_queues.specs.Waits.{leaves};

use crate::calls::PipeCall;

/// Which calls of a list are meant: those of ended processes, one call of a thread of the list's user, those over an open
/// control block, or all.
#[derive(Clone, Copy, Debug, PartialEq, Eq)]
pub enum Leaving {
    Gone,
    Call { process: u8, thread: u8, call: u64 },
    Block(u16),
    All,
}

impl Leaving {
    /// Whether a call is meant.
    pub(crate) fn means(self, call: &PipeCall) -> bool
        ensures { result ≡ leaves self call.now }
    {
        match self {
            Leaving::Gone => call.is_gone(),
            Leaving::Call {
                process,
                thread,
                call: number,
            } => call.is(process, thread, number),
            Leaving::Block(block) => call.block() == block,
            Leaving::All => true,
        }
    }
}

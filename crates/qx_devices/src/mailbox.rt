//! The mailbox, a device: `Mailbox.antt` says what calls come to.

ghost use Rattle.std.specs.Prelude.{◌≡◌, ◌≤◌, [], length};
ghost use Rattle.qx_base.specs.Verdict.{left_by};
ghost use Rattle.qx_base.specs.declared.device.TheConstants.{STATE};
ghost use Rattle.qx_devices.specs.Mailbox.{has_input, has_output, read_verdict, write_verdict};

use qx_base::{Errno, Given, State, Told};

/// A read of at most so many bytes (C Library Reference: `read`).
#[tactic(auto, unfolding(crate::specs::Mailbox::read_verdict))]
pub fn read(count: u32, state: &mut State, given: &mut Given) -> Told
    requires none { given.old ≡ [] }
    ensures left { record { told = result; bytes = given.new; state = state.new } ≡ left_by state.old (read_verdict count state.old) }
{
    if state.is_empty() {
        return Told::Waits;
    }
    let first = state.first(count);
    let status = first.len() as u64;
    given.push(first);
    state.clear();
    Told::Gives(status)
}

/// A write of these bytes (C Library Reference: `write`).
#[tactic(auto, unfolding(crate::specs::Mailbox::write_verdict))]
pub fn write(bytes: &[u8], state: &mut State) -> Told
    requires few { length bytes.now ≤ STATE }
    ensures left { record { told = result; bytes = []; state = state.new } ≡ left_by state.old (write_verdict bytes.now state.old) }
{
    if bytes.is_empty() {
        return Told::Fails(Errno::EINVAL);
    }
    if !state.is_empty() {
        return Told::Waits;
    }
    state.set(bytes);
    Told::Gives(bytes.len() as u64)
}

/// Whether a read would not wait.
#[tactic(auto, unfolding(crate::specs::Mailbox::has_input))]
pub fn may_read(state: &State) -> bool
    ensures { result ≡ has_input state.now }
{
    !state.is_empty()
}

/// Whether a write would not wait.
#[tactic(auto, unfolding(crate::specs::Mailbox::has_output))]
pub fn may_write(state: &State) -> bool
    ensures { result ≡ has_output state.now }
{
    state.is_empty()
}

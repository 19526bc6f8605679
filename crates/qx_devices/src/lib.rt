//! The devices that can be attached, each with its code in a file of its own and its definitions in `specs/`. A new one has its row in
//! `Listed.antt`, and its line in each list here: `./device` writes all of it.
//!
//! A device is known above by its number alone. So what is proved there holds of any list, and is not proved again for a new one. That
//! takes devices of one crate: what is proved of a further crate's definitions would be checked again in each crate above.
#![tactic(auto)]

ghost use Rattle.std.specs.Prelude.{◌≡◌, ◌<◌, ◌≤◌, [], length, slice_get};
ghost use Rattle.qx_base.specs.Verdict.{left_by};
ghost use Rattle.qx_base.specs.declared.device.TheConstants.{STATE};
ghost use Rattle.qx_devices.specs.Count.{device_count};

mod latch;
mod mailbox;
pub mod pump;

use qx_base::{Given, State, Told};

/// A device that is listed: its definitions and its code are those of its name.
#[derive(Clone, Copy, Debug, PartialEq, Eq)]
pub struct Device {
    number: u8,
    ghost listed: { number < device_count },
}

impl Device {
    ghost use Rattle.qx_devices.specs.Devices.{device_named, device_number, device_word, devices, has_input, has_output, read_verdict, write_verdict};
    ghost use Rattle.qx_devices.specs.declared.TheConstants.Device.{MOST};

    /// The most devices that can be listed: with the other managers as many as a word has bits.
    pub const MOST: usize = 62;

    /// How many devices are listed.
    #[tactic(auto, unfolding(crate::specs::Count::device_count, crate::specs::Listed::listed))]
    pub fn count() -> usize
        ensures count { result ≡ device_count }
        ensures few { result ≤ MOST }
    {
        3
    }

    /// The device's number, from 0.
    #[tactic(auto, unfolding(crate::specs::Count::device_count, crate::specs::Listed::listed))]
    pub fn number(self) -> usize
        ensures number { result ≡ device_number self }
        ensures few { result < device_count }
        ensures most { result < MOST }
    {
        self.number as usize
    }

    /// The device of a number; none for another number.
    pub fn of_number(number: usize) -> Option<Device>
        ensures { result ≡ slice_get devices number }
    {
        if number < Device::count() {
            Some(Device {
                number: number as u8,
            })
        } else {
            None
        }
    }

    /// The word by which a script names it.
    #[tactic(auto, unfolding(crate::specs::Count::device_count, crate::specs::Listed::listed, crate::specs::Devices::row_of, crate::specs::Devices::device_word))]
    pub fn word(self) -> &'static [u8]
        ensures { result.now ≡ device_word self }
    {
        match self.number {
            0 => b"latch",
            1 => b"mailbox",
            2 => b"pump",
            _ => unreachable!(),
        }
    }

    /// The device of a word; none for another word.
    #[tactic(auto, unfolding(crate::specs::Devices::device_named))]
    pub fn of_word(word: &[u8]) -> Option<Device>
        ensures { result ≡ device_named word.now }
    {
        for number in 0..Device::count() {
            let device = Device::of_number(number)?;
            if word == device.word() {
                return Some(device);
            }
        }
        None
    }

    /// A read of at most so many bytes: what it is told, and the bytes that it is given (C Library Reference: `read`).
    #[tactic(auto, unfolding(crate::specs::Count::device_count, crate::specs::Listed::listed, crate::specs::Devices::row_of, crate::specs::Devices::read_verdict))]
    pub fn read(self, count: u32, state: &mut State, given: &mut Given) -> Told
        requires none { given.old ≡ [] }
        ensures left { record { told = result; bytes = given.new; state = state.new } ≡ left_by state.old (read_verdict self count state.old) }
    {
        match self.number {
            0 => latch::read(count, state, given),
            1 => mailbox::read(count, state, given),
            2 => pump::read(count, state, given),
            _ => unreachable!(),
        }
    }

    /// A write of these bytes: what it is told (C Library Reference: `write`).
    #[tactic(auto, unfolding(crate::specs::Count::device_count, crate::specs::Listed::listed, crate::specs::Devices::row_of, crate::specs::Devices::write_verdict))]
    pub fn write(self, bytes: &[u8], state: &mut State) -> Told
        requires few { length bytes.now ≤ STATE }
        ensures left { record { told = result; bytes = []; state = state.new } ≡ left_by state.old (write_verdict self bytes.now state.old) }
    {
        match self.number {
            0 => latch::write(bytes, state),
            1 => mailbox::write(bytes, state),
            2 => pump::write(bytes, state),
            _ => unreachable!(),
        }
    }

    /// Whether a read would not wait (C Library Reference: `ionotify`).
    #[tactic(auto, unfolding(crate::specs::Count::device_count, crate::specs::Listed::listed, crate::specs::Devices::row_of, crate::specs::Devices::has_input))]
    pub fn may_read(self, state: &State) -> bool
        ensures { result ≡ has_input self state.now }
    {
        match self.number {
            0 => latch::may_read(state),
            1 => mailbox::may_read(state),
            2 => pump::may_read(state),
            _ => unreachable!(),
        }
    }

    /// Whether a write would not wait.
    #[tactic(auto, unfolding(crate::specs::Count::device_count, crate::specs::Listed::listed, crate::specs::Devices::row_of, crate::specs::Devices::has_output))]
    pub fn may_write(self, state: &State) -> bool
        ensures { result ≡ has_output self state.now }
    {
        match self.number {
            0 => latch::may_write(state),
            1 => mailbox::may_write(state),
            2 => pump::may_write(state),
            _ => unreachable!(),
        }
    }
}

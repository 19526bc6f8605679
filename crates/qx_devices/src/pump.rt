//! A syringe pump, a device: `Pump.antt` says what calls come to, by what a pump is and what it is told, which are named here.

ghost use Rattle.std.specs.Prelude.{◌≡◌, ◌≤◌, [], length};
ghost use Rattle.qx_base.specs.Verdict.{left_by};
ghost use Rattle.qx_base.specs.declared.device.TheConstants.{STATE};
ghost use Rattle.qx_devices.specs.Pump.{bytes_of, command_of, command_with, doing_of, has_input, has_output, plain_command, pump_of, read_verdict, told, write_verdict};

use qx_base::{Errno, Given, State, Told};

/// What a pump is: how many microlitres a tick gives, how many are left, and what it does.
#[derive(Clone, Copy, Debug, PartialEq, Eq)]
pub struct Pump {
    pub rate: u16,
    pub left: u16,
    pub doing: Doing,
}

/// What a pump does. An alarm stands from the tick that gave the last of what was left until it is silenced.
#[derive(Clone, Copy, Debug, PartialEq, Eq)]
pub enum Doing {
    Stopped,
    Running,
    Alarm,
}

/// What a pump is told: a tick by its driver, all else by who nurses.
#[derive(Clone, Copy, Debug, PartialEq, Eq)]
pub enum Command {
    Tick,
    SetRate(u16),
    Fill(u16),
    Start,
    Stop,
    Silence,
}

/// A read of at most so many bytes (C Library Reference: `read`).
#[tactic(auto, unfolding(crate::specs::Pump::read_verdict))]
pub fn read(count: u32, state: &mut State, given: &mut Given) -> Told
    requires none { given.old ≡ [] }
    ensures left { record { told = result; bytes = given.new; state = state.new } ≡ left_by state.old (read_verdict count state.old) }
{
    let bytes = bytes_of(pump_of(state.as_slice()));
    let number = bytes.len().min(count as usize);
    given.push(&bytes[..number]);
    Told::Gives(number as u64)
}

/// A write of these bytes (C Library Reference: `write`).
#[tactic(auto, unfolding(crate::specs::Pump::write_verdict))]
pub fn write(bytes: &[u8], state: &mut State) -> Told
    requires few { length bytes.now ≤ STATE }
    ensures left { record { told = result; bytes = []; state = state.new } ≡ left_by state.old (write_verdict bytes.now state.old) }
{
    match told(pump_of(state.as_slice()), command_of(bytes)) {
        Ok(pump) => {
            state.set(&bytes_of(pump));
            Told::Gives(bytes.len() as u64)
        }
        Err(error) => Told::Fails(error),
    }
}

/// Whether a read would not wait, as a notification is told: while an alarm stands.
#[tactic(auto, unfolding(crate::specs::Pump::has_input))]
pub fn may_read(state: &State) -> bool
    ensures { result ≡ has_input state.now }
{
    pump_of(state.as_slice()).doing == Doing::Alarm
}

/// Whether a write would not wait.
#[tactic(auto, unfolding(crate::specs::Pump::has_output))]
pub fn may_write(_state: &State) -> bool
    ensures { result ≡ has_output _state.now }
{
    true
}

/// The pump that has these bytes, as a device keeps them and a client reads them. A new device has none.
pub fn pump_of(bytes: &[u8]) -> Pump
    ensures { result ≡ pump_of bytes.now }
{
    match bytes {
        [a, b, c, d, doing] => Pump {
            rate: u16::from_le_bytes([*a, *b]),
            left: u16::from_le_bytes([*c, *d]),
            doing: doing_of(*doing),
        },
        _ => Pump {
            rate: 0,
            left: 0,
            doing: Doing::Stopped,
        },
    }
}

/// What a pump does, by its byte.
fn doing_of(byte: u8) -> Doing
    ensures { result ≡ doing_of byte }
{
    match byte {
        1 => Doing::Running,
        2 => Doing::Alarm,
        _ => Doing::Stopped,
    }
}

/// The bytes that a pump has.
fn bytes_of(pump: Pump) -> [u8; 5]
    ensures { result ≡ bytes_of pump }
{
    let [a, b] = pump.rate.to_le_bytes();
    let [c, d] = pump.left.to_le_bytes();
    let doing = match pump.doing {
        Doing::Stopped => 0,
        Doing::Running => 1,
        Doing::Alarm => 2,
    };
    [a, b, c, d, doing]
}

/// What these bytes tell a pump; none where they are no command.
fn command_of(bytes: &[u8]) -> Option<Command>
    ensures { result ≡ command_of bytes.now }
{
    match bytes {
        [code] => plain_command(*code),
        [code, low, high] => command_with(*code, u16::from_le_bytes([*low, *high])),
        _ => None,
    }
}

/// A command with no number.
fn plain_command(code: u8) -> Option<Command>
    ensures { result ≡ plain_command code }
{
    match code {
        0 => Some(Command::Tick),
        3 => Some(Command::Start),
        4 => Some(Command::Stop),
        5 => Some(Command::Silence),
        _ => None,
    }
}

/// A command with a number, which is not 0.
fn command_with(code: u8, number: u16) -> Option<Command>
    ensures { result ≡ command_with code number }
{
    match code {
        _ if number == 0 => None,
        1 => Some(Command::SetRate(number)),
        2 => Some(Command::Fill(number)),
        _ => None,
    }
}

/// What comes of a command.
fn told(pump: Pump, command: Option<Command>) -> Result<Pump, Errno>
    ensures { result ≡ told pump command }
{
    let mut next = pump;
    match command {
        None => return Err(Errno::EINVAL),
        Some(Command::Tick) => {
            if pump.doing == Doing::Running {
                if pump.left <= pump.rate {
                    next.doing = Doing::Alarm;
                }
                next.left = pump.left.saturating_sub(pump.rate);
            }
        }
        Some(Command::SetRate(rate)) => next.rate = rate,
        Some(Command::Fill(volume)) => {
            if pump.doing == Doing::Running {
                return Err(Errno::EBUSY);
            }
            next.left = volume;
        }
        Some(Command::Start) => {
            if pump.doing != Doing::Stopped || pump.rate == 0 || pump.left == 0 {
                return Err(Errno::EBUSY);
            }
            next.doing = Doing::Running;
        }
        Some(Command::Stop) => {
            if pump.doing == Doing::Running {
                next.doing = Doing::Stopped;
            }
        }
        Some(Command::Silence) => {
            if pump.doing != Doing::Alarm {
                return Err(Errno::EBUSY);
            }
            next.doing = Doing::Stopped;
        }
    }
    Ok(next)
}

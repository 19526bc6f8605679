//! What is written to a pump, as bytes.

ghost use Rattle.std.specs.Prelude.{◌≡◌, ◌≢◌, ◌<◌, IfOk, Some};
ghost use Rattle.qx_devices.specs.Pump.{command_of, command_with, plain_command};
ghost use Rattle.qx_devices.specs.declared.pump.Command.TheVariants as variant;

use qx_devices::pump::Command;
use qx_types::Bytes;
use std::alloc::{AllocError, Global};

/// The bytes that tell a pump a command. A rate and a volume of 0 are none.
pub fn bytes_of(alloc: Global, command: Command) -> Result<Bytes, AllocError>
    ensures told { command ≢ variant.SetRate 0 → command ≢ variant.Fill 0 → IfOk result (λ bytes. command_of bytes ≡ Some command) }
{
    match command {
        Command::Tick => Bytes::from_slice(alloc, &[0]),
        Command::SetRate(rate) => with_number(alloc, 1, rate),
        Command::Fill(volume) => with_number(alloc, 2, volume),
        Command::Start => Bytes::from_slice(alloc, &[3]),
        Command::Stop => Bytes::from_slice(alloc, &[4]),
        Command::Silence => Bytes::from_slice(alloc, &[5]),
    }
}

/// A command's number behind its code.
fn with_number(alloc: Global, code: u8, number: u16) -> Result<Bytes, AllocError>
    ensures { IfOk result (λ bytes. command_of bytes ≡ command_with code number) }
{
    let [low, high] = number.to_le_bytes();
    Bytes::from_slice(alloc, &[code, low, high])
}

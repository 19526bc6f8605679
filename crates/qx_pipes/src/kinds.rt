//! What kind of inode a manager in whose inodes calls may wait has of its own.

ghost use Rattle.std.specs.Prelude.{◌≡◌};
ghost use Rattle.qx_pipes.specs.Pipes.{kind_with};

use qx_machine::Kind;
use qx_types::Device;

/// The kind of inode that a device's manager has of its own, or the pipe manager.
pub fn kind_of(device: Option<Device>) -> Kind
    ensures { result ≡ kind_with device }
{
    match device {
        None => Kind::Pipe,
        Some(device) => Kind::Device(device),
    }
}

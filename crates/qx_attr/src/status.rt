ghost use Rattle.std.specs.Prelude.{◌≡◌, ◌+◌, ◌≤◌, ◌++◌, length};
ghost use Rattle.arrayvec.specs.ArrayVec.{array_vec_len};
ghost use Rattle.qx_machine.specs.Attributes as attributes;

use arrayvec::ArrayVec;
use qx_machine::{Attribute, Kind};

/// The bytes of a status.
pub type Status = ArrayVec<u8, 40>;

/// The status of an inode, as its 40 bytes.
#[tactic(auto, unfolding(qx_machine::specs::Attributes::stat_bytes))]
pub fn stat_bytes(inode: u32, attribute: &Attribute) -> Status
    ensures bytes { result.items ≡ attributes.stat_bytes inode attribute.now }
    ensures fits { length result.items ≤ 40 }
{
    let mut bytes = ArrayVec::new();
    append(&mut bytes, &inode.to_le_bytes());
    append(&mut bytes, &kind_code(attribute.kind).to_le_bytes());
    append(&mut bytes, &attribute.mode.to_le_bytes());
    append(&mut bytes, &attribute.links.to_le_bytes());
    append(&mut bytes, &attribute.owner.to_le_bytes());
    append(&mut bytes, &attribute.size.to_le_bytes());
    append(&mut bytes, &attribute.mtime.to_le_bytes());
    append(&mut bytes, &attribute.ctime.to_le_bytes());
    bytes
}

fn kind_code(kind: Kind) -> u16
    ensures { result ≡ attributes.kind_code kind }
{
    match kind {
        Kind::File => 1,
        Kind::Directory => 2,
        Kind::Pipe => 3,
        Kind::Device(_) => 4,
    }
}

/// Appends a number's bytes, for which there is room.
fn append(bytes: &mut Status, number: &[u8])
    requires { array_vec_len bytes.old + length number.now ≤ 40 }
    ensures { bytes.new.items ≡ bytes.old.items ++ number.now }
{
    match bytes.try_extend_from_slice(number) {
        Ok(()) => {}
        Err(_) => unreachable!(),
    }
}

ghost use Rattle.std.specs.Prelude.{◌≡◌, ◌+◌, ◌<◌, ◌^◌};
ghost use Rattle.qx_attr.specs.inner.Counts as counts;
ghost use Rattle.qx_machine.specs.Inodes as inodes;

use bitflags::Flags;
use qx_machine::Attribute;
use qx_types::OFlags;

/// An inode: its attribute, and how many open control blocks it has (Writing a Resource Manager: `iofunc_attr_t`, its
/// `count`, `rcount` and `wcount`).
#[derive(Clone, Copy, Debug, PartialEq, Eq)]
pub struct Attr {
    pub attribute: Attribute,
    pub blocks: u16,
    /// Those for reading.
    pub readers: u16,
    /// Those for writing.
    pub writers: u16,
}

impl Attr {
    /// An inode that nothing has open.
    pub(crate) fn new(attribute: Attribute) -> Attr
        ensures { result ≡ counts.unopened attribute }
    {
        Attr {
            attribute,
            blocks: 0,
            readers: 0,
            writers: 0,
        }
    }

    /// With one more open control block.
    pub(crate) fn counted(self, flags: OFlags) -> Attr
        requires blocks { self.blocks + 1 < 2 ^ 16 }
        requires readers { self.readers + 1 < 2 ^ 16 }
        requires writers { self.writers + 1 < 2 ^ 16 }
        ensures { result ≡ counts.counted flags self }
    {
        Attr {
            attribute: self.attribute,
            blocks: self.blocks + 1,
            readers: self.readers + one(flags, OFlags::READ),
            writers: self.writers + one(flags, OFlags::WRITE),
        }
    }

    /// With one less.
    pub(crate) fn uncounted(self, flags: OFlags) -> Attr
        ensures { result ≡ counts.uncounted flags self }
    {
        Attr {
            attribute: self.attribute,
            blocks: self.blocks.saturating_sub(1),
            readers: self.readers.saturating_sub(one(flags, OFlags::READ)),
            writers: self.writers.saturating_sub(one(flags, OFlags::WRITE)),
        }
    }
}

/// 1 where the flag is among the flags.
fn one(flags: OFlags, flag: OFlags) -> u16
    ensures { result ≡ counts.one (inodes.has flags flag) }
{
    if flags.contains(flag) { 1 } else { 0 }
}

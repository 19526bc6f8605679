//! What a node of the list of a user's entries has.

ghost use Rattle.std.specs.Prelude.{◌≡◌, ◌≢◌, ◌≤◌, true, false, IfOk, IsOk, length};
ghost use Rattle.qx_types.specs.declared.limits.TheConstants.Limits.{COMPONENT};

use arrayvec::ArrayVec;
use qx_types::Limits;
use std::alloc::AllocError;
use std::marker::Model;

const NAME_BYTES: usize = Limits::COMPONENT;

/// A name in a directory, whose bytes stand in the entry itself, and the inode that it names.
#[derive(Drop)]
pub(crate) struct Entry {
    directory: u32,
    name: ArrayVec<u8, NAME_BYTES>,
    inode: u32,
}

impl Model for Entry {
    ghost use Rattle.qx_names.specs.inner.Children as words;

    ghost Value = { words.Entry };

    ghost coded = { words.entry_code };

    ghost view = { λ e. ((e.directory, e.name.items), e.inode) };
}

impl Entry {
    /// An entry. A name longer than a path's component has no room in one, which is told as want of memory.
    pub(crate) fn new(directory: u32, name: &[u8], inode: u32) -> Result<Self, AllocError>
        ensures ok { IfOk result (λ entry. entry ≡ ((directory, name.now), inode)) }
        ensures fits { length name.now ≤ COMPONENT → IsOk result }
    {
        let mut bytes = ArrayVec::new();
        let Ok(()) = bytes.try_extend_from_slice(name) else {
            return Err(AllocError);
        };
        Ok(Entry {
            directory,
            name: bytes,
            inode,
        })
    }

    /// Another place, of a name that is no longer than a path's component.
    pub(crate) fn go_to(&mut self, directory: u32, name: &[u8])
        requires { length name.now ≤ COMPONENT }
        ensures { self.new ≡ ((directory, name.now), self.old.1) }
    {
        self.directory = directory;
        self.name.clear();
        let _fits = self.name.try_extend_from_slice(name);
    }

    /// Whether it stands at this place.
    pub(crate) fn is_at(&self, directory: u32, name: &[u8]) -> bool
        ensures here { result ≡ true → self.now.0 ≡ (directory, name.now) }
        ensures apart { result ≡ false → self.now.0 ≢ (directory, name.now) }
    {
        if self.directory != directory {
            return false;
        }
        self.name() == name
    }

    pub(crate) fn directory(&self) -> u32
        ensures { result ≡ self.now.0.0 }
    {
        self.directory
    }

    pub(crate) fn name(&self) -> &[u8]
        ensures { result.now ≡ self.now.0.1 }
    {
        self.name.as_slice()
    }

    pub(crate) fn inode(&self) -> u32
        ensures { result ≡ self.now.1 }
    {
        self.inode
    }
}

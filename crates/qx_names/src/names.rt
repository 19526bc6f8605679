ghost use Rattle.std.specs.Prelude.{◌≡◌, ◌≤◌, ℕ, [], None, Some, IfOk, IfSome, OnOk, OnErr, length, if◌then◌else◌, ◌≢◌, ◌==◌, ◌∷◌, Ok, false};
ghost use Rattle.std.specs.Cmp.Lexicographic.{slice_cmp};
ghost use Rattle.std.specs.FinMap as map;
ghost use Rattle.std.specs.List.Sorted.{IsStrictlySortedBy};
ghost use Rattle.std.specs.Ordering.{nat_cmp};
ghost use Rattle.qx_machine.specs.Listings.{HasSizedNames, listed_by, listed_next};
ghost use Rattle.qx_machine.specs.Inodes as of_inodes;
ghost use Rattle.qx_machine.specs.Names as machine;
ghost use Rattle.qx_base.specs.declared.errno.Errno.{Errno};
ghost use Rattle.qx_names.specs.Paths.{HasPath, HasNoPath, path_of};
ghost use Rattle.qx_names.specs.inner.Folders.{entry_at};
ghost use Rattle.qx_names.specs.inner.Shows.{Shows, is_root};
ghost use Rattle.qx_names.specs.inner.Shows.{shown_once};
ghost use Rattle.qx_names.specs.Spots.{AreShort, spot_found};
ghost use Rattle.qx_types.specs.declared.limits.TheConstants.Limits.{COMPONENT};

use crate::folders::Folders;
use crate::spot::{Spot, search};
use qx_attr::Inodes;
use qx_machine::laws;
use qx_rows::Reply;
use qx_types::{Errno, User};
use qx_wire::{Components, Rest};
use std::alloc::{AllocError, Global};
use std::marker::Model;

/// The names in the mounts of a user's RAM manager, which contracts see as a map from whole paths to inodes.
#[derive(Drop)]
pub struct Names {
    // The inodes of the mounts' roots.
    roots: Vec<u32>,
    // The entries of all directories.
    folders: Folders,
    ghost kept: { (names : machine.Names) × Shows (is_root roots.items) (entry_at folders) names } by { shown_once (is_root roots.items) (entry_at folders) },
}

impl Model for Names {
    ghost use Rattle.std.specs.List.{IsDistinct};
    ghost use Rattle.std.specs.Prelude.{nat_eq};
    ghost use Rattle.qx_machine.specs.Names.{Names as Contents};
    ghost use Rattle.qx_names.specs.inner.Folders.{entry_at};
    ghost use Rattle.qx_names.specs.Paths.{names_code};
    ghost use Rattle.qx_names.specs.inner.Shows.{is_root, shown_names};

    ghost Value = { Contents };

    ghost coded = { names_code };

    ghost view = { λ n. shown_names (is_root n.roots.items) (entry_at n.folders) n.kept };

    ghost invariant = { λ n. record {
      distinct : IsDistinct nat_eq n.roots.items;
    } };
}

impl Names {
    /// No names.
    pub fn new(alloc: Global) -> Self
        ensures none { result ≡ map.empty }
    {
        Names {
            roots: Vec::new(alloc),
            folders: Folders::new(alloc),
        }
    }

    /// Names a mount's root, to which no path led. Where memory is short, nothing changes.
    pub fn add_root(&mut self, root: u32) -> Result<(), AllocError>
        requires new { HasNoPath self.old root }
        ensures ok { OnOk result (self.new ≡ machine.with_root self.old root) }
        ensures err { OnErr result (self.new ≡ self.old) }
    {
        self.roots.reserve(1)?;
        self.roots.push_reserved(root);
        Ok(())
    }

    /// Whether an inode is a mount's root.
    pub fn is_root(&self, inode: u32) -> bool
        ensures root { map.get self.now (machine.root_key inode) ≡ (if result then Some inode else None) }
    {
        self.roots.contains(&inode)
    }

    /// Names an inode, to which no path led, in a directory that has no such name (C Library Reference: `open`, `mkdir`).
    /// Where memory is short, nothing changes; a name longer than any component of a path is answered so too.
    pub fn insert(&mut self, directory: u32, name: &[u8], inode: u32) -> Result<(), AllocError>
        requires directory { HasPath self.old directory }
        requires free { map.get self.old (machine.under (path_of self.old directory) name.now) ≡ None }
        requires new { HasNoPath self.old inode }
        ensures ok { OnOk result (self.new ≡ map.insert self.old (machine.under (path_of self.old directory) name.now) inode) }
        ensures err { OnErr result (self.new ≡ self.old) }
    {
        self.folders.put(directory, name, inode)?;
        Ok(())
    }

    /// Takes the name of a file or of an empty directory (C Library Reference: `unlink`).
    pub fn remove(&mut self, directory: u32, name: &[u8])
        requires directory { HasPath self.old directory }
        requires empty { IfSome (map.get self.old (machine.under (path_of self.old directory) name.now)) (λ inode. machine.names_in self.old inode ≡ []) }
        ensures removed { self.new ≡ map.remove self.old (machine.under (path_of self.old directory) name.now) }
        ensures unnamed { IfSome (map.get self.old (machine.under (path_of self.old directory) name.now)) (HasNoPath self.new) }
        ensures others { (other : ℕ) → HasPath self.old other → path_of self.old other ≢ machine.under (path_of self.old directory) name.now → HasPath self.new other × (path_of self.new other ≡ path_of self.old other) }
    {
        self.folders.take(directory, name);
    }

    /// Another name of the same mount or of another, where none is, to which all below a directory goes with it (C Library
    /// Reference: `rename`). Takes no memory.
    pub fn rename(&mut self, directory: u32, name: &[u8], target: u32, next: &[u8])
        requires directory { HasPath self.old directory }
        requires target { HasPath self.old target }
        requires there { (inode : ℕ) × (map.get self.old (machine.under (path_of self.old directory) name.now) ≡ Some inode) }
        requires free { map.get self.old (machine.under (path_of self.old target) next.now) ≡ None }
        requires outside { machine.is_below (machine.under (path_of self.old directory) name.now) (path_of self.old target).0 (next.now ∷ (path_of self.old target).1) ≡ false }
        requires short { length next.now ≤ COMPONENT }
        ensures moved { self.new ≡ machine.moved self.old (machine.under (path_of self.old directory) name.now) (machine.under (path_of self.old target) next.now) }
    {
        self.folders.rename(directory, name, target, next);
    }

    /// Whether no names are in a directory.
    pub fn is_empty(&self, directory: u32) -> bool
        ensures empty { result ≡ machine.is_empty (machine.names_in self.now directory) }
    {
        self.folders.is_empty(directory)
    }

    /// Writes the names in a directory that stand behind one, in the order of their bytes, each followed by a zero byte, as
    /// many whole names as fit 4,096 bytes, and tells how many (C Library Reference: `readdir`; how a listing is cut is this
    /// profile).
    pub fn list(&self, directory: u32, after: &[u8], reply: &mut Reply) -> u64
        requires empty { reply.old ≡ [] }
        ensures names { reply.new ≡ machine.listing (machine.listed self.now directory after.now) }
        ensures count { result ≡ length (machine.listed self.now directory after.now) }
    {
        self.folders.list(directory, after, reply)
    }

    /// Tells that no two paths lead to one inode.
    pub fn named_once(&self)
        ensures once { (one two : machine.Key) (inode : ℕ) → map.get self.now one ≡ Some inode → map.get self.now two ≡ Some inode → one ≡ two }
        ensures path { (key : machine.Key) (inode : ℕ) → map.get self.now key ≡ Some inode → path_of self.now inode ≡ key }
    {
        let _count = self.roots.len();
    }

    /// Tells that listings in turn, each behind the last name given before, the first behind the empty name, have given all
    /// names in a directory once the next gives nothing, each once and in the order of their bytes, where each name has 1
    /// to 64 bytes (C Library Reference: `readdir`).
    pub fn listed_whole(&self)
        ensures rising { (directory : ℕ) → IsStrictlySortedBy (slice_cmp nat_cmp) (machine.names_in self.now directory) }
        ensures whole { (directory listings : ℕ) → HasSizedNames self.now directory → listed_next self.now directory (listed_by listings self.now directory) ≡ [] → listed_by listings self.now directory ≡ machine.names_in self.now directory }
        ensures ends { (directory listings : ℕ) → HasSizedNames self.now directory → length (machine.names_in self.now directory) ≤ listings → listed_next self.now directory (listed_by listings self.now directory) ≡ [] }
    {
        self.named_once();
        laws::names_listed_whole();
    }

    /// Where a path leads from a mount's root, walked wholly, with search of each directory in which a name is looked up;
    /// a path with nothing behind its mount has that error (C Library Reference: ENOENT, ENOTDIR, EACCES).
    pub fn spot<'a>(
        &self,
        inodes: &Inodes,
        user: User,
        root: u32,
        rest: &Rest<'a>,
        at_root: Errno,
    ) -> Result<Spot<'a>, Errno>
        ensures spot { spot_found self.now result ≡ machine.spot inodes.now.inodes self.now user.0 root rest.now at_root }
        ensures parent { IfOk result (λ at. HasPath self.now at.parent) }
        ensures short { AreShort rest.now → IfOk result (λ at. length at.name.now ≤ COMPONENT) }
    {
        let mut components = rest.components();
        let Some(name) = components.next() else {
            return Err(at_root);
        };
        self.start(root)?;
        self.walk(inodes, user, root, name, components)
    }

    /// The inode to which a path leads.
    pub fn inode_at<'a>(
        &self,
        inodes: &Inodes,
        user: User,
        root: u32,
        rest: &Rest<'a>,
    ) -> Result<u32, Errno>
        ensures inode { result ≡ machine.inode_at inodes.now.inodes self.now user.0 root rest.now }
    {
        let mut components = rest.components();
        let Some(name) = components.next() else {
            return Ok(root);
        };
        self.start(root)?;
        let at = self.walk(inodes, user, root, name, components)?;
        at.inode.ok_or(Errno::ENOENT)
    }

    /// Whether a path that can be walked goes through a directory, and on (C Library Reference: `rename`, EINVAL).
    pub fn is_below(&self, root: u32, rest: &Rest<'_>, directory: u32) -> bool
        requires there { HasPath self.now directory }
        ensures { (inodes : of_inodes.Inodes) (user : ℕ) (error : Errno) (at : machine.Spot) → machine.spot inodes self.now user root rest.now error ≡ Ok at → result ≡ machine.is_below (path_of self.now directory) at.key.0 at.key.1 }
    {
        let mut components = rest.components();
        let Some(name) = components.next() else {
            return false;
        };
        let Ok(first) = self.start(root) else {
            return false;
        };
        self.goes_through(first, name, components, directory)
    }

    /// The same from a mount's root along one name and further ones.
    fn goes_through(&self, root: u32, name: &[u8], mut rest: Components<'_>, directory: u32) -> bool
        requires root { map.get self.now (machine.root_key root) ≡ Some root }
        requires there { HasPath self.now directory }
        ensures { (inodes : of_inodes.Inodes) (user : ℕ) (at : machine.Spot) → machine.walk inodes self.now user root (machine.root_key root) name.now rest.entry ≡ Ok at → result ≡ machine.is_below (path_of self.now directory) at.key.0 at.key.1 }
    {
        self.named_once();
        let mut parent = root;
        let mut last = name;
        while let Some(next) = rest.next() {
            if parent == directory {
                return true;
            }
            let Some(child) = self.entry(parent, last) else {
                return false;
            };
            parent = child;
            last = next;
        }
        parent == directory
    }

    /// Where the path of a mount's root leads: to the root, else ENOENT.
    fn start(&self, root: u32) -> Result<u32, Errno>
        ensures start { result ≡ machine.start self.now root }
        ensures root { IfOk result (λ first. first ≡ root) }
    {
        if self.is_root(root) {
            Ok(root)
        } else {
            Err(Errno::ENOENT)
        }
    }

    /// Walks from a mount's root along one name and further ones.
    fn walk<'a>(
        &self,
        inodes: &Inodes,
        user: User,
        root: u32,
        name: &'a [u8],
        mut rest: Components<'a>,
    ) -> Result<Spot<'a>, Errno>
        requires root { map.get self.now (machine.root_key root) ≡ Some root }
        ensures spot { spot_found self.now result ≡ machine.walk inodes.now.inodes self.now user.0 root (machine.root_key root) name.now rest.entry }
        ensures parent { IfOk result (λ at. HasPath self.now at.parent) }
        ensures short { length name.now ≤ COMPONENT → AreShort rest.entry → IfOk result (λ at. length at.name.now ≤ COMPONENT) }
    {
        self.named_once();
        let mut parent = root;
        let mut last = name;
        while let Some(next) = rest.next() {
            search(inodes, user, parent)?;
            parent = self.entry(parent, last).ok_or(Errno::ENOENT)?;
            last = next;
        }
        search(inodes, user, parent)?;
        Ok(Spot {
            parent,
            name: last,
            inode: self.entry(parent, last),
        })
    }

    /// What a name names in a directory.
    fn entry(&self, directory: u32, name: &[u8]) -> Option<u32>
        requires directory { HasPath self.now directory }
        ensures entry { result ≡ map.get self.now (machine.under (path_of self.now directory) name.now) }
        ensures named { IfSome result (λ inode. HasPath self.now inode) }
        ensures path { IfSome result (λ inode. path_of self.now inode ≡ machine.under (path_of self.now directory) name.now) }
    {
        self.folders.entry(directory, name)
    }
}

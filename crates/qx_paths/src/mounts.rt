ghost use Rattle.std.specs.Prelude.{◌≡◌, ◌<◌, ◌≤◌, List, IfOk, OnErr, OnOk, Some, length};
ghost use Rattle.std.specs.List.{list_any};
ghost use Rattle.std.specs.Result.{result_err};
ghost use Rattle.std.specs.Str.{bytes_eq};
ghost use Rattle.qx_types.specs.Configuration.{name_bytes};
ghost use Rattle.qx_types.specs.declared.limits.TheConstants.Limits.{MOUNTS};
ghost use Rattle.qx_paths.specs.Mounts.{all_boot_mounts, fit, longer, longest, mount_fault, mounts_of, name_fault, resolve, top_fault, with_mount_of};
ghost use Rattle.qx_paths.specs.Prefixes.{is_at};
ghost use Rattle.qx_paths.specs.inner.Rows.{own};

use crate::mount::Mount;
use crate::path::Path;
use crate::resolved::Resolved;
use qx_types::{Bytes, Config, Errno, Limits, Manager, NoMemory, User};
use std::alloc::Global;
use std::marker::Model;

/// A mount, and whose it is.
#[derive(Debug, Drop)]
struct Row {
    user: User,
    mount: Mount,
}

/// The mounts of all users in one table, which contracts see as each user's mounts, at most 8. A mount's number is its place
/// among its user's mounts, from 0, and stays (System Architecture: pathname management, the prefix tree; that each user has
/// mounts of their own is this profile). There is room for just as many as the users may have.
#[derive(Debug, Drop)]
pub struct Mounts {
    // How many users there are, and one more, since nobody has number 0.
    places: usize,
    rows: Vec<Row>,
}

impl Model for Mounts {
    ghost use Rattle.std.specs.Prelude.{List, vec_capacity};
    ghost use Rattle.qx_paths.specs.Prefixes.{MountPoint};
    ghost use Rattle.qx_paths.specs.inner.Rows.{IsTable, shown};

    ghost Value = { List (List MountPoint) };

    ghost view = { λ m. shown m.places m.rows.items };

    ghost invariant = { λ m. IsTable m.places m.rows.items (vec_capacity m.rows) };
}

impl Mounts {
    /// The mounts at boot: each user has the top, which is the user's name, of the RAM manager, with that inode for its root.
    pub fn boot(alloc: Global, config: &Config, root: u32) -> Result<Mounts, NoMemory>
        ensures tops { IfOk result (λ mounts. mounts ≡ all_boot_mounts config.now root) }
    {
        let places = config.user_count() + 1;
        let mut mounts = Mounts {
            places,
            rows: Vec::with_capacity(alloc, places * Limits::MOUNTS)?,
        };
        for (number, name) in config.names().iter().enumerate() {
            let top = Mount::top(alloc, name.as_slice(), Manager::Ram, root)?;
            mounts.push(User(number as u8 + 1), top);
        }
        Ok(mounts)
    }

    /// Why a mount at a path is refused of a user who may have so many: EEXIST where one is there, or else ENOSPC where the
    /// user has as many.
    pub fn fault(&self, most: usize, user: User, path: &Path<'_>) -> Option<Errno>
        ensures fault { result ≡ mount_fault most (mounts_of self.now user.0) path.now }
    {
        if has_at(&self.rows, user, path) {
            Some(Errno::EEXIST)
        } else if count(&self.rows, user) < most {
            None
        } else {
            Some(Errno::ENOSPC)
        }
    }

    /// Attaches a manager at a path for a user who may have so many, under the user's next number (C Library Reference:
    /// `resmgr_attach`). The errors of `fault`; nothing changes then. Wants no memory.
    #[tactic(auto, using(crate::proofs::RowLemmas::no_fault))]
    pub fn add(
        &mut self,
        most: usize,
        user: User,
        path: &Path<'_>,
        mount: Mount,
    ) -> Result<(), Errno>
        requires few { most ≤ MOUNTS }
        requires user { user.0 < length self.old }
        requires path { mount.prefix ≡ path.now }
        ensures refused { result_err result ≡ mount_fault most (mounts_of self.old user.0) path.now }
        ensures mounted { OnOk result (self.new ≡ with_mount_of self.old user.0 mount) }
        ensures err { OnErr result (self.new ≡ self.old) }
    {
        if let Some(errno) = self.fault(most, user, path) {
            return Err(errno);
        }
        self.push(user, mount);
        Ok(())
    }

    /// Attaches a user's manager where there is room for it.
    fn push(&mut self, user: User, mount: Mount)
        requires user { user.0 < length self.old }
        requires fewer { length (mounts_of self.old user.0) < MOUNTS }
        ensures mounted { self.new ≡ with_mount_of self.old user.0 mount }
    {
        self.rows.push_reserved(Row { user, mount });
    }

    /// Where a path leads a user. EACCES for a path without components and under another user's name, ENOENT under nobody's;
    /// else the mount of the longest prefix, of the user's alone (C Library Reference: `open`; that the user is looked at
    /// first is this profile). Other users' rows are passed by.
    pub fn resolve<'a>(
        &self,
        config: &Config,
        user: User,
        path: &Path<'a>,
    ) -> Result<Resolved<'a>, Errno>
        ensures resolved { result ≡ resolve config.now.users (name_bytes config.now user.0) (mounts_of self.now user.0) path.now }
    {
        if let Some(errno) = top_fault(config.names(), config.name_bytes(user), path) {
            return Err(errno);
        }
        longest(&self.rows, user, path).ok_or(Errno::ENOENT)
    }
}

/// Whether a user has a mount at that path.
fn has_at(rows: &[Row], user: User, path: &Path<'_>) -> bool
    ensures { result ≡ list_any (is_at path.now) (own user.0 rows.now) }
{
    for row in rows.iter() {
        if row.user == user && row.mount.is_at(path) {
            return true;
        }
    }
    false
}

/// How many mounts a user has.
#[tactic(auto, using(crate::proofs::RowLemmas::own_count))]
fn count(rows: &[Row], user: User) -> usize
    ensures { result ≡ length (own user.0 rows.now) }
{
    rows.iter().filter(|row| row.user == user).count()
}

/// Why a user's path is refused whatever is mounted.
fn top_fault(names: &[Bytes], own: &[u8], path: &Path<'_>) -> Option<Errno>
    ensures { result ≡ top_fault names.now own.now path.now }
{
    let mut walk = path.components();
    match walk.next() {
        None => Some(Errno::EACCES),
        Some(first) => name_fault(names, own, first),
    }
}

/// Why a user's path that begins with that name is refused whatever is mounted.
fn name_fault(names: &[Bytes], own: &[u8], first: &[u8]) -> Option<Errno>
    ensures { result ≡ name_fault names.now own.now first.now }
{
    if first == own {
        None
    } else if has_user(names, first) {
        Some(Errno::EACCES)
    } else {
        Some(Errno::ENOENT)
    }
}

/// Whether a user has that name.
fn has_user(names: &[Bytes], first: &[u8]) -> bool
    ensures { result ≡ list_any (λ name. bytes_eq name first.now) names.now }
{
    names.iter().any(|name| name.as_slice() == first)
}

/// The mount of the longest prefix, of a user's.
fn longest<'a>(rows: &[Row], user: User, path: &Path<'a>) -> Option<Resolved<'a>>
    ensures { result ≡ longest path.now None 0 (own user.0 rows.now) }
{
    let mut best = None;
    let mut number = 0;
    for row in rows.iter() {
        if row.user == user {
            best = longer(best, fit(path, number, &row.mount));
            number += 1;
        }
    }
    best
}

/// What a path is to a mount.
fn fit<'a>(path: &Path<'a>, number: usize, mount: &Mount) -> Option<Resolved<'a>>
    ensures { result ≡ fit path.now number mount.now }
{
    let rest = mount.behind(path)?;
    Some(Resolved {
        number,
        depth: mount.depth(),
        manager: mount.manager(),
        root: mount.root(),
        rest,
    })
}

/// The one with the longer prefix.
fn longer<'a>(best: Option<Resolved<'a>>, next: Option<Resolved<'a>>) -> Option<Resolved<'a>>
    ensures { result ≡ longer best.entry next.entry }
{
    match (best, next) {
        (Some(best), Some(next)) => Some(if best.depth < next.depth { next } else { best }),
        (Some(best), None) => Some(best),
        (None, next) => next,
    }
}

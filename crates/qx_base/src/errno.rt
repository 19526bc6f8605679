//! The names of errors.
ghost use Rattle.std.specs.Prelude.{◌≡◌};
ghost use Rattle.qx_base.specs.ErrorNames.{errno_name};

/// Why a request was refused (C Library Reference: `errno`; that errors are names without numbers is this profile).
#[derive(Clone, Copy, Debug, PartialEq, Eq)]
pub enum Errno {
    EACCES,
    EAGAIN,
    EBADF,
    EBUSY,
    EEXIST,
    EFBIG,
    EINTR,
    EINVAL,
    EISDIR,
    EMFILE,
    ENAMETOOLONG,
    ENFILE,
    ENOENT,
    ENOSPC,
    ENOSYS,
    ENOTDIR,
    ENOTEMPTY,
    EPERM,
    EPIPE,
    ESPIPE,
    EXDEV,
}

impl Errno {
    /// The error's name, as it is printed.
    pub fn name(self) -> &'static str
        ensures { result.now ≡ errno_name self }
    {
        match self {
            Errno::EACCES => "EACCES",
            Errno::EAGAIN => "EAGAIN",
            Errno::EBADF => "EBADF",
            Errno::EBUSY => "EBUSY",
            Errno::EEXIST => "EEXIST",
            Errno::EFBIG => "EFBIG",
            Errno::EINTR => "EINTR",
            Errno::EINVAL => "EINVAL",
            Errno::EISDIR => "EISDIR",
            Errno::EMFILE => "EMFILE",
            Errno::ENAMETOOLONG => "ENAMETOOLONG",
            Errno::ENFILE => "ENFILE",
            Errno::ENOENT => "ENOENT",
            Errno::ENOSPC => "ENOSPC",
            Errno::ENOSYS => "ENOSYS",
            Errno::ENOTDIR => "ENOTDIR",
            Errno::ENOTEMPTY => "ENOTEMPTY",
            Errno::EPERM => "EPERM",
            Errno::EPIPE => "EPIPE",
            Errno::ESPIPE => "ESPIPE",
            Errno::EXDEV => "EXDEV",
        }
    }
}

/// Different errors have different names.
pub fn errors_told_apart()
    ensures told_apart { (a b : Errno) → errno_name a ≡ errno_name b → a ≡ b }
{}

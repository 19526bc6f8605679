//! What holds of numbers, and of threads.
ghost use Rattle.qx_fuse_tables.specs.Nodes.{ToldIsFound};
ghost use Rattle.qx_fuse_tables.specs.Numbers.{NumbersApart};
ghost use Rattle.qx_fuse_tables.specs.Waits.{ThreadsKept};

/// No two users have a number in common, and no two own numbers of one user are one.
pub fn numbers_apart()
    ensures numbers_apart { NumbersApart }
{}

/// A name that the kernel is told has the number that it is told.
pub fn told_is_found()
    ensures told_is_found { ToldIsFound }
{}

/// A request that waits for the thread that it takes leaves as many free as it has to.
pub fn threads_kept()
    ensures threads_kept { ThreadsKept }
{}

//! What holds of names, inodes and files by their definitions alone.
ghost use Rattle.qx_iofunc.specs.Laws.{RemovedEmpty, TotalOfSizes};

/// A directory whose name is taken away had no names in it.
pub fn removed_empty()
    ensures removed_empty { RemovedEmpty }
{}

/// The sum of the sizes of a user's files is that of the sizes that their inodes have.
pub fn total_of_sizes()
    ensures total_of_sizes { TotalOfSizes }
{}

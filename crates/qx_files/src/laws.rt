//! What holds of the bytes of a file by their definitions alone.
ghost use Rattle.qx_files.specs.Laws.{KeptBefore, KeptBehind, ReadBack};

/// What was written is read back at its place.
pub fn read_back()
    ensures read_back { ReadBack }
{}

/// Before what was written stands what stood there, and zero bytes where nothing did.
pub fn kept_before()
    ensures kept_before { KeptBefore }
{}

/// Behind what was written stands what stood there.
pub fn kept_behind()
    ensures kept_behind { KeptBehind }
{}

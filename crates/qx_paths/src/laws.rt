//! What holds of paths and mounts by their definitions alone.
ghost use Rattle.qx_paths.specs.Laws.{AtExactly, BehindExactly, LongestPrefix, PrefixAndRest, ReadAgain, ReadRests, TopFits};

/// A path that was read, its components joined behind a first `/`, is read as the same components.
pub fn read_again()
    ensures read_again { ReadAgain }
{}

/// What a path that was read has behind any number of components may stand in a message.
pub fn read_rests()
    ensures read_rests { ReadRests }
{}

/// Where a path leads is a mount of the user, whose prefix and the rest together are the path's components.
pub fn prefix_and_rest()
    ensures prefix_and_rest { PrefixAndRest }
{}

/// No mount that fits has a longer prefix than the one to which a path leads.
pub fn longest_prefix()
    ensures longest_prefix { LongestPrefix }
{}

/// A path under a user's own name leads somewhere where the top is mounted.
pub fn top_fits()
    ensures top_fits { TopFits }
{}

/// A path begins with a prefix exactly if they are the prefix and what is behind it.
pub fn behind_exactly()
    ensures behind_exactly { BehindExactly }
{}

/// A mount is at a path exactly if its prefix is the path's components.
pub fn at_exactly()
    ensures at_exactly { AtExactly }
{}

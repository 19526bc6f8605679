//! What holds of the table of requests, of what bytes mean by it, and of replies.
ghost use Rattle.qx_fuse_wire.specs.Laws.{KnownExactly, ReplyLength, UnknownExactly};

/// Bytes mean a request exactly if they spell it.
pub fn known_exactly()
    ensures known_exactly { KnownExactly }
{}

/// Bytes are unknown exactly if they agree with their header, and no known request has their opcode.
pub fn unknown_exactly()
    ensures unknown_exactly { UnknownExactly }
{}

/// A reply is as long as it says.
pub fn reply_length()
    ensures reply_length { ReplyLength }
{}

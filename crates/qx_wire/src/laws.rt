//! What holds of the table of messages alone, and of what bytes mean by it.
ghost use Rattle.qx_wire.specs.Laws.{KnownExactly, OneMessage, OneSpelling, UnknownExactly};

/// A message has one spelling.
pub fn one_spelling()
    ensures one_spelling { OneSpelling }
{}

/// Bytes spell at most one message.
pub fn one_message()
    ensures one_message { OneMessage }
{}

/// Bytes mean a message exactly if they spell it.
pub fn known_exactly()
    ensures known_exactly { KnownExactly }
{}

/// Bytes are unknown exactly if they fit their header, and no message has their type and subtype.
pub fn unknown_exactly()
    ensures unknown_exactly { UnknownExactly }
{}

//! Facts about frames alone. Each function does nothing, and its contract is the fact.

ghost use Rattle.frame_server.specs.Limited.{PlainWithoutLimits};
ghost use Rattle.frame_server.specs.Stream.{PartsInOneWay, ReadsAsWritten};

/// Bytes are whole frames followed by a prefix of a frame in at most one way. So a reader has no
/// choice about which frames a stream has, or about whether the stream ends between two frames.
pub fn bytes_part_in_one_way()
    ensures { PartsInOneWay }
{}

/// The bytes of a frame are a whole frame, and reading them gives this frame again, if its sizes
/// and its values fit into 64 bits.
pub fn frames_are_read_as_written()
    ensures { ReadsAsWritten }
{}

/// Without limits, the frame that answers a frame is the frame of an answer to it.
pub fn no_limits_change_no_frame()
    ensures { PlainWithoutLimits }
{}

//! Why a stream of rows is refused.

/// Why bytes are no stream of rows. Each tells the offset of a frame's length field, counted from 0 over all bytes of
/// the stream.
#[derive(Clone, Copy, Debug, PartialEq, Eq)]
pub enum StreamRefusal {
    /// The body of a frame is whole and is no row; so it is with one of length 0.
    BadFrame {
        /// The offset.
        at: u64,
    },
    /// A frame's length is above `MAX_FRAME`.
    FrameTooLong {
        /// The offset.
        at: u64,
    },
    /// The stream ends inside a frame.
    CutShort {
        /// The offset.
        at: u64,
    },
}

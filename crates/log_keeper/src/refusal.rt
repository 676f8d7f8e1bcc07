//! Why a log is not begun, opened or kept on.

/// Why a log is not begun, opened or kept on.
#[derive(Clone, Copy, Debug, PartialEq, Eq)]
pub enum KeepRefusal {
    /// The disk failed to read.
    ReadFailed,
    /// The disk failed to write, or to bring to the disk what was written.
    WriteFailed,
    /// The file is too long, or its log is another namespace's or goes wrong.
    BadLog {
        /// The place: 2^62 where the file has as many bytes or more, 0 where the header is another, and else that of the
        /// open gate before what is no record, or the length of a file that ends where a gate is due.
        at: u64,
    },
}

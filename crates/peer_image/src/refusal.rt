//! Why bytes are not taken as an image.

use thiserror::Error;

/// Why bytes are not taken as an image. Bad bytes go before rows that do not rise, and these before pruned rows.
#[derive(Clone, Copy, Debug, PartialEq, Eq, Error)]
pub enum ImageRefusal {
    /// The bytes are no image of the version that their first four bytes tell. `at` counts the bytes before the part that
    /// is wrong. In version 1 these are none where the text WIM1 and a namespace key do not stand in front, else those
    /// before a wrong frame or before a wrong end. In version 2 they are none where the text WIM2, a namespace key and a
    /// number of four bytes do not stand in front, else those before the frame of a capability that is wrong or does not
    /// rise, before the frame of a wrong row, or before an end that is wrong or where no row tells one of the capabilities.
    #[error("the image is wrong from byte {at} on")]
    BadImage { at: u64 },
    /// The row `at`, counted from 1, is the first that does not stand above the row before it, by subspace and then
    /// by path.
    #[error("row {at} of the image does not stand above the row before it")]
    NotRising { at: u32 },
    /// The row `at` is the first that an earlier row dominates, and `by` the first such; both are counted from 1.
    #[error("row {at} of the image is pruned by row {by}")]
    Pruned { at: u32, by: u32 },
}

//! What judges rows, in every command.

use auth_batch::CachedChecker;
use lms_core::PeerScheme;

/// The checker of every command and of every session.
pub(crate) type RowChecker = CachedChecker<PeerScheme>;

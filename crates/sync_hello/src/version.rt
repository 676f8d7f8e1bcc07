//! The version of a session.

ghost use Rattle.std.specs.Prelude.{◌≡◌, ◌≢◌, ◌≤◌};
ghost use Rattle.sync_hello.specs.Version.{session_version};

use crate::hello::Hello;

/// The highest version that is spoken here.
pub const HIGHEST_VERSION: u8 = 2;

/// The version of the session of two sides that said these hellos: the least of `HIGHEST_VERSION` and the versions of both.
/// Where neither hello is refused it is 1 or 2.
pub fn session_version(one: &Hello, other: &Hello) -> u8
    ensures least { result ≡ session_version one.now other.now }
    ensures some { one.now.version ≢ 0 → other.now.version ≢ 0 → 1 ≤ result }
    ensures known { result ≤ 2 }
{
    HIGHEST_VERSION.min(one.version.min(other.version))
}

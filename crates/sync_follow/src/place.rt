//! How one stands who follows.

ghost use Rattle.std.specs.Prelude.{◌≡◌, ◌<◌, ◌^◌, IsTrue, false};

// What is due.
#[derive(Clone, Copy, Debug, PartialEq, Eq)]
pub(crate) enum Due {
    // A message.
    Message,
    // Nothing: the feed was read whole.
    Nothing,
    // Nothing, behind what is no message.
    Bad,
    // Nothing, behind a row outside of the area.
    Outside,
}

// What is due, and how many rows came.
#[derive(Clone, Copy, Debug, PartialEq, Eq)]
pub(crate) struct Place {
    pub(crate) due: Due,
    pub(crate) count: u32,
}

// Whether a message is due.
pub(crate) fn is_due(due: Due) -> bool
    ensures due { IsTrue result → due ≡ Due.Message }
    ensures over { result ≡ false → due ≡ Due.Message → ⊥ }
{
    match due {
        Due::Message => true,
        Due::Nothing | Due::Bad | Due::Outside => false,
    }
}

// Does nothing: it is called for its clause.
pub(crate) fn known_count(count: u32)
    ensures { count < 2 ^ 32 }
{}

// The same of a number of bytes.
pub(crate) fn known_read(count: u64)
    ensures { count < 2 ^ 64 }
{}

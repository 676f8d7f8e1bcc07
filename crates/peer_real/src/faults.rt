//! What an error of the machine is to the callers of the outside, and how it is counted.

ghost use Rattle.std.specs.Prelude.{◌≡◌, ◌↔◌};
ghost use Rattle.std.specs.IoError.{error_kind};
ghost use Rattle.willow_outside.specs.Counts.{one_more, CountsCause};

use std::io::{Error, ErrorKind};
use willow_outside::Fault;

// One more, up to the last number of the type.
pub(crate) fn raised(count: u64) -> u64
    ensures { result ≡ one_more count }
{
    count.saturating_add(1)
}

// Want of memory is told as such, and all else as a failure.
pub(crate) fn fault_of(error: &Error) -> Fault
    ensures { (result ≡ Fault.NoMemory) ↔ (error_kind error.now ≡ ErrorKind.OutOfMemory) }
{
    if error.kind() == ErrorKind::OutOfMemory {
        Fault::NoMemory
    } else {
        Fault::Failed
    }
}

// Tells what an error of the machine is, and counts it where it is no want of memory.
pub(crate) fn counted(count: &mut u64, error: &Error) -> Fault
    ensures count { result ≡ Fault.Failed → count.new ≡ one_more count.old }
    ensures cause { CountsCause count.old count.new result }
    ensures fault { (result ≡ Fault.NoMemory) ↔ (error_kind error.now ≡ ErrorKind.OutOfMemory) }
{
    let fault = fault_of(error);
    if fault == Fault::Failed {
        *count = raised(*count);
    }
    fault
}

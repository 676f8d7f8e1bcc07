//! Hellos and items, as they are found at the front of the bytes of a session.

ghost use Rattle.std.specs.Prelude.{◌+◌, ◌<◌, ◌^◌, length};
ghost use Rattle.sync_link.specs.Found.{FindsHello, FindsItem};

use cap_codec::{RawRow, RawRows};
use spelling::{End, NoMemory};
use std::alloc::Global;
use sync_hello::{HelloStep, read_hello};
use sync_msg::{BadItem, ItemReader, Step};

// The hello at the front of the bytes.
pub(crate) fn find_hello(alloc: Global, bytes: &[u8]) -> Result<HelloStep, NoMemory>
    ensures { FindsHello bytes.now result }
{
    read_hello(alloc, bytes)
}

// The item at the front of the bytes, which are those behind the bytes that the reader took so far.
pub(crate) fn find_item(
    reader: &mut ItemReader<RawRows>,
    bytes: &[u8],
) -> Result<Step<RawRow>, End<BadItem>>
    requires { reader.old.taken + length bytes.now < 2 ^ 64 }
    ensures { FindsItem reader.old reader.new bytes.now result }
{
    reader.next(bytes)
}

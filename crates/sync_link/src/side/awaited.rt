//! What a side of a session waits for.

use cap_codec::RawRows;
use session_end::HelloRefusal;
use sync_core::{CoreRefusal, SyncCore};
use sync_hello::Hello;
use sync_msg::ItemReader;
use willow_area::Area;
use willow_entry::Row;

// An exchange, the reader of the other side's items, and the area that both may read, if there is one.
#[derive(Drop)]
pub(crate) struct Exchange<R: Row> {
    pub(crate) core: SyncCore<R>,
    pub(crate) reader: ItemReader<RawRows>,
    pub(crate) area: Option<Area>,
}

// Why nothing more is due.
#[derive(Clone, Copy)]
pub(crate) enum Cause {
    // What came is no message.
    Bad,
    // A hello or a proof is refused.
    Hello(HelloRefusal),
    // An item is refused.
    Core(CoreRefusal),
}

// What is due.
#[derive(Drop)]
pub(crate) enum Awaited<R: Row> {
    // The other side's hello.
    Hello,
    // The proof of the side that said this hello.
    Proof(Hello),
    // Items; or nothing, where both sides have said farewell.
    Items(Exchange<R>),
    // Nothing.
    Nothing(Cause),
}

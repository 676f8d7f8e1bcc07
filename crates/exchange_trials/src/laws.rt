//! That the laws can be called.

#[test]
fn laws_of_exchanges_can_be_called() {
    exchange_rules::laws::a_small_exchange();
    exchange_rules::laws::exchanges_of_many();
    exchange_rules::laws::numbers();
    exchange_rules::laws::exchange_ends::<u8, u16, u32>();
    exchange_rules::laws::bound::<u8, u16, u32>();
    exchange_rules::laws::convergence::<u8, u16, u32>();
    exchange_rules::laws::each_row_once::<u8, u16, u32>();
    exchange_rules::laws::two_worlds::<u8, u16, u32>();
    exchange_rules::laws::two_exchanges::<u8, u16, u32>();
    exchange_rules::laws::both_write_the_exchange::<u8, u16, u32>();
}

#[test]
fn laws_of_sessions_can_be_called() {
    session_rules::laws::a_small_machine();
    session_rules::laws::a_small_session();
    session_rules::laws::a_small_session_is_lawful();
    session_rules::laws::pieces::<u8, u16, u32, u64, bool>();
    session_rules::laws::grows::<u8, u16, u32, u64, bool>();
    session_rules::laws::nothing_early::<u8, u16, u32, u64, bool>();
    session_rules::laws::ends_by_a_message::<u8, u16, u32, u64, bool>();
    session_rules::laws::meet::<u8, u16, u32, u64, bool, u8, u16, u32, u64, bool>();
    session_rules::laws::reads_messages::<u8, u16, u32, u64, bool>();
    session_rules::laws::messages_meet::<u8, u16, u32, u64, bool, u8, u64, bool>();
    session_rules::laws::grants::<u8, u16, u32, u64, bool, u8, u16, u32>();
    session_rules::laws::worlds::<u8, u16, u32, u64, bool, u8, u16, u32>();
    session_rules::laws::goes_on_as_exchange::<u8, u16, u32, u64, bool, u8, u16, u32>();
    session_rules::laws::sessions_meet::<u8, u16, u32, u64, bool, u8, u16, u32>();
    session_rules::laws::items_tell_turns::<u8, u16, u32, u64, bool, u8>();
    session_rules::laws::whole_turns::<u8, u16, u32>();
    session_rules::laws::settles::<u8, u16, u32, u64, bool, u8, u8, u16, u32, u64>();
}

#[test]
fn laws_of_two_stores_can_be_called() {
    sync_pair::laws::convergence();
    sync_pair::laws::covering();
    sync_pair::laws::agreement();
    sync_pair::laws::self_contained_boxes();
    sync_pair::laws::bound();
    sync_pair::laws::each_row_once();
    sync_pair::laws::two_worlds();
    sync_pair::laws::without_an_area();
}

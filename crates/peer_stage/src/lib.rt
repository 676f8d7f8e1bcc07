//! What every command shares: how a command ends, and the stages that read the input, write the output, and get and
//! put the bytes of names.
//! The contract: each stage says what it took or gave, and each end why it came.
#![tactic(auto)]

mod laws;
mod outcome;
mod shelf;
mod stage;

pub use laws::input_limit;
pub use outcome::{
    Done, FollowCounts, Hosted, JoinCounts, MeetCounts, Origin, SessionCounts, ShowCounts,
    SideCounts, Stop, Stopped, WatchCounts,
};
pub use shelf::{get_bytes, put_bytes};
pub use stage::{INPUT_LIMIT, read_input, write_both, write_output};

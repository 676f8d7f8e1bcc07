//! What no clause says: that a run over the machine comes to its status.

use crate::run_here;
use std::process::ExitCode;
use std::test::Fail;

#[test]
fn no_command_is_a_faulty_command_line(rt: HostRuntime) -> Result<(), Fail> {
    let alloc = rt.alloc();
    let name = String::from_str(alloc, "willow_peer")?;
    assert!(rt; run_here(&rt, &rt, &[]) == ExitCode::from(2));
    assert!(rt; run_here(&rt, &rt, &[name]) == ExitCode::from(2));
    Ok(())
}

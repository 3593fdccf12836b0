// Tells the lowest message on hand, fed as `frames` is: of each line the lowest number still stored of its frame's session, 0 for none, after an applied
// Commit or LastWhole; else a hyphen. The standby is that of `frames`.
#![tactic(auto)]

use frames_shell::Says;
use std::process::ExitCode;

fn main(rt: HostRuntime) -> ExitCode {
    frames_shell::serve(&rt, Says::Lowest)
}

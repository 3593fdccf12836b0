// Answers replication frames, one line of lower-case hexadecimal digits each, with the answer in the same form or `R` and the refusal. One new
// standby answers them all: incarnation 7, lag 0, C 4,096, M 64, four sessions, four handles, hold areas of 5,626 bytes.
#![tactic(auto)]

use frames_shell::Says;
use std::process::ExitCode;

fn main(rt: HostRuntime) -> ExitCode {
    frames_shell::serve(&rt, Says::Answers)
}

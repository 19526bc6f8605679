//! The program `qnxsh`: runs a script from standard input and writes what its `show` lines print.
#![tactic(auto)]

use qx_sh::program::qnxsh;
use std::process::ExitCode;

fn main(rt: HostRuntime) -> ExitCode {
    qnxsh(&rt)
}

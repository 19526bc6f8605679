//! The program `qxlive`: answers each line of standard input before it reads the next one.
#![tactic(auto)]

use qx_live_text::program::qxlive;
use std::process::ExitCode;

fn main(rt: HostRuntime) -> ExitCode {
    qxlive(&rt)
}

use crate::invocation::invoke;
use crate::watched::Watched;
use std::env::Env;
use std::process::ExitCode;
use std::{env, io};

/// The shell on the words of the command line and the standard streams.
pub fn qnxsh(rt: &HostRuntime) -> ExitCode {
    let mut input = Watched::new(rt.reader());
    let mut output = Watched::new(io::writer(rt));
    let mut errors = Watched::new(rt.stderr());
    let status = invoke(rt.alloc(), words(rt), &mut input, &mut output, &mut errors);
    ExitCode::from(status)
}

// The words of the command line.
fn words(rt: &(impl Env + AllocGlobal)) -> io::Result<Vec<String>> {
    Ok(env::args(rt)?.collect(rt.alloc())?)
}

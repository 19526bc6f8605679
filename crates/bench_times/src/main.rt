//! Does one thing so many times, for a count of instructions from outside. With no words it does a little of each.
//!
//! The words are `script` or `session`, a file and the rounds; or `line`, `encode` or `read`, a count and the rounds.
//!
//! - `script.rt`: the lines before the first `show` are played once, and those from it on so many times; where none are
//!   before it, each round begins with a new world
//! - `session.rt`: the same lines as those of a session
//! - `calls.rt`: the calls that no script reaches alone: those of a line, and messages that are spelled and read
//!
//! With no words the scripts of `data/` are played and some of the calls made, which is what the gate runs.
//! `scripts.sh` writes the scripts that are played, and `counts.sh` counts the instructions of their rounds.
#![tactic(auto)]

mod calls;
mod script;
mod session;

use anyhow::bail;
use qx_types::NoMemory;
use std::{env, fs};

/// The scripts that are played with no words.
const SCRIPTS: [&str; 17] = [
    "append", "beside", "closed", "do_fstat", "end", "late", "line", "lookup", "make", "parts",
    "read", "settle", "spawn", "stat", "trigger", "waiting", "whole",
];

/// The calls that are made with no words, and the counts.
const CALLS: [(&str, usize); 3] = [("line", 10), ("encode", 20), ("read", 20)];

fn main(rt: HostRuntime) -> anyhow::Result<()> {
    let words: Vec<String> = env::args(&rt)?.collect(rt.alloc())?;
    match words.as_slice() {
        [_, kind, file, rounds] if kind.as_str() == "script" => {
            let answers = played(&rt, file.as_str(), rounds.parse()?)?;
            println!(rt; "{answers}")?;
        }
        [_, kind, file, rounds] if kind.as_str() == "session" => {
            let answers = played_live(&rt, file.as_str(), rounds.parse()?)?;
            println!(rt; "{answers}")?;
        }
        [_, calls, count, rounds] => {
            let total = calls::make_calls(rt.alloc(), calls, count.parse()?, rounds.parse()?)?;
            println!(rt; "{total}")?;
        }
        [_] => try_each(&rt)?,
        _ => bail!("give what to do, a file or a count, and the rounds"),
    }
    Ok(())
}

/// Plays ten rounds of each script and of each kind of calls, and prints how much that was.
fn try_each(rt: &HostRuntime) -> anyhow::Result<()> {
    for (calls, count) in CALLS {
        let total = calls::make_calls(rt.alloc(), calls, count, 10)?;
        println!(rt; "{calls} {total}")?;
    }
    for name in SCRIPTS {
        let file = format!(in rt.alloc(); "{name}.script")?;
        let answers = played(rt, file.as_str(), 10)?;
        println!(rt; "{name} {answers}")?;
    }
    let answers = played_live(rt, "do_fstat.script", 10)?;
    println!(rt; "session {answers}")?;
    Ok(())
}

/// Plays the rounds of the script in a file.
fn played(rt: &HostRuntime, file: &str, rounds: u32) -> anyhow::Result<u64> {
    let text = fs::read(rt, file)?;
    answers_of(script::play_script(rt.alloc(), text.as_slice(), rounds))
}

/// Plays the rounds of the script in a file as a session's lines.
fn played_live(rt: &HostRuntime, file: &str, rounds: u32) -> anyhow::Result<u64> {
    let text = fs::read(rt, file)?;
    answers_of(session::play_session(rt.alloc(), text.as_slice(), rounds))
}

fn answers_of(played: Result<Option<u64>, NoMemory>) -> anyhow::Result<u64> {
    match played {
        Ok(Some(answers)) => Ok(answers),
        Ok(None) => bail!("a line is bad"),
        Err(_) => bail!("out of memory"),
    }
}

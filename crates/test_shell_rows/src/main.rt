//! Runs each script that a line of the file `rows` names, and tells of each whether it prints what is wanted.
//!
//! What is wanted of `NAME.script` stands in `NAME.stdout`: the lines of its `show`, `erased` and `trace`, a line with the exit
//! status, and the report where there is one. These texts were worked out from the rules of `docs/MACHINE.md`, line by line,
//! and not taken from the program. A script that prints its text gives a line `NAME same`, and another one a line
//! `NAME differs` and the first line that does. Behind them a line tells how many users there are in all scripts together: for
//! each of them, what an `erased` prints behind all lines of the script is what a `show` prints there. The program fails at a
//! name whose script or text can't be read, and where there is a script or a text in its folder that `rows` does not name.
#![tactic(auto)]

mod erased;

use anyhow::bail;
use erased::users_received;
use qx_sh::ending::report;
use qx_sh::limit::Options;
use qx_sh::run::run;
use qx_sh::watched::Watched;
use std::alloc::Global;
use std::io::Write;
use std::{fs, io};

fn main(rt: HostRuntime) -> anyhow::Result<()> {
    let rows = fs::read_to_string(&rt, "rows")?;
    check_folder(&rt, &rows)?;
    let mut users: u32 = 0;
    for name in rows.lines() {
        users = users.saturating_add(u32::from(run_row(&rt, name)?));
    }
    println!(rt; "{users} users received what they receive in the traces of their own steps")?;
    Ok(())
}

/// Fails at a script or a wanted text in the folder that no row names.
fn check_folder(rt: &HostRuntime, rows: &str) -> anyhow::Result<()> {
    for entry in fs::read_dir(rt, ".")? {
        let entry = entry?;
        let file = entry.file_name();
        if let Some((name, "script" | "stdout")) = file.rsplit_once('.') {
            if !rows.lines().any(|row| row == name) {
                bail!("{file} is of no row");
            }
        }
    }
    Ok(())
}

/// Runs the script of a name, tells whether it prints its text, and gives how many users it has.
fn run_row(rt: &HostRuntime, name: &str) -> anyhow::Result<u8> {
    let script = read(rt, &format!(in rt.alloc(); "{name}.script")?)?;
    let wanted = String::from_utf8(read(rt, &format!(in rt.alloc(); "{name}.stdout")?)?)?;
    let printed = String::from_utf8(printed(rt.alloc(), &script)?)?;
    tell(rt, name, &printed, &wanted)?;
    match users_received(rt.alloc(), &script) {
        Ok(Some(count)) => Ok(count),
        _ => bail!("{name}: a user received something else, or memory is short"),
    }
}

/// The bytes of a file.
fn read(rt: &HostRuntime, file: &str) -> anyhow::Result<Vec<u8>> {
    match fs::read(rt, file) {
        Ok(bytes) => Ok(bytes),
        Err(_) => bail!("{file} could not be read"),
    }
}

/// What is printed of a script: what it writes, its exit status and its report.
fn printed(alloc: Global, script: &[u8]) -> io::Result<Vec<u8>> {
    let mut script = Watched::new(script);
    let mut output = Watched::new(Vec::new(alloc));
    let end = run(alloc, &mut script, &mut output, &Options::default());
    let mut text = output.into_inner();
    writeln!(text, "status {}", end.status())?;
    let mut text = Watched::new(text);
    report(&end, &mut text);
    Ok(text.into_inner())
}

/// Tells whether a script printed what is wanted, and else the first line that differs, none where a text has ended.
fn tell(rt: &HostRuntime, name: &str, printed: &str, wanted: &str) -> io::Result<()> {
    if printed == wanted {
        return println!(rt; "{name} same");
    }
    println!(rt; "{name} differs")?;
    let same = printed
        .split_inclusive('\n')
        .zip(wanted.split_inclusive('\n'))
        .take_while(|(one, other)| one == other)
        .count();
    println!(rt; "printed: {:?}", printed.split_inclusive('\n').nth(same))?;
    println!(rt; "wanted: {:?}", wanted.split_inclusive('\n').nth(same))
}

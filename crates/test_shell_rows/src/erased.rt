//! Whether what `erased` prints of a user is what `show` prints.

use qx_play::play::play;
use qx_script::{Command, Script, parse};
use qx_types::{NoMemory, User};
use std::alloc::Global;

/// Looks at each user of a script, and tells how many there are, no user where a line is bad. None where the two lines
/// print something else of one of them behind all others.
pub fn users_received(alloc: Global, script: &[u8]) -> Result<Option<u8>, NoMemory> {
    let Script::Good(config, _) = parse(alloc, script)? else {
        return Ok(Some(0));
    };
    let mut count: u8 = 0;
    for (number, _) in (1..=16).zip(0..config.user_count()) {
        let user = User(number);
        let shown = printed_last(alloc, script, Command::Show(user))?;
        let erased = printed_last(alloc, script, Command::Erased(user))?;
        if shown != erased {
            return Ok(None);
        }
        count = count.saturating_add(1);
    }
    Ok(Some(count))
}

/// What a line prints behind all lines of a script that take steps, and nothing where a line is bad.
fn printed_last(alloc: Global, script: &[u8], last: Command) -> Result<Vec<u8>, NoMemory> {
    let Script::Good(config, commands) = parse(alloc, script)? else {
        return Ok(Vec::new(alloc));
    };
    let mut lines = Vec::new(alloc);
    for command in commands {
        match command {
            Command::Show(_) | Command::Erased(_) | Command::Trace => {}
            _ => lines.push(command)?,
        }
    }
    lines.push(last)?;
    play(alloc, config, lines)
}

ghost use Rattle.std.specs.Prelude.{◌≡◌, IfOk};
ghost use Rattle.qx_script.specs.Script.{said, script};

use crate::command::Command;
use crate::reading::Reading;
use qx_types::{Config, NoMemory};
use qx_words::words::lines;
use std::alloc::Global;

/// A script that was read.
#[derive(Debug, Drop)]
pub enum Script {
    /// The number of the first bad line.
    Bad(u64),
    /// Who uses the system, and what the lines ask for.
    Good(Config, Vec<Command>),
}

/// Reads a script.
#[tactic(auto, unfolding(crate::specs::Script::script))]
pub fn parse(alloc: Global, text: &[u8]) -> Result<Script, NoMemory>
    ensures script { IfOk result (λ read. said read ≡ script text.now) }
{
    let lines = lines(alloc, text)?;
    let mut reading = Reading::new(alloc);
    let mut words = Vec::new(alloc);
    'lines: for (index, line) in lines.iter().enumerate() {
        if !reading.read(alloc, &mut words, *line)? {
            return Ok(Script::Bad(index as u64 + 1));
        }
    }
    Ok(reading.into_script())
}

//! What the command line asks for.

use clap::error::ErrorKind;
use clap::{Arg, ArgAction, Command};
use std::alloc::{AllocError, Global};
use std::convert::AsStr;

/// What the words of the command line ask for.
#[derive(Clone, Copy)]
pub struct Options<'a> {
    /// Whether lines are kept, so that `trace` can take them anew.
    pub keeps: bool,
    /// A file whose lines come first.
    pub file: Option<&'a str>,
}

/// Why the words give no options.
#[derive(Clone, Copy)]
pub enum OptionsFault {
    /// The words are refused.
    Words,
    /// Memory ran out.
    NoMemory,
}

impl From<AllocError> for OptionsFault {
    ghost use Rattle.std.specs.Prelude.{◌≡◌};
    ghost use Rattle.qx_live_text.specs.declared.options.OptionsFault.TheVariants.{NoMemory};

    ghost from_gives = { λ _ fault. fault ≡ NoMemory };

    fn from(_error: AllocError) -> OptionsFault {
        OptionsFault::NoMemory
    }
}

/// What the words ask for. The first one is the program's name.
pub fn read_options<'a, S: AsStr>(
    alloc: Global,
    words: &'a [S],
) -> Result<Options<'a>, OptionsFault> {
    match command(alloc)?.try_get_matches_from(words) {
        Ok(matches) => Ok(Options {
            keeps: matches.get_flag("keep"),
            file: matches.get_str("file"),
        }),
        Err(error) => Err(fault_of(&error)),
    }
}

/// The command: a flag and a file.
fn command<'a>(alloc: Global) -> Result<Command<'a>, AllocError> {
    let keep = Arg::new(alloc, "keep")
        .long("keep")
        .action(ArgAction::SetTrue);
    Command::new(alloc, "qxlive")
        .arg(keep)?
        .arg(Arg::new(alloc, "file"))
}

/// What clap's error comes to: refused words, or want of memory.
fn fault_of(error: &clap::Error) -> OptionsFault {
    match error.kind() {
        ErrorKind::OutOfMemory => OptionsFault::NoMemory,
        _ => OptionsFault::Words,
    }
}

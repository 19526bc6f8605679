ghost use Rattle.std.specs.Prelude.{◌≡◌, ◌↔◌, [], map, IfOk, IsErrOf, OnOk, option_map};
ghost use Rattle.clap.specs.Words.{app_of, kind_of};
ghost use Rattle.qx_sh.specs.Options.{AsksFor, AsksForNone, limit_text, qnxsh_command, refusal};

use crate::limit::Options;
use clap::error::ErrorKind;
use clap::{Arg, Command};
use std::alloc::{AllocError, Global};
use std::convert::AsStr;
use thiserror::Error;

/// Why the command line gives no options.
#[derive(Clone, Copy, Debug, PartialEq, Eq, Error)]
pub enum OptionsFault {
    /// The words are refused, or the limit's text is no limit.
    #[error("the words are refused")]
    Words,
    /// Memory ran out.
    #[error("memory ran out")]
    NoMemory,
}

impl From<AllocError> for OptionsFault {
    ghost use Rattle.std.specs.Prelude.{◌≡◌};
    ghost use Rattle.qx_sh.specs.declared.options.OptionsFault.TheVariants.{NoMemory};

    ghost from_gives = { λ _ fault. fault ≡ NoMemory };

    fn from(_error: AllocError) -> OptionsFault {
        OptionsFault::NoMemory
    }
}

/// What the words of the command line ask for. The first word is the program's name.
/// `NoMemory` comes only where memory ran out.
pub fn options<S: AsStr>(alloc: Global, words: &[S]) -> Result<Options, OptionsFault>
    ensures asked { IfOk result (λ options. AsksFor (map S.text words.now) options.limit) }
    ensures refused { IsErrOf result OptionsFault.Words → AsksForNone (map S.text words.now) }
{
    match given_limit(alloc, words)? {
        Some(text) => Options::with_limit_text(text).ok_or(OptionsFault::Words),
        None => Ok(Options::default()),
    }
}

// The text of `--limit`, none where the words do not name it.
fn given_limit<'a, S: AsStr>(alloc: Global, words: &'a [S]) -> Result<Option<&'a str>, OptionsFault>
    ensures text { IfOk result (λ text. option_map (λ s. s.now) text
        ≡ limit_text (map S.text words.entry.now)) }
    ensures taken { OnOk result (refusal (map S.text words.entry.now) ≡ []) }
    ensures refused { IsErrOf result OptionsFault.Words
        → ¬ (refusal (map S.text words.entry.now) ≡ []) }
{
    match command(alloc)?.try_get_matches_from(words) {
        Ok(matches) => Ok(matches.get_str("limit")),
        Err(error) => Err(fault_of(&error)),
    }
}

// The command with its one option.
fn command<'a>(alloc: Global) -> Result<Command<'a>, AllocError>
    ensures { IfOk result (λ command. app_of command ≡ qnxsh_command) }
{
    Command::new(alloc, "qnxsh").arg(Arg::new(alloc, "limit").long("limit"))
}

// What clap's error comes to: refused words, or want of memory.
fn fault_of(error: &clap::Error) -> OptionsFault
    ensures { (result ≡ OptionsFault.NoMemory) ↔ (kind_of error.now ≡ ErrorKind.OutOfMemory) }
{
    match error.kind() {
        ErrorKind::OutOfMemory => OptionsFault::NoMemory,
        _ => OptionsFault::Words,
    }
}

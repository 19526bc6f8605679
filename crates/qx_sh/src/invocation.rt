ghost use Rattle.std.specs.Prelude.{◌≡◌, ◌≢◌, IfOk, IsErrOf, MatchResult, OnErr, map};
ghost use Rattle.std.specs.IoError.{error_kind};
ghost use Rattle.qx_sh.specs.Invocation.{EndsOn, EndsUnread, Exits};
ghost use Rattle.qx_sh.specs.Run.{EndsAs, WritesNothing};
ghost use Rattle.qx_sh.specs.Watched.{has_failed, held, told_by};

use crate::ending::{End, report};
use crate::limit::Options;
use crate::options::{OptionsFault, options};
use crate::run::run;
use crate::watched::{Sink, Source, Watched};
use std::alloc::Global;
use std::convert::AsStr;
use std::io;
use std::io::ErrorKind;

/// The whole shell: takes the words of the command line, or the error for which they could not be had, runs the script
/// from the input, writes its text to the output and one line on any other end than `Done` to the errors. Returns the
/// exit status.
pub fn invoke<S: AsStr + Drop, R: Source, W: Sink, E: Sink>(
    alloc: Global,
    words: io::Result<Vec<S>>,
    input: &mut Watched<R>,
    output: &mut Watched<W>,
    errors: &mut Watched<E>,
) -> u8
    ensures exit { Exits (λ end. MatchResult words
        (λ words. EndsOn (map S.text words.items) (told_by R.remaining W.contents input.old input.new output.old output.new) end)
        (λ error. EndsUnread (error_kind error) (told_by R.remaining W.contents input.old input.new output.old output.new) end))
        (held E.contents errors.old) (held E.contents errors.new) (has_failed errors.new) result }
{
    let end = end_of(alloc, words, input, output);
    report(&end, errors);
    end.status()
}

/// How the shell ends, before that is reported.
fn end_of<S: AsStr + Drop, R: Source, W: Sink>(
    alloc: Global,
    words: io::Result<Vec<S>>,
    input: &mut Watched<R>,
    output: &mut Watched<W>,
) -> End
    ensures ends { MatchResult words
        (λ words. EndsOn (map S.text words.items) (told_by R.remaining W.contents input.old input.new output.old output.new) result)
        (λ error. EndsUnread (error_kind error) (told_by R.remaining W.contents input.old input.new output.old output.new) result) }
{
    match words {
        Ok(words) => run_as_asked(alloc, options(alloc, &words), input, output),
        Err(error) => unread(&error),
    }
}

/// How the shell ends with these options, or where the words give none.
fn run_as_asked<R: Source, W: Sink>(
    alloc: Global,
    options: Result<Options, OptionsFault>,
    input: &mut Watched<R>,
    output: &mut Watched<W>,
) -> End
    ensures ran { IfOk options (λ options. EndsAs options.limit (told_by R.remaining W.contents input.old input.new output.old output.new) result) }
    ensures words { IsErrOf options OptionsFault.Words → result ≡ End.Words }
    ensures memory { IsErrOf options OptionsFault.NoMemory → result ≡ End.Memory }
    ensures writes_nothing { OnErr options (WritesNothing (told_by R.remaining W.contents input.old input.new output.old output.new)) }
{
    match options {
        Ok(options) => run(alloc, input, output, &options),
        Err(OptionsFault::Words) => End::Words,
        Err(OptionsFault::NoMemory) => End::Memory,
    }
}

/// What words that could not be had come to: want of memory, or words that are no text.
fn unread(error: &io::Error) -> End
    ensures memory { error_kind error.now ≡ ErrorKind.OutOfMemory → result ≡ End.Memory }
    ensures words { error_kind error.now ≢ ErrorKind.OutOfMemory → result ≡ End.Words }
{
    match error.kind() {
        ErrorKind::OutOfMemory => End::Memory,
        _ => End::Words,
    }
}

//! The whole shell, from the words of the command line to its exit status.

use crate::shell::streams::{FailingFlush, FailingWriter, SCRIPT, SHOWN, kept};
use qx_sh::invocation::invoke;
use qx_sh::watched::Watched;
use std::alloc::{AllocError, Global};
use std::io;
use std::io::{ErrorKind, Write};
use std::test::Fail;

/// The status and the line on the errors of an end.
const DONE: (u8, &[u8]) = (0, b"");

const INPUT: (u8, &[u8]) = (1, b"qnxsh: input\n");

const WORDS: (u8, &[u8]) = (2, b"qnxsh: words\n");

const MEMORY: (u8, &[u8]) = (4, b"qnxsh: memory\n");

/// Words or the error for which they could not be had, a script, its text, and its end.
const ENDS: &[(Result<&[&str], ErrorKind>, &[u8], &[u8], (u8, &[u8]))] = &[
    (Ok(&["qnxsh", "--limit", "133"]), SCRIPT, SHOWN, DONE),
    (Ok(&["qnxsh", "--limit", "132"]), SCRIPT, b"", INPUT),
    (Ok(&["qnxsh", "--limit", "6"]), b"user a", b"", DONE),
    (Ok(&["qnxsh", "--limit", "6"]), b"user ab", b"", INPUT),
    (Ok(&["qnxsh", "--limit", "0"]), SCRIPT, b"", WORDS),
    (Ok(&["qnxsh", "--limit", "16777217"]), SCRIPT, b"", WORDS),
    (Ok(&["qnxsh", "x"]), SCRIPT, b"", WORDS),
    (Err(ErrorKind::InvalidData), SCRIPT, b"", WORDS),
    (Err(ErrorKind::OutOfMemory), SCRIPT, b"", MEMORY),
];

#[test]
fn ends_by_words_and_script(rt: HostRuntime) -> Result<(), Fail> {
    for (given, script, shown, (status, told)) in ENDS {
        let words = match given {
            Ok(words) => Ok(Vec::from_slice(rt.alloc(), words)?),
            Err(error) => Err(io::Error::from(*error)),
        };
        let mut script = Watched::new(*script);
        let mut output = kept(rt.alloc());
        let mut errors = kept(rt.alloc());
        let ended = invoke(rt.alloc(), words, &mut script, &mut output, &mut errors);
        assert!(rt; ended == *status, "{given:?}");
        assert!(rt; output.into_inner().as_slice() == *shown, "{given:?}");
        assert!(rt; errors.into_inner().as_slice() == *told, "{given:?}");
    }
    Ok(())
}

/// Whether the shell ends with status 1, and tells so, where the script's text goes to this output.
fn fails_at<W: Write>(alloc: Global, output: &mut Watched<W>) -> Result<bool, AllocError> {
    let mut script = Watched::new(SCRIPT);
    let mut errors = kept(alloc);
    let words = Ok(vec![in alloc; "qnxsh"]?);
    let status = invoke(alloc, words, &mut script, output, &mut errors);
    Ok(status == 1 && errors.into_inner().as_slice() == b"qnxsh: output\n".as_slice())
}

#[test]
fn ends_with_status_1_at_a_write_that_fails(rt: HostRuntime) -> Result<(), Fail> {
    let writer = FailingWriter::new(rt.alloc(), 5, Some(ErrorKind::StorageFull));
    let mut output = Watched::new(writer);
    assert!(rt; fails_at(rt.alloc(), &mut output)?);
    assert!(rt; output.into_inner().taken.as_slice() == &SHOWN[..5]);
    Ok(())
}

#[test]
fn ends_with_status_1_at_a_flush_that_fails(rt: HostRuntime) -> Result<(), Fail> {
    let taken = Vec::new(rt.alloc());
    let mut output = Watched::new(FailingFlush { taken });
    assert!(rt; fails_at(rt.alloc(), &mut output)?);
    assert!(rt; output.into_inner().taken.as_slice() == SHOWN);
    Ok(())
}

#[test]
fn keeps_its_status_where_the_errors_fail(rt: HostRuntime) -> Result<(), Fail> {
    let words = Ok(vec![in rt.alloc(); "qnxsh", "x"]?);
    let mut script = Watched::new(SCRIPT);
    let mut output = kept(rt.alloc());
    let mut errors = Watched::new(FailingWriter::new(rt.alloc(), 3, None));
    let status = invoke(rt.alloc(), words, &mut script, &mut output, &mut errors);
    assert!(rt; status == 2 && output.into_inner().is_empty());
    assert!(rt; errors.into_inner().taken.as_slice() == b"qnx".as_slice());
    Ok(())
}

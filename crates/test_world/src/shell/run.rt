//! How a run ends, with readers and writers that fail.

use crate::shell::streams::{FailingFlush, FailingReader, FailingWriter, SCRIPT, SHOWN, kept};
use qx_sh::ending::End;
use qx_sh::limit::Options;
use qx_sh::run::run;
use qx_sh::watched::Watched;
use std::alloc::Global;
use std::io::{ErrorKind, Write};

/// Whether the script ends so where this is the last of the reads that don't fail, this is written, and the reader has
/// failed exactly if that is the end.
fn ends_with_reads(
    alloc: Global,
    reads: usize,
    error: ErrorKind,
    end: &End,
    written: &[u8],
) -> bool {
    let mut reader = Watched::new(FailingReader {
        bytes: SCRIPT,
        reads,
        error,
    });
    let mut writer = kept(alloc);
    run(alloc, &mut reader, &mut writer, &Options::default()) == *end
        && reader.has_failed() == (*end == End::Input)
        && writer.into_inner().as_slice() == written
}

#[test]
fn reads_one_byte_at_a_time(rt: HostRuntime) {
    let reads = SCRIPT.len() + 1;
    assert!(rt; ends_with_reads(rt.alloc(), reads, ErrorKind::Other, &End::Done, SHOWN));
    for error in [ErrorKind::Other, ErrorKind::Interrupted] {
        for reads in 0..SCRIPT.len() + 1 {
            assert!(rt;
                ends_with_reads(rt.alloc(), reads, error, &End::Input, b""),
                "at {reads}"
            );
        }
    }
}

/// Whether the script ends so with this writer, which then has failed exactly if the script is not done.
fn ends_so<W: Write>(alloc: Global, writer: &mut Watched<W>, end: &End) -> bool {
    let mut reader = Watched::new(SCRIPT);
    run(alloc, &mut reader, writer, &Options::default()) == *end
        && writer.has_failed() == (*end != End::Done)
}

/// Whether the script ends so where this is the last of the writes that don't fail, with as many bytes taken.
fn ends_with_writes(alloc: Global, writes: usize, error: Option<ErrorKind>, end: &End) -> bool {
    let mut writer = Watched::new(FailingWriter::new(alloc, writes, error));
    ends_so(alloc, &mut writer, end)
        && writer.into_inner().taken.as_slice() == SHOWN.get(..writes).unwrap_or(b"")
}

#[test]
fn writes_one_byte_at_a_time(rt: HostRuntime) {
    assert!(rt; ends_with_writes(rt.alloc(), SHOWN.len(), None, &End::Done));
    for error in [Some(ErrorKind::Other), Some(ErrorKind::Interrupted), None] {
        for writes in 0..SHOWN.len() {
            assert!(rt;
                ends_with_writes(rt.alloc(), writes, error, &End::Output),
                "at {writes}"
            );
        }
    }
}

#[test]
fn ends_with_output_at_a_flush_that_fails(rt: HostRuntime) {
    let taken = Vec::new(rt.alloc());
    let mut writer = Watched::new(FailingFlush { taken });
    assert!(rt; ends_so(rt.alloc(), &mut writer, &End::Output));
    assert!(rt; writer.into_inner().taken.as_slice() == SHOWN);
}

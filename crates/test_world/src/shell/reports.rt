//! The line that tells an end, and its status.

use crate::shell::streams::{FailingWriter, kept};
use qx_sh::ending::{End, report};
use qx_sh::watched::Watched;
use std::io::ErrorKind;

#[test]
fn reports_each_end(rt: HostRuntime) {
    let ends = [
        (End::Done, 0, ""),
        (End::Input, 1, "qnxsh: input\n"),
        (End::Output, 1, "qnxsh: output\n"),
        (End::Words, 2, "qnxsh: words\n"),
        (End::Line(1), 3, "qnxsh: line 1\n"),
        (
            End::Line(18_446_744_073_709_551_615),
            3,
            "qnxsh: line 18446744073709551615\n",
        ),
        (End::Memory, 4, "qnxsh: memory\n"),
    ];
    for (end, status, line) in ends {
        let mut errors = kept(rt.alloc());
        report(&end, &mut errors);
        assert!(rt; end.status() == status, "at {line}");
        assert!(rt;
            errors.into_inner().as_slice() == line.as_bytes(),
            "at {line}"
        );
    }
}

#[test]
fn a_report_that_can_not_be_written_is_dropped(rt: HostRuntime) {
    for error in [Some(ErrorKind::Other), None] {
        let mut errors = Watched::new(FailingWriter::new(rt.alloc(), 3, error));
        report(&End::Memory, &mut errors);
        assert!(rt; errors.has_failed());
        assert!(rt; errors.into_inner().taken.as_slice() == b"qnx".as_slice());
    }
}

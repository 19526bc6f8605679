//! What the words of the command line ask for.

use qx_sh::limit::{DEFAULT_LIMIT, Options};
use qx_sh::options::{OptionsFault, options};
use std::alloc::{AllocError, Global};
use std::convert::AsStr;

/// Whether the words ask for this limit.
fn ask_for<S: AsStr>(alloc: Global, words: &[S], limit: usize) -> bool {
    match options(alloc, words) {
        Ok(options) => options.limit == limit,
        Err(_) => false,
    }
}

/// Whether the words are refused.
fn are_refused(alloc: Global, words: &[&str]) -> bool {
    match options(alloc, words) {
        Err(OptionsFault::Words) => true,
        _ => false,
    }
}

#[test]
fn asks_for_a_limit(rt: HostRuntime) -> Result<(), AllocError> {
    assert!(rt; DEFAULT_LIMIT == 1_048_576);
    assert!(rt; ask_for(rt.alloc(), &["qnxsh"], DEFAULT_LIMIT));
    assert!(rt; ask_for(rt.alloc(), &["qnxsh", "--"], DEFAULT_LIMIT));
    assert!(rt; ask_for(rt.alloc(), &["qnxsh", "--limit=6"], 6));
    assert!(rt; ask_for(rt.alloc(), &["qnxsh", "--limit", "1"], 1));
    assert!(rt; ask_for(rt.alloc(), &["qnxsh", "--limit", "16777216"], 16_777_216));
    let owned = vec![in rt.alloc(); String::from_str(rt.alloc(), "qnxsh")?]?;
    assert!(rt; ask_for(rt.alloc(), owned.as_slice(), DEFAULT_LIMIT));
    Ok(())
}

#[test]
fn refuses_other_words(rt: HostRuntime) {
    for text in ["0", "16777217", "06", "+6", "", "6 ", "x"] {
        assert!(rt;
            are_refused(rt.alloc(), &["qnxsh", "--limit", text]),
            "at {text}"
        );
    }
    assert!(rt; Options::with_limit_text("99999999999999999999").is_none());
    assert!(rt; are_refused(rt.alloc(), &["qnxsh", "--limit"]));
    assert!(rt; are_refused(rt.alloc(), &["qnxsh", "--limit=6", "--limit=7"]));
    assert!(rt; are_refused(rt.alloc(), &["qnxsh", "--", "x"]));
    for word in ["x", "--help", "-h", "--version"] {
        assert!(rt; are_refused(rt.alloc(), &["qnxsh", word]), "at {word}");
    }
}

//! A request, taken from its call to its answer by `ask`.

use crate::calling::ask;
use crate::reads::opens_third;
use qx_types::{Bytes, OFlags, Request, User};
use test_steps::same::first_thread;
use test_steps::script::{LinesFault, ran};

#[test]
fn opens_the_root(rt: HostRuntime) -> Result<(), LinesFault> {
    let mut traced = ran(rt.alloc(), "spawn ann 1 10\n")?;
    let open = Request::OpenPath {
        path: Bytes::from_slice(rt.alloc(), b"/ann")?,
        flags: OFlags::READ,
        mode: 0,
    };
    assert!(rt; ask(&mut traced, first_thread(User(1)), open, 5).is_ok());
    assert!(rt; opens_third(traced.last()));
    Ok(())
}

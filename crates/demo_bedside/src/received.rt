//! What a bed received, in a run and in its erased run.

use anyhow::{bail, ensure};
use qx_play::text::push_transcript;
use qx_types::User;
use qx_world::Traced;
use std::alloc::Global;

/// It is an error where a user's transcript is not, byte for byte, that of the run of the steps that were taken by or for that user
/// alone.
pub fn compare(alloc: Global, traced: &Traced, user: User) -> anyhow::Result<()> {
    let Ok(erased) = traced.erased(user) else {
        bail!("out of memory");
    };
    let whole = transcript(alloc, traced, user)?;
    let own = transcript(alloc, &erased, user)?;
    ensure!(
        !whole.is_empty() && whole == own,
        "{user:?} received something else in the trace of its own steps, or nothing"
    );
    Ok(())
}

/// What `show` prints of a user.
fn transcript(alloc: Global, traced: &Traced, user: User) -> anyhow::Result<Vec<u8>> {
    let mut text = Vec::new(alloc);
    let config = traced.world().config();
    match push_transcript(&mut text, config, traced.entries(), user) {
        Ok(()) => Ok(text),
        Err(_) => bail!("out of memory"),
    }
}

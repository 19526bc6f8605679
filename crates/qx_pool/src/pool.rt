//! The server whose steps are stored, with its seats.

ghost use Rattle.std.specs.Prelude.{◌≡◌, ◌+◌, ◌≤◌, [], All, IfOk, OnOk, vec_len};

use crate::client::ClientOf;
use crate::server::ServerOf;
use qx_monitor::Bells;
use qx_storing::{Seat, Storing};
use qx_types::{Config, NoMemory};
use std::alloc::{AllocError, Global};
use std::sync::ledger::{Blank, Ledger, Share};

/// A trace under a lock, to which workers and clients come, each at a seat of its own.
pub type Server<L> = ServerOf<Storing<L>>;

/// A thread of a process, at a seat of a server whose steps are stored.
pub type Client<L> = ClientOf<Storing<L>>;

impl<L: Ledger> Server<L> {
    /// A server of a system at boot, and its seats: one for each of the configuration's workers, and so many more for
    /// clients, as many in all as the blank ledger has parts.
    pub fn new(
        alloc: Global,
        blank: Blank,
        config: Config,
        clients: usize,
    ) -> Result<(Server<L>, Vec<Seat<L>>), NoMemory>
        requires name { blank.name ≡ L.name }
        requires parts { blank.parts ≡ L.parts }
        requires seats { blank.parts ≡ config.workers + clients }
        ensures made { IfOk result (λ r. r.0 ≡ config.workers + clients) }
        ensures seats { IfOk result (λ r. vec_len r.1 ≡ config.workers + clients) }
        ensures empty { IfOk result (λ r. All (λ s. s.notes.items ≡ []) r.1.items) }
    {
        let workers = config.workers() as usize;
        let (book, mut all) = blank.open::<L>();
        let mut seats = Vec::new(alloc);
        add_seats(alloc, &mut seats, &mut all, workers)?;
        add_seats(alloc, &mut seats, &mut all, clients)?;
        let under = Storing::new(alloc, config, book, all)?;
        let bells = Bells::new(alloc)?;
        let server = ServerOf::over(under, bells, seats.len());
        Ok((server, seats))
    }
}

/// So many seats more, each with one part of what is there.
fn add_seats<L: Ledger>(
    alloc: Global,
    seats: &mut Vec<Seat<L>>,
    all: &mut Share<L>,
    count: usize,
) -> Result<(), AllocError>
    requires parts { count ≤ all.old.parts }
    requires amount { all.old.amount ≡ 0 }
    requires empty { All (λ s. s.notes.items ≡ []) seats.old.items }
    ensures seats { OnOk result (vec_len seats.new ≡ vec_len seats.old + count) }
    ensures parts { OnOk result (all.new.parts + count ≡ all.old.parts) }
    ensures amount { OnOk result (all.new.amount ≡ 0) }
    ensures empty { OnOk result (All (λ s. s.notes.items ≡ []) seats.new.items) }
{
    'adding: for _number in 0..count {
        seats.push(Seat::new(alloc, all.split_off(1, 0)))?;
    }
    Ok(())
}

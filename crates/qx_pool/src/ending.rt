//! The end of a server: what each seat noted, against what was stored.

ghost use Rattle.std.specs.Prelude.{◌≡◌, ◌<◌, ◌≤◌, IfErr, IfOk, length, map, sum_by, vec_len};
ghost use Rattle.qx_world.specs.Trace.{run_of};
ghost use Rattle.qx_pool.specs.Ends.{MatchFault};
ghost use Rattle.qx_storing.specs.Notes.{Agrees};

use crate::pool::Server;
use qx_storing::Seat;
use qx_world::Traced;
use std::sync::ledger::Ledger;

/// Why a server has no trace to give, with what it took: the server, and the seats.
#[derive(Drop)]
pub enum FinishFault<S, V> {
    /// Fewer seats came back than were made. The server goes on.
    Missing(S, V),
    /// What the seats noted is not what was stored.
    Disagrees(Traced, V),
}

/// The trace of a server whose seats all came back, if each note of each seat stands in what was stored, at its place. It
/// wants no memory, and takes time in proportion to the steps.
pub fn finish<L: Ledger>(
    server: Server<L>,
    seats: Vec<Seat<L>>,
) -> Result<Traced, FinishFault<Server<L>, Vec<Seat<L>>>>
    ensures whole { IfOk result (λ traced. (server ≤ vec_len seats) × (length traced.steps ≡ sum_by (λ s. vec_len s.notes) seats.items) × Agrees (run_of traced).entries (map (λ s. s.notes.items) seats.items)) }
    ensures faults { IfErr result (λ fault. MatchFault fault
        (λ back all. (vec_len seats < server) × (back ≡ server) × (all ≡ seats))
        (λ traced all. (server ≤ vec_len seats) × (length traced.steps ≡ sum_by (λ s. vec_len s.notes) seats.items)
        × (map (λ s. s.notes.items) all.items ≡ map (λ s. s.notes.items) seats.items) × (Agrees (run_of traced).entries (map (λ s. s.notes.items) seats.items) → ⊥))) }
{
    if seats.len() < server.made {
        return Err(FinishFault::Missing(server, seats));
    }
    let (traced, seats, is_whole) = server.into_under().end(seats);
    if is_whole {
        Ok(traced)
    } else {
        Err(FinishFault::Disagrees(traced, seats))
    }
}

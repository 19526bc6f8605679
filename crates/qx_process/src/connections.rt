//! The connections of a process, from 3: a place for each number.

ghost use Rattle.std.specs.Prelude.{◌≡◌, ◌∷◌, [], Some, None, slice_set};
ghost use Rattle.qx_isolation.specs.Rows.{with_row};

use arrayvec::ArrayVec;
use qx_machine::Connection;
use qx_types::{Coid, Limits};

/// A place for each number up to the last.
const PLACES: usize = Limits::LAST_CONNECTION + 1;

/// Places 0 to 2 are no connection's.
pub type Connections = ArrayVec<Option<Connection>, PLACES>;

/// No connections.
pub fn no_connections() -> Connections
    ensures none { result.items ≡ None ∷ None ∷ None ∷ [] }
{
    let mut connections = ArrayVec::new();
    connections.push(None);
    connections.push(None);
    connections.push(None);
    connections
}

/// The open control block of a connection.
pub fn set_block(connections: &mut Connections, coid: Coid, block: u16)
    ensures block { connections.new.items ≡ with_row connections.old.items coid.0 (λ connection. record connection { block = Some block }) }
{
    let place = coid.0 as usize;
    if place < connections.len() {
        if let Some(connection) = connections[place].as_mut() {
            connection.block = Some(block);
        }
    }
}

/// A connection goes.
pub fn free(connections: &mut Connections, coid: Coid)
    ensures freed { connections.new.items ≡ slice_set connections.old.items coid.0 None }
{
    let place = coid.0 as usize;
    if place < connections.len() {
        connections[place] = None;
    }
}

// Connections by number: what comes on them, and what is sent.
ghost use Rattle.std.specs.Prelude.{◌≡◌, List, [], ◌∷◌, ◌++◌, length, IsTrue, IfOk};
ghost use Rattle.cube_io.specs.Causes.{HasCause};
ghost use Rattle.cube_io.specs.Seen.{StoreState, WireState};
ghost use Rattle.cube_io.specs.Told.{ListensOn, PlaysOn};
ghost use Rattle.cube_io.specs.Wires.{LogEntry, FitsBuffer, IsOpen, IsSound, SendTells, NextTells};
ghost use Rattle.cube_io.specs.Wires.LogEntry.{Shut};

use crate::{Failed, Store};
use cube_model::Text;

/// What came over a wire.
#[derive(Clone, Copy, Debug, PartialEq, Eq)]
pub enum Event {
    /// A connection was opened.
    Opened(u32),
    /// So many bytes on a connection, at the front of the buffer.
    Piece(u32, usize),
    /// The other side closed it.
    Closed(u32),
    /// Nothing more comes.
    End,
}

/// Connections by number. What stands under `told` holds where the wire tells its log. What was sent goes out when the next event is
/// looked for, over a store as it stands then.
pub trait Wire {
    /// What it tells of its log, of its addresses and of what it is to play, and how often it, and a send on it, has failed.
    ghost state: { Self → WireState };

    /// Over a store that tells this, behind this log, the next event may be looked for, and what was sent may go out. What may be is
    /// for those to say who give the wire: who serves it has to show it, whatever it is.
    ghost allows: { StoreState → List LogEntry → Type 0 };

    /// Listens on an address. A connection that is still for so many seconds may be closed; none where they are 0. What it heard
    /// is the address with the seconds.
    fn listen(&mut self, address: &Text, idle: u32) -> Result<(), Failed>
        ensures cause { HasCause (state self.old).faults (state self.new).faults result }
        ensures sends { (state self.new).send_faults ≡ (state self.old).send_faults }
        ensures told { (state self.new).told ≡ (state self.old).told }
        ensures log { IsTrue (state self.old).told → (state self.new).log ≡ (state self.old).log }
        ensures heard { IsTrue (state self.old).told → ListensOn result (state self.old).heard (state self.new).heard address.now idle };

    /// The next event. The bytes of a piece stand at the front of the buffer.
    fn next<S: Store>(&mut self, store: &S, buf: &mut [u8]) -> Result<Event, Failed>
        requires buf { length buf.old ≡ 65536 }
        requires allowed { IsTrue (state self.old).told → allows (S.state store.now) (state self.old).log }
        ensures cause { HasCause (state self.old).faults (state self.new).faults result }
        ensures sends { (state self.new).send_faults ≡ (state self.old).send_faults }
        ensures plays { PlaysOn (state self.old) (state self.new) }
        ensures fits { IfOk result (λ event. FitsBuffer event buf.new) }
        ensures log { IsTrue (state self.old).told → NextTells result buf.new (state self.old).log (state self.new).log };

    /// Sends a piece. After a failure a prefix of it went out, and the connection can only be closed.
    fn send(&mut self, c: u32, piece: &[u8]) -> Result<(), Failed>
        requires { IsTrue (state self.old).told → IsSound c (state self.old).log }
        ensures cause { HasCause (state self.old).send_faults (state self.new).send_faults result }
        ensures faults { (state self.new).faults ≡ (state self.old).faults }
        ensures plays { PlaysOn (state self.old) (state self.new) }
        ensures log { IsTrue (state self.old).told → SendTells c piece.now result (state self.old).log (state self.new).log };

    /// Closes a connection.
    fn close(&mut self, c: u32)
        requires { IsTrue (state self.old).told → IsOpen c (state self.old).log }
        ensures faults { (state self.new).faults ≡ (state self.old).faults }
        ensures sends { (state self.new).send_faults ≡ (state self.old).send_faults }
        ensures plays { PlaysOn (state self.old) (state self.new) }
        ensures log { IsTrue (state self.old).told → (state self.new).log ≡ (state self.old).log ++ Shut c ∷ [] };
}

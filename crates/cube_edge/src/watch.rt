// Who is told of what happens on a wire.
ghost use Rattle.std.specs.Prelude.{◌≡◌, ◌↔◌, ◌<◌, ◌≤◌, length, IsTrue, OnOk, OnErr};
ghost use Rattle.cube_io.specs.Causes.{HasCause};
ghost use Rattle.cube_io.specs.Wires.{FitsBuffer, IsOpen, IsSound, arrival_of};
ghost use Rattle.cube_io.specs.Wires.LogEntry.{Heard, Sent, Torn, Shut};
ghost use Rattle.cube_edge.specs.Watches.{WatchState, Notes, HearsOf, no_watch};

use cube_io::{Event, Failed};
use cube_model::Text;

/// Who is told of each event, send and close on a wire, as it happens. What stands under `told` holds where the watch tells
/// them.
pub trait Watch {
    /// What it tells, and the space that it has.
    ghost state: { Self → WatchState };

    /// Whether it takes one more event or send of so many bytes.
    fn takes(&self, len: usize) -> bool
        ensures { IsTrue result ↔ (len < (state self.now).capacity) };

    /// Says that an event of at most so many bytes may come. It fails where there is no space for it.
    fn expect_event(&mut self, len: usize) -> Result<(), Failed>
        ensures cause { HasCause (state self.old).faults (state self.new).faults result }
        ensures capacity { OnOk result (len < (state self.old).capacity) }
        ensures full { OnErr result ((state self.old).capacity ≤ len) }
        ensures same { OnOk result (state self.new ≡ state self.old) }
        ensures told { (state self.new).told ≡ (state self.old).told }
        ensures log { IsTrue (state self.old).told → (state self.new).log ≡ (state self.old).log }
        ensures heard { IsTrue (state self.old).told → (state self.new).heard ≡ (state self.old).heard };

    /// The wire is to listen on an address, where a connection may be still for so many seconds.
    fn listen(&mut self, address: &Text, idle: u32) -> Result<(), Failed>
        ensures cause { HasCause (state self.old).faults (state self.new).faults result }
        ensures told { (state self.new).told ≡ (state self.old).told }
        ensures log { IsTrue (state self.old).told → (state self.new).log ≡ (state self.old).log }
        ensures heard { IsTrue (state self.old).told → HearsOf result (state self.old).heard (state self.new).heard address.now idle };

    /// An event came. The bytes of a piece stand at the front of the buffer.
    fn hear(&mut self, event: Event, buf: &[u8])
        requires fits { FitsBuffer event buf.now }
        requires capacity { length buf.now < (state self.old).capacity }
        ensures { Notes (Heard (arrival_of event buf.now)) (state self.old) (state self.new) };

    /// A piece was sent.
    fn sent(&mut self, c: u32, piece: &[u8])
        requires { length piece.now < (state self.old).capacity }
        ensures { Notes (Sent c piece.now) (state self.old) (state self.new) };

    /// A send of so many bytes failed, and these went out of it; none where there was no space for it.
    fn torn(&mut self, c: u32, said: &[u8], len: usize)
        requires sound { IsTrue (state self.old).told → IsSound c (state self.old).log }
        requires capacity { 0 < length said.now → length said.now < (state self.old).capacity }
        ensures { Notes (Torn c said.now len) (state self.old) (state self.new) };

    /// A connection was closed.
    fn shut(&mut self, c: u32)
        requires { IsTrue (state self.old).told → IsOpen c (state self.old).log }
        ensures { Notes (Shut c) (state self.old) (state self.new) };
}

/// Nobody is told.
#[derive(Clone, Copy, Debug)]
pub struct NoWatch;

impl Watch for NoWatch {
    ghost state = { λ _. no_watch };

    fn takes(&self, _len: usize) -> bool {
        true
    }

    fn expect_event(&mut self, _len: usize) -> Result<(), Failed> {
        Ok(())
    }

    fn listen(&mut self, _address: &Text, _idle: u32) -> Result<(), Failed> {
        Ok(())
    }

    fn hear(&mut self, _event: Event, _buf: &[u8]) {}

    fn sent(&mut self, _c: u32, _piece: &[u8]) {}

    fn torn(&mut self, _c: u32, _said: &[u8], _len: usize) {}

    fn shut(&mut self, _c: u32) {}
}

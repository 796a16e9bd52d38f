// Sockets by number: what comes on them and what they take, without waiting for any of them.
ghost use Rattle.std.specs.Prelude.{◌≡◌, ◌<◌, ◌≤◌, length, IsTrue, IfOk, OnOk, IfSome};
ghost use Rattle.cube_io.specs.Causes.{HasCause};
ghost use Rattle.cube_edge.specs.Sockets.{SocketsState, OnlyOn, MovedNothing, SameTime, AcceptTells, WaitTells, ReadTells, WriteTells, shut_down};

use cube_io::Failed;
use cube_model::Text;

/// The connection gives no more, or takes no more.
#[derive(Clone, Copy, Debug, PartialEq, Eq)]
pub struct Gone;

/// A socket that listens, and the connections that it accepted, each under the number that the caller gave it. No call but
/// `wait` waits for anybody. What stands under `told` holds where the sockets tell their bytes.
pub trait Sockets {
    /// What they tell of their connections and of the time, and how often they failed.
    ghost state: { Self → SocketsState };

    /// Listens on an address.
    fn listen(&mut self, address: &Text) -> Result<(), Failed>
        ensures cause { HasCause (state self.old).faults (state self.new).faults result }
        ensures quiet { MovedNothing (state self.old) (state self.new) }
        ensures time { SameTime (state self.old) (state self.new) };

    /// Accepts the next connection under a number that no other one has. Tells whether one was there and could be taken.
    fn accept(&mut self, c: u32) -> Result<bool, Failed>
        ensures cause { HasCause (state self.old).faults (state self.new).faults result }
        ensures told { (state self.new).told ≡ (state self.old).told }
        ensures time { SameTime (state self.old) (state self.new) }
        ensures bytes { IsTrue (state self.old).told → AcceptTells c result (state self.old) (state self.new) };

    /// Waits until a connection can be accepted, read or written, for at most so many milliseconds. Tells the time in
    /// milliseconds since it began to listen.
    fn wait(&mut self, millis: u64) -> Result<u64, Failed>
        ensures cause { HasCause (state self.old).faults (state self.new).faults result }
        ensures quiet { MovedNothing (state self.old) (state self.new) }
        ensures time { IsTrue (state self.old).told → WaitTells result (state self.old) (state self.new) };

    /// Reads what is there, at least a byte, to the front of the buffer; nothing where nothing is there yet.
    fn read(&mut self, c: u32, buf: &mut [u8]) -> Result<Option<usize>, Gone>
        requires { 0 < length buf.old }
        ensures size { length buf.new ≡ length buf.old }
        ensures fits { IfOk result (λ count. IfSome count (λ n. (0 < n) × (n ≤ length buf.new))) }
        ensures only { OnlyOn c (state self.old) (state self.new) }
        ensures bytes { IsTrue (state self.old).told → ReadTells c result buf.new (state self.old) (state self.new) };

    /// Writes a front of the piece, of no byte where it takes none now. Tells how many bytes it took.
    fn write(&mut self, c: u32, piece: &[u8]) -> Result<usize, Gone>
        ensures fits { IfOk result (λ n. n ≤ length piece.now) }
        ensures only { OnlyOn c (state self.old) (state self.new) }
        ensures bytes { IsTrue (state self.old).told → WriteTells c result piece.now (state self.old) (state self.new) };

    /// Tells the other side that nothing more is written.
    fn finish(&mut self, c: u32)
        ensures only { OnlyOn c (state self.old) (state self.new) }
        ensures shut { IsTrue (state self.old).told → (state self.new).socket c ≡ shut_down ((state self.old).socket c) };

    /// Closes a connection. Its number is free then.
    fn close(&mut self, c: u32)
        ensures faults { (state self.new).faults ≡ (state self.old).faults }
        ensures quiet { MovedNothing (state self.old) (state self.new) }
        ensures time { SameTime (state self.old) (state self.new) };
}

// Numbered logs of bytes, and what a crash may leave of them.
ghost use Rattle.std.specs.Prelude.{◌≡◌, ◌≤◌, ◌<◌, ◌+◌, ◌^◌, ℕ, List, [], length, IsTrue, IsOk, IfOk, OnOk, OnErr, IsErrOf};
ghost use Rattle.cube_io.specs.declared.faults.ReadFault.TheVariants as fault;
ghost use Rattle.cube_io.specs.Causes.{HasCause, ReadCause};
ghost use Rattle.cube_io.specs.Seen.{StoreState};
ghost use Rattle.cube_io.specs.States.{IsWhole, Appended, Cut, Synced, shortened, settled};
ghost use Rattle.cube_io.specs.Told.{Works, AsksFor, SameLogs, OthersStay};

use crate::{Failed, ReadFault};
use cube_model::Text;
use std::alloc::Global;

/// The log that holds the seal of the facts. The histories of rooms are kept in the logs from 0 on.
pub const SEAL_LOG: u32 = 4_294_967_295;

/// Numbered logs of bytes. What stands under `told` holds where the store tells what it holds.
pub trait Store {
    /// What it tells of its logs and of its calls, whether it was attached, and how often it has failed.
    ghost state: { Self → StoreState };

    /// Takes the store of that name. Every other call needs that this went well once.
    fn attach(&mut self, name: &Text) -> Result<(), Failed>
        ensures cause { HasCause (state self.old).faults (state self.new).faults result }
        ensures told { (state self.new).told ≡ (state self.old).told }
        ensures ok { OnOk result (IsTrue (state self.new).attached) }
        ensures stays { IsTrue (state self.old).attached → IsTrue (state self.new).attached }
        ensures logs { SameLogs (state self.old) (state self.new) }
        ensures names { IsTrue (state self.old).told → AsksFor result (state self.old).names (state self.new).names name.now }
        ensures calls { IsTrue (state self.old).told → (state self.new).calls ≤ (state self.old).calls + 1 };

    /// All the bytes of a log.
    fn read_all(&mut self, alloc: Global, log: u32) -> Result<Text, ReadFault>
        requires { IsTrue (state self.old).attached }
        ensures cause { ReadCause (state self.old).faults (state self.new).faults result }
        ensures works { Works (state self.old) (state self.new) 1 }
        ensures logs { SameLogs (state self.old) (state self.new) }
        ensures bytes { IsTrue (state self.old).told → IfOk result (λ bytes. bytes ≡ ((state self.old).logs log).state.now) }
        ensures fits { IfOk result (λ bytes. length bytes ≤ 2 ^ 28) }
        ensures long { IsTrue (state self.old).told → IsErrOf result fault.TooLong → 2 ^ 28 < length ((state self.old).logs log).state.now };

    /// Puts a piece at the end of a log. A failed call leaves a prefix of it there.
    fn append(&mut self, log: u32, piece: &[u8]) -> Result<(), Failed>
        requires { IsTrue (state self.old).attached }
        ensures cause { HasCause (state self.old).faults (state self.new).faults result }
        ensures works { Works (state self.old) (state self.new) 1 }
        ensures others { OthersStay log (state self.old) (state self.new) }
        ensures empty { piece.now ≡ [] → IsOk result }
        ensures grows { IsTrue (state self.old).told → (unsaid : List ℕ) × OnOk result (unsaid ≡ [])
            × Appended piece.now unsaid ((state self.old).logs log) ((state self.new).logs log) };

    /// Cuts a log to a length. A failed call leaves the log as it was or cut.
    fn cut(&mut self, log: u32, len: u64) -> Result<(), Failed>
        requires attached { IsTrue (state self.old).attached }
        requires within { IsTrue (state self.old).told → len ≤ length ((state self.old).logs log).state.now }
        ensures cause { HasCause (state self.old).faults (state self.new).faults result }
        ensures works { Works (state self.old) (state self.new) 1 }
        ensures others { OthersStay log (state self.old) (state self.new) }
        ensures passes { IsTrue (state self.old).told → Cut len ((state self.old).logs log) ((state self.new).logs log) }
        ensures done { IsTrue (state self.old).told → OnOk result (((state self.new).logs log).state ≡ shortened ((state self.old).logs log).state len) };

    /// Puts on the disk all that a read gives.
    fn sync(&mut self, log: u32) -> Result<(), Failed>
        requires { IsTrue (state self.old).attached }
        ensures cause { HasCause (state self.old).faults (state self.new).faults result }
        ensures works { Works (state self.old) (state self.new) 1 }
        ensures others { OthersStay log (state self.old) (state self.new) }
        ensures passes { IsTrue (state self.old).told → Synced ((state self.old).logs log) ((state self.new).logs log) }
        ensures done { IsTrue (state self.old).told → OnOk result (((state self.new).logs log).state ≡ settled ((state self.old).logs log).state.now) }
        ensures failed { IsTrue (state self.old).told → OnErr result (((state self.new).logs log).state ≡ ((state self.old).logs log).state) };

    /// What is safe, followed by some tail, is what a read gives.
    ghost whole: { (store : Self) (log : ℕ) → IsTrue (state store).told → IsWhole ((state store).logs log).state };
}

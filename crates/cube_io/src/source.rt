// Sources of bytes.
ghost use Rattle.std.specs.Prelude.{◌≡◌, ◌↔◌, ◌⊎◌, ◌<◌, ◌≤◌, ℕ, Bool, true, false, List, length, take, drop, Some, Ok, [], ◌++◌};
ghost use Rattle.std.specs.Io.{ReadsAtMost};
ghost use Rattle.std.specs.Io.KnownBytes.{ReadConsumes};
ghost use Rattle.cube_io.specs.Causes.{HasCause};
ghost use Rattle.cube_io.specs.Seen.{SourceState};

use crate::Failed;
use cube_model::Text;

/// A source of bytes.
pub trait Source {
    /// The bytes that are left, where it tells them, whether the end was given, and how often it has failed.
    ghost state: { Self → SourceState };

    /// The next bytes, at the front of the buffer, and how many. 0 is the end, and from then on each call answers 0.
    fn read(&mut self, buf: &mut [u8]) -> Result<usize, Failed>
        requires { 0 < length buf.old }
        ensures bound { ReadsAtMost result buf.new }
        ensures bytes { ReadConsumes (state self.old).left (state self.new).left result buf.new }
        ensures end { ((state self.new).ended ≡ true) ↔ (((state self.old).ended ≡ true) ⊎ (result ≡ Ok 0)) }
        ensures stays { (state self.old).ended ≡ true → result ≡ Ok 0 }
        ensures cause { HasCause (state self.old).faults (state self.new).faults result };
}

/// A source over bytes in memory. It fails at the reads with these numbers, counted from 0.
#[derive(Drop)]
pub struct MemSource {
    bytes: Text,
    at: usize,
    largest: usize,
    failing: Vec<u64>,
    calls: u64,
    faults: u64,
    ended: bool,
    ghost within: { at ≤ length bytes },
    ghost done: { ended ≡ true → at ≡ length bytes },
}

impl MemSource {
    /// Gives at most `largest` bytes at a read, one where that is 0.
    pub fn new(bytes: Text, largest: usize, failing: Vec<u64>) -> Self
        ensures left { (⟦<MemSource as Source>⟧.state result).left ≡ Some bytes }
        ensures fresh { (⟦<MemSource as Source>⟧.state result).ended ≡ false }
        ensures faults { (⟦<MemSource as Source>⟧.state result).faults ≡ 0 }
    {
        MemSource {
            bytes,
            at: 0,
            largest,
            failing,
            calls: 0,
            faults: 0,
            ended: false,
        }
    }
}

impl Source for MemSource {
    ghost state = { λ s. record { left = Some (drop s.at s.bytes); ended = s.ended; faults = s.faults } };

    fn read(&mut self, buf: &mut [u8]) -> Result<usize, Failed> {
        if self.ended {
            return Ok(0);
        }
        let call = self.calls;
        self.calls = self.calls.saturating_add(1);
        if self.failing.contains(&call) {
            self.faults = self.faults.saturating_add(1);
            return Err(Failed);
        }
        let rest = &self.bytes.as_slice()[self.at..];
        let count = copy_front(rest, buf, self.largest.max(1));
        self.at += count;
        self.ended = count == 0;
        Ok(count)
    }
}

// Copies as many bytes to the front as fit, and at most so many, and says how many.
fn copy_front(rest: &[u8], buf: &mut [u8], most: usize) -> usize
    requires capacity { 0 < length buf.old }
    requires some { 0 < most }
    ensures bound { result ≤ length buf.new }
    ensures front { rest.now ≡ take result buf.new ++ drop result rest.now }
    ensures within { result ≤ length rest.now }
    ensures end { result ≡ 0 → rest.now ≡ [] }
{
    let count = rest.len().min(buf.len()).min(most);
    buf[..count].copy_from_slice(&rest[..count]);
    count
}

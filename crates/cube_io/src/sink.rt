// Sinks of bytes.
ghost use Rattle.std.specs.Prelude.{◌≡◌, ◌≤◌, ⊤, ℕ, List, [], length, IsTrue, Some, None, IsOk, IfOk};
ghost use Rattle.cube_io.specs.Causes.{HasCause};
ghost use Rattle.cube_io.specs.Content.{PutAppends};
ghost use Rattle.cube_io.specs.Seen.{SinkState, StoreState};

use crate::{Failed, Store};
use cube_model::NoMemory;
use std::alloc::Global;

/// A sink of bytes. Each piece is put over a store, as it stands: the one that the bytes rest on, or one that tells nothing.
pub trait Sink {
    /// The bytes that were written, where it tells them, how often it has failed, and how often a piece was put with no store that
    /// tells in sight.
    ghost state: { Self → SinkState };

    /// Over a store that tells this, behind these bytes, this piece may be put. What may be is for those to say who give the sink:
    /// who puts has to show it, whatever it is.
    ghost allows: { StoreState → List ℕ → List ℕ → Type 0 };

    /// Writes the piece at the end, or fails after a prefix of it. An empty piece never fails.
    fn put<S: Store>(&mut self, store: &S, piece: &[u8]) -> Result<(), Failed>
        requires { IsTrue (S.state store.now).told → (bytes : List ℕ) → (state self.old).written ≡ Some bytes → allows (S.state store.now) bytes piece.now }
        ensures bytes { PutAppends (state self.old).written (state self.new).written result piece.now }
        ensures empty { piece.now ≡ [] → IsOk result }
        ensures cause { HasCause (state self.old).faults (state self.new).faults result }
        ensures sight { IsTrue (S.state store.now).told → (state self.new).loose ≡ (state self.old).loose };
}

/// A sink into memory of fixed space. It fails at the puts with these numbers, counted from 0, and where the room is
/// used up.
#[derive(Drop)]
pub struct MemSink {
    bytes: Vec<u8>,
    capacity: usize,
    failing: Vec<u64>,
    calls: u64,
    faults: u64,
}

impl MemSink {
    /// An empty sink, with space for so many bytes.
    pub fn with_capacity(
        alloc: Global,
        capacity: usize,
        failing: Vec<u64>,
    ) -> Result<Self, NoMemory>
        ensures written { IfOk result (λ sink. (⟦<MemSink as Sink>⟧.state sink).written ≡ Some []) }
        ensures faults { IfOk result (λ sink. (⟦<MemSink as Sink>⟧.state sink).faults ≡ 0) }
    {
        Ok(MemSink {
            bytes: Vec::with_capacity(alloc, capacity)?,
            capacity,
            failing,
            calls: 0,
            faults: 0,
        })
    }

    /// The bytes that were written.
    pub fn bytes(&self) -> &[u8]
        ensures { (⟦<MemSink as Sink>⟧.state self.now).written ≡ Some result.now }
    {
        self.bytes.as_slice()
    }
}

impl Sink for MemSink {
    ghost state = { λ s. record { written = Some s.bytes.items; faults = s.faults; loose = 0 } };

    ghost allows = { λ store bytes piece. ⊤ };

    fn put<S: Store>(&mut self, _store: &S, piece: &[u8]) -> Result<(), Failed> {
        if piece.is_empty() {
            return Ok(());
        }
        let call = self.calls;
        self.calls = self.calls.saturating_add(1);
        if self.failing.contains(&call)
            || piece.len() > self.capacity.saturating_sub(self.bytes.len())
            || self.bytes.extend_from_slice(piece).is_err()
        {
            self.faults = self.faults.saturating_add(1);
            return Err(Failed);
        }
        Ok(())
    }
}

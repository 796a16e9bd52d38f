// The line that no line feed has ended yet.
ghost use Rattle.std.specs.Prelude.{◌≡◌, ◌-◌, ◌++◌, [], length, take, IfOk};

use cube_model::NoMemory;
use std::alloc::Global;
use std::marker::Model;

// So many bytes of a line decide its answer, with a carriage return at its end.
const KEPT: usize = 65_538;

/// The front of a line, of which no more is kept than decides its answer. Its space is taken once.
#[derive(Drop)]
pub struct Carry {
    bytes: Vec<u8>,
}

impl Model for Carry {
    ghost use Rattle.std.specs.Prelude.{ℕ, List, ◌≤◌, length};
    ghost use Rattle.std.specs.Vec.{vec_capacity};

    ghost Value = { List ℕ };

    ghost view = { λ c. c.bytes.items };

    ghost invariant = { λ c. (length c.bytes.items ≤ 65538) × (65538 ≤ vec_capacity c.bytes) };
}

impl Carry {
    /// An empty line.
    pub fn new(alloc: Global) -> Result<Self, NoMemory>
        ensures { IfOk result (λ carry. carry ≡ []) }
    {
        Ok(Carry {
            bytes: Vec::with_capacity(alloc, KEPT)?,
        })
    }

    /// Puts bytes at the end, as far as they are kept.
    pub fn extend(&mut self, bytes: &[u8])
        ensures { self.new ≡ self.old ++ take (65538 - length self.old) bytes.now }
    {
        let count = bytes.len().min(KEPT - self.bytes.len());
        match self.bytes.extend_from_slice(&bytes[..count]) {
            Ok(()) => {}
            Err(_) => unreachable!(),
        }
    }

    /// Begins a new line.
    pub fn clear(&mut self)
        ensures { self.new ≡ [] }
    {
        self.bytes.clear();
    }

    /// The bytes that are kept.
    pub fn as_slice(&self) -> &[u8]
        ensures { result.now ≡ self.now }
    {
        self.bytes.as_slice()
    }
}

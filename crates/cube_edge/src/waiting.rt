// Bytes that wait.
ghost use Rattle.std.specs.Prelude.{◌≡◌, ◌==◌, ◌≤◌, ◌++◌, [], List, ℕ, length, drop, OnOk, OnErr};

use cube_model::{NoMemory, Text};
use std::alloc::Global;
use std::marker::Model;

/// The most bytes that wait to be sent on one connection. The longest answer fits: 65,536 rows, each of eight names, which have at most
/// 258 bytes as fields, and a number of at most 20 digits, with a byte behind each.
const MAX_WAITING: usize = 268_435_456;

/// Bytes of one connection that wait: to be sent, or to be heard. They take memory only while there are some.
#[derive(Drop)]
pub struct Waiting {
    alloc: Global,
    bytes: Text,
    gone: usize,
}

impl Model for Waiting {
    ghost Value = { List ℕ };

    ghost view = { λ w. drop w.gone w.bytes };

    ghost invariant = { λ w. w.gone ≤ length w.bytes };
}

impl Waiting {
    /// No byte waits.
    pub fn new(alloc: Global) -> Self
        ensures { result ≡ [] }
    {
        Waiting {
            alloc,
            bytes: Text::new(alloc),
            gone: 0,
        }
    }

    /// Whether no byte waits.
    pub fn is_empty(&self) -> bool
        ensures { result ≡ (length self.now == 0) }
    {
        self.gone == self.bytes.len()
    }

    /// The bytes that wait.
    pub fn as_slice(&self) -> &[u8]
        ensures { result.now ≡ self.now }
    {
        &self.bytes.as_slice()[self.gone..]
    }

    /// Puts a piece behind the others. It fails where there is no memory for it, or where more would wait than may.
    pub fn add(&mut self, piece: &[u8]) -> Result<(), NoMemory>
        ensures ok { OnOk result (self.new ≡ self.old ++ piece.now) }
        ensures err { OnErr result (self.new ≡ self.old) }
    {
        if piece.len() > MAX_WAITING.saturating_sub(self.bytes.len()) {
            return Err(NoMemory);
        }
        self.bytes.extend(piece)
    }

    /// So many bytes wait no more.
    pub fn shorten(&mut self, count: usize)
        requires { count ≤ length self.old }
        ensures { self.new ≡ drop count self.old }
    {
        if count < self.bytes.len() - self.gone {
            self.gone += count;
        } else {
            *self = Waiting::new(self.alloc);
        }
    }

    /// None of them waits any more.
    pub fn clear(&mut self)
        ensures { self.new ≡ [] }
    {
        *self = Waiting::new(self.alloc);
    }
}

// Sockets in memory, over which one client talks.
ghost use Rattle.std.specs.Prelude.{◌≡◌, ◌≤◌, ◌<◌, ◌+◌, ◌++◌, [], true, Some, None, take, length, IsTrue, OnOk, OnErr};
ghost use Rattle.trial_worlds.specs.OneClient.{is_number, one_client};

use crate::mem_disk::front;
use cube_edge::{Gone, Sockets};
use cube_io::Failed;
use cube_model::{NoMemory, Text};
use std::alloc::Global;

/// Sockets with one client, which sends some bytes and leaves. A read takes one byte, and a write no more than so many. They
/// tell their bytes.
#[derive(Drop)]
pub struct MemSockets {
    coming: Text,
    taken: usize,
    given: Text,
    number: Option<u32>,
    is_gone: bool,
    is_shut: bool,
    most: usize,
    waits: u64,
    ghost within: { taken ≤ length coming },
    ghost unread: { number ≡ None → taken ≡ 0 },
    ghost unsent: { number ≡ None → given ≡ [] },
}

impl MemSockets {
    pub fn new(alloc: Global, coming: Text, most: usize) -> Self
        ensures told { (⟦<MemSockets as Sockets>⟧.state result).told ≡ true }
        ensures clock { (⟦<MemSockets as Sockets>⟧.state result).clock ≡ 0 }
    {
        MemSockets {
            coming,
            taken: 0,
            given: Text::new(alloc),
            number: None,
            is_gone: false,
            is_shut: false,
            most,
            waits: 0,
        }
    }

    /// Whether the client was told that it is given no more.
    pub fn is_shut(&self) -> bool {
        self.is_shut
    }

    /// What the client was given.
    pub fn given(&self) -> &[u8] {
        self.given.as_slice()
    }
}

// Whether the client has a number.
fn has(number: Option<u32>, c: u32) -> bool
    ensures { result ≡ is_number number c }
{
    match number {
        Some(d) => d == c,
        None => false,
    }
}

// Takes the next byte to the front of a buffer.
fn take_byte(coming: &[u8], taken: &mut usize, buf: &mut [u8])
    requires byte { taken.old < length coming.now }
    requires buf { 0 < length buf.old }
    ensures one { taken.new ≡ taken.old + 1 }
    ensures size { length buf.new ≡ length buf.old }
    ensures bytes { take taken.new coming.now ≡ take taken.old coming.now ++ take 1 buf.new }
{
    buf[0] = coming[*taken];
    *taken += 1;
}

// Puts a front of a piece behind some bytes, where there is space. Tells how many bytes it has.
fn put_front(given: &mut Text, piece: &[u8], most: usize) -> usize
    ensures fits { result ≤ length piece.now }
    ensures bytes { given.new ≡ given.old ++ take result piece.now }
{
    let front = front(piece, most);
    match given.extend(front) {
        Ok(()) => front.len(),
        Err(NoMemory) => 0,
    }
}

impl Sockets for MemSockets {
    ghost state = { λ s. one_client s.number (record { taken = take s.taken s.coming; given = s.given; gone = s.is_gone; shut = s.is_shut }) s.waits };

    fn listen(&mut self, _address: &Text) -> Result<(), Failed> {
        Ok(())
    }

    fn accept(&mut self, c: u32) -> Result<bool, Failed> {
        if self.number.is_some() {
            return Ok(false);
        }
        self.number = Some(c);
        self.is_gone = false;
        self.is_shut = false;
        Ok(true)
    }

    fn wait(&mut self, _millis: u64) -> Result<u64, Failed> {
        self.waits = self.waits.saturating_add(1);
        Ok(0)
    }

    fn read(&mut self, c: u32, buf: &mut [u8]) -> Result<Option<usize>, Gone> {
        if !has(self.number, c) {
            return Err(Gone);
        }
        if self.taken == self.coming.len() {
            self.is_gone = true;
            return Err(Gone);
        }
        take_byte(self.coming.as_slice(), &mut self.taken, buf);
        Ok(Some(1))
    }

    fn write(&mut self, c: u32, piece: &[u8]) -> Result<usize, Gone> {
        if !has(self.number, c) {
            return Err(Gone);
        }
        Ok(put_front(&mut self.given, piece, self.most))
    }

    fn finish(&mut self, c: u32) {
        if has(self.number, c) {
            self.is_shut = true;
        }
    }

    fn close(&mut self, _c: u32) {}
}

// What a store in memory remembers of its calls, in space that was taken when it was made.
ghost use Rattle.std.specs.Prelude.{◌≡◌, ◌≤◌, ◌+◌, ◌++◌, [], ◌∷◌, ℕ, length, take, drop, map, IfOk, OnOk, OnErr};
ghost use Rattle.cube_model.specs.Cubes.{Each};
ghost use Rattle.cube_io.specs.Mem.{Deed, deed, part, IsWithin, fresh, log_after, now_after};
ghost use Rattle.cube_io.specs.Mem.Deed.{Did, Wrote};

use cube_model::{NoMemory, Text};
use std::alloc::Global;
use std::marker::Model;

/// What a call changed, where it brought no bytes.
#[derive(Clone, Copy, Debug, PartialEq, Eq)]
pub enum Change {
    /// No log changed.
    Nothing,
    /// A log was cut to a length.
    Cut(u32, u64),
    /// A log was cut to a length, and a read does not see it yet.
    HalfCut(u32, u64),
    /// What a read of a log gives was put on the disk.
    Sync(u32),
}

/// Where the bytes of a call went.
#[derive(Clone, Copy, Debug, PartialEq, Eq)]
pub enum Target {
    /// They are a name that was asked for.
    Names,
    /// To the end of a log.
    End(u32),
}

/// A call as it is remembered.
#[derive(Clone, Copy, Debug, PartialEq, Eq)]
pub enum Call {
    /// It brought no bytes.
    Did(Change),
    /// It brought so many bytes, which stand in the record's buffer from a place on.
    Wrote(Target, usize, usize),
}

/// There is no space for the call.
#[derive(Clone, Copy, Debug, PartialEq, Eq)]
pub struct Full;

/// The calls of a store, and their bytes.
#[derive(Drop)]
pub struct Record {
    calls: Vec<Call>,
    bytes: Vec<u8>,
    most_calls: usize,
    most_bytes: usize,
}

impl Model for Record {
    ghost use Rattle.std.specs.Prelude.{List, length, map};
    ghost use Rattle.cube_model.specs.Cubes.{Each};
    ghost use Rattle.cube_io.specs.Mem.{Deed, deed, IsWithin};

    ghost Value = { List Deed };

    ghost view = { λ r. map (deed r.bytes.items) r.calls.items };

    ghost invariant = { λ r. Each (IsWithin (length r.bytes.items)) r.calls.items };
}

/// The bytes from a place on.
fn part(bytes: &[u8], start: usize, len: usize) -> &[u8]
    requires { start + len ≤ length bytes.now }
    ensures { result.now ≡ part bytes.now start len }
{
    &bytes[start..start + len]
}

/// What a read of a log gives after one call more.
fn read_after(text: &mut Vec<u8>, bytes: &[u8], call: &Call, log: u32) -> Result<(), NoMemory>
    requires { IsWithin (length bytes.now) call.now }
    ensures { OnOk result (text.new.items ≡ now_after log text.old.items (deed bytes.now call.now)) }
{
    match *call {
        Call::Wrote(Target::End(at), start, len) => {
            if at == log {
                text.extend_from_slice(part(bytes, start, len))?;
            }
        }
        Call::Did(Change::Cut(at, len)) => {
            if at == log {
                shorten(text, len);
            }
        }
        _ => {}
    }
    Ok(())
}

/// Cuts a text to a length, where it is longer.
fn shorten(text: &mut Vec<u8>, len: u64)
    ensures { text.new.items ≡ take len text.old.items }
{
    if len < text.len() as u64 {
        text.truncate(len as usize);
    }
}

/// What a read of a log that began so gives after these calls.
fn play(text: &mut Vec<u8>, bytes: &[u8], calls: &[Call], log: u32) -> Result<(), NoMemory>
    requires { Each (IsWithin (length bytes.now)) calls.now }
    ensures { OnOk result (text.new.items ≡ (log_after log (fresh text.old.items) (map (deed bytes.now) calls.now)).state.now) }
{
    for call in calls {
        read_after(text, bytes, call, log)?;
    }
    Ok(())
}

/// Puts a call at the end, where there is space.
fn push_call(calls: &mut Vec<Call>, most: usize, call: Call) -> Result<(), Full>
    ensures ok { OnOk result (calls.new.items ≡ calls.old.items ++ call ∷ []) }
    ensures err { OnErr result (calls.new.items ≡ calls.old.items) }
{
    if calls.len() >= most || calls.push(call).is_err() {
        return Err(Full);
    }
    Ok(())
}

/// Puts bytes at the end, where there is space.
fn push_bytes(bytes: &mut Vec<u8>, most: usize, piece: &[u8]) -> Result<(), Full>
    ensures ok { OnOk result (bytes.new.items ≡ bytes.old.items ++ piece.now) }
    ensures err { OnErr result (bytes.new.items ≡ bytes.old.items) }
{
    if piece.len() > most.saturating_sub(bytes.len()) || bytes.extend_from_slice(piece).is_err() {
        return Err(Full);
    }
    Ok(())
}

impl Record {
    /// No calls, with space for so many and for so many bytes of them.
    pub fn with_capacity(alloc: Global, calls: usize, bytes: usize) -> Result<Record, NoMemory>
        ensures { IfOk result (λ made. made ≡ []) }
    {
        Ok(Record {
            calls: Vec::with_capacity(alloc, calls)?,
            bytes: Vec::with_capacity(alloc, bytes)?,
            most_calls: calls,
            most_bytes: bytes,
        })
    }

    /// How many calls there were.
    pub fn len(&self) -> usize
        ensures { result ≡ length self.now }
    {
        self.calls.len()
    }

    /// The calls, and the buffer in which their bytes stand.
    pub fn parts(&self) -> (&[Call], &[u8])
        ensures { map (deed result.1.now) result.0.now ≡ self.now }
    {
        (&self.calls, &self.bytes)
    }

    /// Remembers a call that brought no bytes.
    pub fn note(&mut self, change: Change) -> Result<(), Full>
        ensures ok { OnOk result (self.new ≡ self.old ++ Did change ∷ []) }
        ensures err { OnErr result (self.new ≡ self.old) }
    {
        push_call(&mut self.calls, self.most_calls, Call::Did(change))
    }

    /// Remembers a call with its bytes.
    pub fn write(&mut self, target: Target, piece: &[u8]) -> Result<(), Full>
        ensures ok { OnOk result (self.new ≡ self.old ++ Wrote target piece.now ∷ []) }
        ensures err { OnErr result (self.new ≡ self.old) }
    {
        let start = self.bytes.len();
        match push_bytes(&mut self.bytes, self.most_bytes, piece) {
            Ok(()) => {}
            Err(full) => return Err(full),
        }
        push_call(
            &mut self.calls,
            self.most_calls,
            Call::Wrote(target, start, piece.len()),
        )
    }

    /// What a read of a log gives that began with these bytes.
    pub fn content(&self, alloc: Global, first: &[u8], log: u32) -> Result<Text, NoMemory>
        ensures { IfOk result (λ text. text ≡ (log_after log (fresh first.now) self.now).state.now) }
    {
        let mut text = Vec::from_slice(alloc, first)?;
        play(&mut text, &self.bytes, &self.calls, log)?;
        Ok(Text::from_vec(text))
    }
}

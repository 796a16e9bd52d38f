// The connections of a pool.
ghost use Rattle.std.specs.Prelude.{◌≡◌, ◌<◌, ◌≤◌, ◌+◌, ◌++◌, ◌∷◌, [], length, take, position, false, vec_len, vec_capacity, IfSome, IfNone, IfOk, MatchOption};
ghost use Rattle.cube_http.specs.Hearing.{Hears};
ghost use Rattle.cube_http.specs.declared.connection.Heard.TheVariants as heard;
ghost use Rattle.cube_server.specs.Ears.{kept_bytes, said_before, at_number, has, HasCapacity, IsTakenOut};

use cube_http::{BodyConn, Fed, HeadConn};
use cube_model::NoMemory;
use std::alloc::Global;

/// As many connections as may be open at once.
pub const MAX_CONNS: usize = 64;

/// What hears an open connection.
#[derive(Drop)]
pub enum Ear {
    /// It hears a head.
    Head(HeadConn),
    /// It hears a body.
    Body(BodyConn),
}

impl Ear {
    /// Hears a piece, up to where something is said, or all of it.
    pub fn feed(self, piece: &[u8]) -> Fed
        requires { 0 < length piece.now }
        ensures used { (0 < result.used) × (result.used ≤ length piece.now) }
        ensures more { result.heard ≡ heard.More → result.used ≡ length piece.now }
        ensures hears { Hears (said_before self) (kept_bytes self ++ take result.used piece.now) result.heard result.conn }
    {
        match self {
            Ear::Head(head) => head.feed(piece),
            Ear::Body(body) => body.feed(piece),
        }
    }

    /// Forgets what it heard.
    pub fn renew(self) -> HeadConn
        ensures { result ≡ [] }
    {
        match self {
            Ear::Head(head) => head.renew(),
            Ear::Body(body) => body.renew(),
        }
    }
}

/// An open connection.
#[derive(Drop)]
pub struct Line {
    pub number: u32,
    pub ear: Ear,
}

/// The open connections, and those that are to spare.
#[derive(Drop)]
pub struct Lines {
    pub lines: Vec<Line>,
    pub spare: Vec<HeadConn>,
}

// Where the connection of the number stands.
fn place_of(lines: &[Line], c: u32) -> Option<usize>
    ensures { result ≡ position (at_number c) lines.now }
{
    lines.iter().position(|line| line.number == c)
}

// Takes a connection out.
fn take_out(lines: &mut Vec<Line>, c: u32) -> Option<Ear>
    ensures some { IfSome result (λ ear. IsTakenOut c ear lines.old.items lines.new.items) }
    ensures none { IfNone result ((has c lines.old.items ≡ false) × (lines.new.items ≡ lines.old.items)) }
    ensures capacity { vec_capacity lines.new ≡ vec_capacity lines.old }
    ensures len { MatchOption result (vec_len lines.new ≡ vec_len lines.old) (λ ear. vec_len lines.new + 1 ≡ vec_len lines.old) }
{
    let at = place_of(lines, c)?;
    Some(lines.remove(at).ear)
}

impl Lines {
    /// No open connection, and space for as many as may be open at once.
    pub fn new(alloc: Global) -> Result<Lines, NoMemory>
        ensures { IfOk result (λ lines. HasCapacity lines 0 × (lines.lines.items ≡ [])) }
    {
        Ok(Lines {
            lines: Vec::with_capacity(alloc, MAX_CONNS)?,
            spare: make_spare(alloc)?,
        })
    }

    /// Takes an open connection out.
    pub fn take(&mut self, c: u32) -> Option<Ear>
        requires { HasCapacity self.old 0 }
        ensures some { IfSome result (λ ear. HasCapacity self.new 1 × IsTakenOut c ear self.old.lines.items self.new.lines.items) }
        ensures none { IfNone result (HasCapacity self.new 0 × (has c self.old.lines.items ≡ false) × (self.new.lines.items ≡ self.old.lines.items)) }
    {
        take_out(&mut self.lines, c)
    }

    /// Puts a connection behind the others.
    pub fn put(&mut self, c: u32, ear: Ear)
        requires { HasCapacity self.old 1 }
        ensures capacity { HasCapacity self.new 0 }
        ensures lines { self.new.lines.items ≡ self.old.lines.items ++ record { number = c; ear = ear } ∷ [] }
    {
        self.lines.push_reserved(Line { number: c, ear });
    }

    /// Takes back what heard a connection that is closed.
    pub fn give(&mut self, head: HeadConn)
        requires { HasCapacity self.old 1 }
        ensures capacity { HasCapacity self.new 0 }
        ensures lines { self.new.lines.items ≡ self.old.lines.items }
    {
        self.spare.push_reserved(head);
    }

    /// What hears a new connection, unless as many are open as may be.
    pub fn lend(&mut self) -> Option<HeadConn>
        requires { HasCapacity self.old 0 }
        ensures some { IfSome result (λ head. HasCapacity self.new 1 × (head ≡ []) × (length self.old.lines.items < 64)) }
        ensures none { IfNone result (HasCapacity self.new 0 × (length self.old.lines.items ≡ 64)) }
        ensures lines { self.new.lines.items ≡ self.old.lines.items }
    {
        match self.spare.pop() {
            Some(head) => Some(head.renew()),
            None => None,
        }
    }
}

// As many connections to spare as may be open at once.
fn make_spare(alloc: Global) -> Result<Vec<HeadConn>, NoMemory>
    ensures { IfOk result (λ spare. (vec_len spare ≡ 64) × (64 ≤ vec_capacity spare)) }
{
    let mut spare = Vec::with_capacity(alloc, MAX_CONNS)?;
    for _place in 0..MAX_CONNS {
        spare.push_reserved(HeadConn::new(alloc)?);
    }
    Ok(spare)
}

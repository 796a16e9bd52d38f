// The states of a connection.
ghost use Rattle.std.specs.Prelude.{false, ◌≡◌, ◌↔◌, ℕ, ◌<◌, ◌≤◌, List, [], ◌∷◌, ◌++◌, length, ◌-◌, min, take, drop, IsTrue, MatchBool, MatchResult, IfSome, IfNone, IfOk, vec_capacity};
ghost use Rattle.cube_http.specs.Head.{at_end, rest};
ghost use Rattle.cube_http.specs.Stream as stream;
ghost use Rattle.cube_http.specs.Stream.Item.{Bad};
ghost use Rattle.cube_http.specs.Buffers.{GoesOn, Stops, IsRead, KeepsHead, KeepsBody, KeepsRequest, KeepsCapacity};
ghost use Rattle.cube_http.specs.Hearing.{Adds, Follows, Hears, HearsOn};
ghost use Rattle.cube_http.specs.Checks.{closes};
ghost use Rattle.cube_http.specs.Methods.{is_head, kind_of};
ghost use Rattle.cube_http.specs.Targets.{wanted};
ghost use Rattle.cube_http.specs.declared.connection.Heard.TheVariants as heard;

use crate::head::{HeadFacts, MethodKind, judge};
use crate::targets::{Wanted, read_wanted};
use cube_model::{Fixed, NoMemory};
use httparse::spans::Span;
use std::alloc::{AllocError, Global};
use std::marker::Model;

/// The most bytes of a head.
pub const MAX_HEAD: usize = 16_384;

/// The most bytes of a body.
pub const MAX_BODY: usize = 65_536;

// What is kept of a request that is heard: the bytes of its head, those of its body, and the facts of
// a head that has ended.
#[derive(Drop)]
struct Kept {
    head: Vec<u8>,
    body: Vec<u8>,
    facts: HeadFacts,
}

// The facts before a head has ended.
const NO_FACTS: HeadFacts = HeadFacts {
    method: MethodKind::Other,
    target: Span { start: 0, end: 0 },
    length: 0,
    waits: false,
    closes: false,
};

/// A connection that hears the head of a request. Contracts see the bytes of the head so far,
/// without the line ends before it.
#[derive(Drop)]
pub struct HeadConn {
    kept: Box<Kept>,
}

impl Model for HeadConn {
    ghost use Rattle.std.specs.Prelude.{ℕ, List};
    ghost use Rattle.cube_http.specs.Buffers.{KeepsHead};

    ghost Value = { List ℕ };

    ghost view = { λ c. c.kept.value.head.items };

    ghost invariant = { λ c. KeepsHead c.kept.value };
}

/// A connection that hears the body of a request. Contracts see the bytes of the request so far,
/// without the line ends before it.
#[derive(Drop)]
pub struct BodyConn {
    kept: Box<Kept>,
}

impl Model for BodyConn {
    ghost use Rattle.std.specs.Prelude.{ℕ, List, ◌++◌};
    ghost use Rattle.cube_http.specs.Buffers.{KeepsBody};

    ghost Value = { List ℕ };

    ghost view = { λ c. c.kept.value.head.items ++ c.kept.value.body.items };

    ghost invariant = { λ c. KeepsBody c.kept.value };
}

/// A connection that heard a whole request. Contracts see the request.
#[derive(Drop)]
pub struct DoneConn {
    kept: Box<Kept>,
}

impl Model for DoneConn {
    ghost use Rattle.cube_http.specs.Head.{guess};
    ghost use Rattle.cube_http.specs.Stream.{Request};
    ghost use Rattle.cube_http.specs.Buffers.{KeepsRequest};

    ghost Value = { Request };

    ghost view = { λ c. record { head = guess c.kept.value.head.items; body = c.kept.value.body.items } };

    ghost invariant = { λ c. KeepsRequest c.kept.value };
}

/// A connection whose bytes were refused. Contracts see nothing of it.
#[derive(Drop)]
pub struct DeadConn {
    kept: Box<Kept>,
}

impl Model for DeadConn {
    ghost use Rattle.cube_http.specs.Buffers.{KeepsCapacity};

    ghost Value = { Unit {0} };

    ghost view = { λ _. tt };

    ghost invariant = { λ c. KeepsCapacity c.kept.value };
}

/// A connection, in one of its states.
#[derive(Drop)]
pub enum Conn {
    /// It hears a head.
    Head(HeadConn),
    /// It hears a body.
    Body(BodyConn),
    /// It heard a whole request.
    Done(DoneConn),
    /// Its bytes were refused.
    Dead(DeadConn),
}

/// What was heard at the last byte that was used.
#[derive(Clone, Copy, Debug, PartialEq, Eq)]
pub enum Heard {
    /// Nothing: the piece is used up.
    More,
    /// The client waits for leave to send the body.
    Continue,
    /// The request is whole.
    Whole,
    /// The bytes are refused with this reply.
    Bad(Fixed),
}

/// What became of a piece.
#[derive(Drop)]
pub struct Fed {
    /// How many of its bytes were used.
    pub used: usize,
    /// The connection behind them.
    pub conn: Conn,
    /// What was heard at the last of them.
    pub heard: Heard,
}

// Whether a byte belongs to a line end.
fn is_break(byte: u8) -> bool
    ensures { result ≡ stream.is_break byte }
{
    byte == b'\r' || byte == b'\n'
}

// Whether bytes end with an empty line.
fn ends_head(bytes: &[u8]) -> bool
    ensures { result ≡ stream.ends_head bytes.now }
{
    bytes.ends_with(b"\n\n") || bytes.ends_with(b"\n\r\n")
}

// The same of bytes whose last one is this: no other byte than LF ends an empty line.
fn ends_here(bytes: &[u8], last: u8) -> bool
    requires { (front : List ℕ) × (bytes.now ≡ front ++ last ∷ []) }
    ensures { result ≡ stream.ends_head bytes.now }
{
    last == b'\n' && ends_head(bytes)
}

// Keeps one more byte of a head. Tells whether the head stops there.
fn keep_byte(head: &mut Vec<u8>, byte: u8) -> bool
    requires capacity { stream.most_head ≤ vec_capacity head.old }
    requires goes_on { GoesOn head.old.items }
    requires begins { at_end (head.old.items ++ byte ∷ []) ≡ false }
    ensures kept { head.new.items ≡ head.old.items ++ byte ∷ [] }
    ensures stops { MatchBool result (Stops head.new.items) (GoesOn head.new.items) }
    ensures capacity { stream.most_head ≤ vec_capacity head.new }
{
    head.push_reserved(byte);
    ends_here(head, byte) || head.len() == MAX_HEAD
}

// The same, but a byte of a line end before the head is dropped.
fn push_byte(head: &mut Vec<u8>, byte: u8) -> bool
    requires capacity { stream.most_head ≤ vec_capacity head.old }
    requires goes_on { GoesOn head.old.items }
    ensures kept { head.new.items ≡ rest stream.is_break (head.old.items ++ byte ∷ []) }
    ensures stops { MatchBool result (Stops head.new.items) (GoesOn head.new.items) }
    ensures capacity { stream.most_head ≤ vec_capacity head.new }
{
    if head.is_empty() && is_break(byte) {
        return false;
    }
    keep_byte(head, byte)
}

// Keeps the bytes of a head up to where it stops. Tells how many of the piece these are, if it does.
fn push_head(head: &mut Vec<u8>, piece: &[u8]) -> Option<usize>
    requires capacity { stream.most_head ≤ vec_capacity head.old }
    requires goes_on { GoesOn head.old.items }
    ensures stops { IfSome result (λ used. (0 < used) × (used ≤ length piece.now) × (head.new.items ≡ rest stream.is_break (head.old.items ++ take used piece.now)) × Stops head.new.items) }
    ensures more { IfNone result ((head.new.items ≡ rest stream.is_break (head.old.items ++ piece.now)) × GoesOn head.new.items) }
    ensures capacity { stream.most_head ≤ vec_capacity head.new }
{
    for (place, byte) in piece.iter().enumerate() {
        if push_byte(head, *byte) {
            return Some(place + 1);
        }
    }
    None
}

// The same: a piece of one byte needs no loop.
#[inline(always)]
fn push_piece(head: &mut Vec<u8>, piece: &[u8]) -> Option<usize>
    requires capacity { stream.most_head ≤ vec_capacity head.old }
    requires goes_on { GoesOn head.old.items }
    ensures stops { IfSome result (λ used. (0 < used) × (used ≤ length piece.now) × (head.new.items ≡ rest stream.is_break (head.old.items ++ take used piece.now)) × Stops head.new.items) }
    ensures more { IfNone result ((head.new.items ≡ rest stream.is_break (head.old.items ++ piece.now)) × GoesOn head.new.items) }
    ensures capacity { stream.most_head ≤ vec_capacity head.new }
{
    if piece.len() != 1 {
        return push_head(head, piece);
    }
    if push_byte(head, piece[0]) {
        Some(1)
    } else {
        None
    }
}

// What comes behind a head.
#[derive(Drop)]
enum Behind {
    // Something is heard.
    Halt(Conn, Heard),
    // Its body follows.
    Body(BodyConn),
}

// What comes behind a head that passes all checks.
fn begin_body(kept: Box<Kept>) -> Behind
    requires heard { KeepsRequest kept.value }
    requires empty { kept.value.body.items ≡ [] }
    ensures { Follows kept.value.head.items result }
{
    let facts = kept.facts;
    if facts.length == 0 {
        return Behind::Halt(Conn::Done(DoneConn { kept }), Heard::Whole);
    }
    let conn = BodyConn { kept };
    if facts.waits {
        Behind::Halt(Conn::Body(conn), Heard::Continue)
    } else {
        Behind::Body(conn)
    }
}

// Judges a head that stops, and keeps its facts.
fn judge_kept(kept: &mut Kept) -> Result<(), Fixed>
    requires stops { Stops kept.old.head.items }
    ensures same { (kept.new.head ≡ kept.old.head) × (kept.new.body ≡ kept.old.body) }
    ensures judged { MatchResult result (λ _. IsRead kept.new.head.items kept.new.facts) (λ fixed. Adds [] kept.old.head.items (Bad fixed)) }
{
    if !ends_head(&kept.head) {
        return Err(Fixed::HeadTooLarge);
    }
    match judge(&kept.head) {
        Err(fixed) => Err(fixed),
        Ok(facts) => {
            kept.facts = facts;
            Ok(())
        }
    }
}

// What comes behind a head that stops.
fn end_head(mut kept: Box<Kept>) -> Behind
    requires stops { Stops kept.value.head.items }
    requires capacity { KeepsCapacity kept.value }
    requires empty { kept.value.body.items ≡ [] }
    ensures { Follows kept.value.head.items result }
{
    match judge_kept(&mut kept) {
        Ok(()) => begin_body(kept),
        Err(fixed) => Behind::Halt(Conn::Dead(DeadConn { kept }), Heard::Bad(fixed)),
    }
}

// Keeps as many bytes of a piece as the body lacks. Tells how many.
fn push_body(kept: &mut Kept, piece: &[u8]) -> usize
    requires { KeepsBody kept.old }
    ensures used { result ≡ min (kept.old.facts.length - length kept.old.body.items) (length piece.now) }
    ensures body { kept.new.body.items ≡ kept.old.body.items ++ take result piece.now }
    ensures same { (kept.new.head ≡ kept.old.head) × (kept.new.facts ≡ kept.old.facts) }
    ensures capacity { KeepsCapacity kept.new }
{
    let used = (kept.facts.length - kept.body.len()).min(piece.len());
    match kept.body.extend_from_slice(&piece[..used]) {
        Ok(()) => {}
        Err(_) => unreachable!(),
    }
    used
}

// Whether all bytes of the body are kept.
fn is_whole(kept: &Kept) -> bool
    ensures { IsTrue result ↔ (length kept.now.body.items ≡ kept.now.facts.length) }
{
    kept.body.len() == kept.facts.length
}

// Hears a piece of a body.
fn hear_body(mut kept: Box<Kept>, piece: &[u8]) -> Fed
    requires hears { KeepsBody kept.value }
    requires some { 0 < length piece.now }
    ensures used { (0 < result.used) × (result.used ≤ length piece.now) }
    ensures more { result.heard ≡ heard.More → result.used ≡ length piece.now }
    ensures hears { Hears (stream.items (kept.value.head.items ++ kept.value.body.items)) ((kept.value.head.items ++ kept.value.body.items) ++ take result.used piece.now) result.heard result.conn }
{
    let used = push_body(&mut kept, piece);
    if is_whole(&kept) {
        Fed {
            used,
            conn: Conn::Done(DoneConn { kept }),
            heard: Heard::Whole,
        }
    } else {
        Fed {
            used,
            conn: Conn::Body(BodyConn { kept }),
            heard: Heard::More,
        }
    }
}

// Hears a piece whose first bytes, so many of them, end a head.
fn hear_behind(behind: Behind, used: usize, piece: &[u8]) -> Fed
    requires used { used ≤ length piece.now }
    ensures used { (used ≤ result.used) × (result.used ≤ length piece.now) }
    ensures hears { (head : List ℕ) → Stops head → Follows head behind → HearsOn head (take (result.used - used) (drop used piece.now)) result.heard result.conn × (result.heard ≡ heard.More → result.used ≡ length piece.now) }
{
    match behind {
        Behind::Halt(conn, heard) => Fed { used, conn, heard },
        Behind::Body(conn) if used == piece.len() => Fed {
            used,
            conn: Conn::Body(conn),
            heard: Heard::More,
        },
        Behind::Body(conn) => {
            let fed = conn.feed(&piece[used..]);
            Fed {
                used: used + fed.used,
                conn: fed.conn,
                heard: fed.heard,
            }
        }
    }
}

// Hears a piece whose first bytes, so many of them, end a head. It stands apart, so that what a
// piece within a head runs through stays short.
#[inline(never)]
fn hear_end(kept: Box<Kept>, used: usize, piece: &[u8]) -> Fed
    requires stops { Stops kept.value.head.items }
    requires capacity { KeepsCapacity kept.value }
    requires empty { kept.value.body.items ≡ [] }
    requires used { used ≤ length piece.now }
    ensures used { (used ≤ result.used) × (result.used ≤ length piece.now) }
    ensures more { result.heard ≡ heard.More → result.used ≡ length piece.now }
    ensures hears { HearsOn kept.value.head.items (take (result.used - used) (drop used piece.now)) result.heard result.conn }
{
    hear_behind(end_head(kept), used, piece)
}

// Hears a piece of a head.
#[inline(always)]
fn hear_head(mut kept: Box<Kept>, piece: &[u8]) -> Fed
    requires hears { KeepsHead kept.value }
    requires some { 0 < length piece.now }
    ensures used { (0 < result.used) × (result.used ≤ length piece.now) }
    ensures more { result.heard ≡ heard.More → result.used ≡ length piece.now }
    ensures hears { Hears [] (kept.value.head.items ++ take result.used piece.now) result.heard result.conn }
{
    match push_piece(&mut kept.head, piece) {
        None => Fed {
            used: piece.len(),
            conn: Conn::Head(HeadConn { kept }),
            heard: Heard::More,
        },
        Some(used) => hear_end(kept, used, piece),
    }
}

// Drops all bytes that are kept.
fn clear(kept: &mut Kept)
    requires { KeepsCapacity kept.old }
    ensures { KeepsHead kept.new × (kept.new.head.items ≡ []) }
{
    kept.head.clear();
    kept.body.clear();
}

// A connection that has heard nothing, with these buffers.
fn make_fresh(mut kept: Box<Kept>) -> HeadConn
    requires { KeepsCapacity kept.value }
    ensures { result ≡ [] }
{
    clear(&mut kept);
    HeadConn { kept }
}

impl HeadConn {
    /// A connection that has heard nothing. It takes all the memory that it and its later states
    /// need.
    pub fn new(alloc: Global) -> Result<HeadConn, NoMemory>
        ensures { IfOk result (λ conn. conn ≡ []) }
    {
        let kept = Kept {
            head: Vec::with_capacity(alloc, MAX_HEAD)?,
            body: Vec::with_capacity(alloc, MAX_BODY)?,
            facts: NO_FACTS,
        };
        let kept = Box::new(alloc, kept).map_err(AllocError::from)?;
        Ok(make_fresh(kept))
    }

    /// Hears a piece, up to where a head or its request ends, or all of it.
    #[inline(always)]
    pub fn feed(self, piece: &[u8]) -> Fed
        requires { 0 < length piece.now }
        ensures used { (0 < result.used) × (result.used ≤ length piece.now) }
        ensures more { result.heard ≡ heard.More → result.used ≡ length piece.now }
        ensures hears { Hears [] (self ++ take result.used piece.now) result.heard result.conn }
    {
        hear_head(self.kept, piece)
    }

    /// Forgets what it heard. Takes no memory.
    pub fn renew(self) -> HeadConn
        ensures { result ≡ [] }
    {
        make_fresh(self.kept)
    }
}

impl BodyConn {
    /// Hears a piece, up to where the request ends, or all of it.
    pub fn feed(self, piece: &[u8]) -> Fed
        requires { 0 < length piece.now }
        ensures used { (0 < result.used) × (result.used ≤ length piece.now) }
        ensures more { result.heard ≡ heard.More → result.used ≡ length piece.now }
        ensures hears { Hears (stream.items self) (self ++ take result.used piece.now) result.heard result.conn }
    {
        hear_body(self.kept, piece)
    }

    /// Forgets what it heard. Takes no memory.
    pub fn renew(self) -> HeadConn
        ensures { result ≡ [] }
    {
        make_fresh(self.kept)
    }
}

impl DoneConn {
    /// What the request asks for.
    pub fn wanted(&self, alloc: Global) -> Result<Wanted, NoMemory>
        ensures { IfOk result (λ asked. asked ≡ wanted self.now) }
    {
        let kept: &Kept = &self.kept;
        let target = kept.facts.target.of(&kept.head);
        read_wanted(alloc, kept.facts.method, target, &kept.body)
    }

    /// Whether the reply is sent without its body: the method is HEAD.
    pub fn head_only(&self) -> bool
        ensures { result ≡ is_head (kind_of self.now.head.method) }
    {
        let kept: &Kept = &self.kept;
        match kept.facts.method {
            MethodKind::Head => true,
            _ => false,
        }
    }

    /// Whether the reply closes the connection.
    pub fn closes(&self) -> bool
        ensures { result ≡ closes self.now.head }
    {
        let kept: &Kept = &self.kept;
        kept.facts.closes
    }

    /// A connection that has heard nothing, for what follows the request. Takes no memory.
    pub fn next(self) -> HeadConn
        ensures { result ≡ [] }
    {
        make_fresh(self.kept)
    }
}

impl DeadConn {
    /// A connection that has heard nothing. Takes no memory.
    pub fn renew(self) -> HeadConn
        ensures { result ≡ [] }
    {
        make_fresh(self.kept)
    }
}

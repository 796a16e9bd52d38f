// What is said on one connection, and what it leads to.
ghost use Rattle.std.specs.Prelude.{◌≡◌, ◌≤◌, [], length, drop, IsTrue, true, false};
ghost use Rattle.cube_io.specs.Wires.{IsSound};
ghost use Rattle.cube_http.specs.Targets.{wanted};
ghost use Rattle.cube_server.specs.Crashes.{Leads, LeadsOver};
ghost use Rattle.cube_server.specs.Ears.{said, Fits, is_on, is_continue, IsBad, OnKeeps, OnLeaves};
ghost use Rattle.cube_server.specs.Logs.{wanted_by, dealt_all};
ghost use Rattle.cube_server.specs.Seen.{moment, OnlySends};
ghost use Rattle.cube_server.specs.Steps.{Speaks, Deals, MakesReply, HearsAll, IsPhrased, body_said, dead_said};
ghost use Rattle.cube_http.specs.Responses.{has_phrase, status_of};

use crate::lines::Ear;
use crate::reply::{send_piece, send_reply};
use cube_http::{BodyConn, Conn, DeadConn, DoneConn, HeadConn, Heard, Wanted};
use cube_io::{Desk, Store, Wire};
use cube_model::{Fixed, Reply};
use std::alloc::Global;

// The leave to send a body.
const CONTINUE: &[u8] = b"HTTP/1.1 100 Continue\r\n\r\n";

/// What became of a connection.
#[derive(Drop)]
pub enum Left {
    /// It is open.
    On(Ear),
    /// It is closed, and what heard it is to spare.
    Off(HeadConn),
}

// Asks the desk, unless the reply is a constant one.
fn reply_to<S: Store, D: Desk<S>>(
    alloc: Global,
    desk: &mut D,
    store: &mut S,
    wanted: &Wanted,
) -> Reply
    requires fits { D.fits desk.old store.old }
    requires capacity { 1 ≤ D.capacity desk.old }
    requires phrased { IsPhrased (D.manner desk.old) }
    ensures does { let at = moment D.manner D.rooms D.capacity D.outcomes D.exact D.within in Leads (at desk.old (S.state store.old)) (at desk.new (S.state store.new)) (MakesReply wanted.now result) }
    ensures phrase { IsTrue (has_phrase (status_of result)) }
    ensures fits { D.fits desk.new store.new }
{
    match wanted {
        Wanted::Asked(ask) => desk.answer(alloc, store, ask),
        Wanted::Constant(fixed) => Reply::Fixed(*fixed),
    }
}

// The reply to a request. Where there is no memory to tell what it wants, that is an ask that found none.
fn make_reply<S: Store, D: Desk<S>>(
    alloc: Global,
    desk: &mut D,
    store: &mut S,
    done: &DoneConn,
) -> Reply
    requires fits { D.fits desk.old store.old }
    requires capacity { 1 ≤ D.capacity desk.old }
    requires phrased { IsPhrased (D.manner desk.old) }
    ensures does { let at = moment D.manner D.rooms D.capacity D.outcomes D.exact D.within in Leads (at desk.old (S.state store.old)) (at desk.new (S.state store.new)) (MakesReply (wanted done.now) result) }
    ensures phrase { IsTrue (has_phrase (status_of result)) }
    ensures fits { D.fits desk.new store.new }
{
    match done.wanted(alloc) {
        Ok(wanted) => reply_to(alloc, desk, store, &wanted),
        Err(_) => desk.miss(),
    }
}

// Asks the desk what a request wants, and replies. Tells whether the connection is open.
fn answer_request<S: Store, D: Desk<S>, W: Wire>(
    alloc: Global,
    desk: &mut D,
    store: &mut S,
    wire: &mut W,
    c: u32,
    done: &DoneConn,
) -> bool
    requires fits { D.fits desk.old store.old }
    requires capacity { 1 ≤ D.capacity desk.old }
    requires phrased { IsPhrased (D.manner desk.old) }
    requires live { IsTrue (W.state wire.old).told → IsSound c (W.state wire.old).log }
    ensures does { let at = moment D.manner D.rooms D.capacity D.outcomes D.exact D.within in LeadsOver (W.state wire.old) (W.state wire.new) (at desk.old (S.state store.old)) (at desk.new (S.state store.new)) (Deals c (wanted_by (D.manner desk.old) (wanted done.now) c done.now) result) }
    ensures fits { D.fits desk.new store.new }
    ensures sending { OnlySends (W.state wire.old) (W.state wire.new) }
{
    let reply = make_reply(alloc, desk, store, done);
    send_reply(wire, c, &reply, done.closes(), done.head_only())
}

// Whether the client waits for leave to send a body.
fn waits(heard: Heard) -> bool
    ensures { result ≡ is_continue heard }
{
    match heard {
        Heard::Continue => true,
        _ => false,
    }
}

// A body goes on. The client may wait for leave to send it.
fn deal_body<W: Wire>(wire: &mut W, c: u32, body: BodyConn, waits: bool) -> Left
    requires live { IsTrue (W.state wire.old).told → IsSound c (W.state wire.old).log }
    ensures says { IsTrue (W.state wire.old).told → Speaks c (body_said c waits) (W.state wire.old).log (W.state wire.new).log (is_on result) }
    ensures keeps { OnKeeps result body }
    ensures sending { OnlySends (W.state wire.old) (W.state wire.new) }
{
    if !waits {
        return Left::On(Ear::Body(body));
    }
    if send_piece(wire, c, CONTINUE) {
        Left::On(Ear::Body(body))
    } else {
        Left::Off(body.renew())
    }
}

// The bytes were refused.
fn deal_dead<W: Wire>(wire: &mut W, c: u32, dead: DeadConn, heard: Heard) -> Left
    requires live { IsTrue (W.state wire.old).told → IsSound c (W.state wire.old).log }
    requires bad { IsBad heard }
    ensures says { IsTrue (W.state wire.old).told → Speaks c (dead_said c heard) (W.state wire.old).log (W.state wire.new).log false }
    ensures off { is_on result ≡ false }
    ensures sending { OnlySends (W.state wire.old) (W.state wire.new) }
{
    match heard {
        Heard::Bad(fixed) => {
            let _shut = send_reply(wire, c, &Reply::Fixed(fixed), true, false);
        }
        _ => unreachable!(),
    }
    Left::Off(dead.renew())
}

// A request is whole.
fn deal_done<S: Store, D: Desk<S>, W: Wire>(
    alloc: Global,
    desk: &mut D,
    store: &mut S,
    wire: &mut W,
    c: u32,
    done: DoneConn,
) -> Left
    requires fits { D.fits desk.old store.old }
    requires capacity { 1 ≤ D.capacity desk.old }
    requires phrased { IsPhrased (D.manner desk.old) }
    requires live { IsTrue (W.state wire.old).told → IsSound c (W.state wire.old).log }
    ensures does { let at = moment D.manner D.rooms D.capacity D.outcomes D.exact D.within in LeadsOver (W.state wire.old) (W.state wire.new) (at desk.old (S.state store.old)) (at desk.new (S.state store.new)) (Deals c (wanted_by (D.manner desk.old) (wanted done) c done) (is_on result)) }
    ensures keeps { OnKeeps result [] }
    ensures fits { D.fits desk.new store.new }
    ensures sending { OnlySends (W.state wire.old) (W.state wire.new) }
{
    if answer_request(alloc, desk, store, wire, c, &done) {
        Left::On(Ear::Head(done.next()))
    } else {
        Left::Off(done.next())
    }
}

// Deals with what was heard, if anything was.
fn deal<S: Store, D: Desk<S>, W: Wire>(
    alloc: Global,
    desk: &mut D,
    store: &mut S,
    wire: &mut W,
    c: u32,
    conn: Conn,
    heard: Heard,
) -> Left
    requires fits { D.fits desk.old store.old }
    requires capacity { 1 ≤ D.capacity desk.old }
    requires phrased { IsPhrased (D.manner desk.old) }
    requires live { IsTrue (W.state wire.old).told → IsSound c (W.state wire.old).log }
    requires heard { Fits heard conn }
    ensures does { let at = moment D.manner D.rooms D.capacity D.outcomes D.exact D.within in LeadsOver (W.state wire.old) (W.state wire.new) (at desk.old (S.state store.old)) (at desk.new (S.state store.new)) (Deals c (dealt_all (D.manner desk.old) c (said heard conn)) (is_on result)) }
    ensures leaves { OnLeaves result conn }
    ensures fits { D.fits desk.new store.new }
    ensures sending { OnlySends (W.state wire.old) (W.state wire.new) }
{
    match conn {
        Conn::Head(head) => Left::On(Ear::Head(head)),
        Conn::Body(body) => deal_body(wire, c, body, waits(heard)),
        Conn::Done(done) => deal_done(alloc, desk, store, wire, c, done),
        Conn::Dead(dead) => deal_dead(wire, c, dead, heard),
    }
}

// The bytes behind the first ones, so many of them.
fn skip(bytes: &[u8], used: usize) -> &[u8]
    requires { used ≤ length bytes.now }
    ensures { result.now ≡ drop used bytes.now }
{
    &bytes[used..]
}

/// Hears a piece, and deals with each item whose last byte lies in it, while the connection is open and the desk has room.
pub fn hear_piece<S: Store, D: Desk<S>, W: Wire>(
    alloc: Global,
    desk: &mut D,
    store: &mut S,
    wire: &mut W,
    c: u32,
    ear: Ear,
    piece: &[u8],
) -> Left
    requires fits { D.fits desk.old store.old }
    requires capacity { 1 ≤ D.capacity desk.old }
    requires phrased { IsPhrased (D.manner desk.old) }
    requires live { IsTrue (W.state wire.old).told → IsSound c (W.state wire.old).log }
    ensures does { let at = moment D.manner D.rooms D.capacity D.outcomes D.exact D.within in LeadsOver (W.state wire.old) (W.state wire.new) (at desk.old (S.state store.old)) (at desk.new (S.state store.new)) (HearsAll c ear piece.now result) }
    ensures fits { D.fits desk.new store.new }
    ensures sending { OnlySends (W.state wire.old) (W.state wire.new) }
{
    let mut ear = ear;
    let mut rest = piece;
    'items: loop {
        if rest.is_empty() {
            return Left::On(ear);
        }
        if desk.left() == 0 {
            return Left::On(ear);
        }
        let fed = ear.feed(rest);
        rest = skip(rest, fed.used);
        match deal(alloc, desk, store, wire, c, fed.conn, fed.heard) {
            Left::On(next) => ear = next,
            Left::Off(head) => return Left::Off(head),
        }
    }
}

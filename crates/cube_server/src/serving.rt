// The loop over the events of a wire.
ghost use Rattle.std.specs.Prelude.{◌≡◌, ◌≢◌, ◌<◌, ◌≤◌, ◌++◌, ◌∷◌, [], List, length, IsTrue, OnOk, OnErr, IfErr, true, false, Ok, Err, IfSome, IfNone};
ghost use Rattle.cube_io.specs.Causes.{Rose};
ghost use Rattle.cube_io.specs.Told.{PlaysOn};
ghost use Rattle.cube_io.specs.Wires.{Arrival, LogEntry, IsSound, FitsBuffer, arrival_of, events_in};
ghost use Rattle.cube_io.specs.Wires.LogEntry.{Heard};
ghost use Rattle.cube_io.specs.Wires.Arrival.{Opened, Came, Closed, End};
ghost use Rattle.cube_server.specs.Crashes.{LeadsOver};
ghost use Rattle.cube_server.specs.Ears.{has, IsAnew, HasCapacity, AreOpen, AreOpenBut, AreOpenAt, is_last};
ghost use Rattle.cube_server.specs.Pools.{IsFree};
ghost use Rattle.cube_server.specs.Seen.{DeskState, moment, OnlySends};
ghost use Rattle.cube_server.specs.Steps.{IsPhrased, IsCounted, MeetsAll, Permits, TakesWhere, Serves, has_end};

use crate::deal::{Left, hear_piece};
use crate::lines::{Ear, Lines};
use crate::pools::Pool;
use crate::reply::send_reply;
use cube_http::HeadConn;
use cube_io::{Desk, Event, Store, Wire};
use cube_model::{Fixed, Reply};
use std::alloc::Global;

/// Why a call ended before the end of the wire.
#[derive(Clone, Copy, Debug, PartialEq, Eq)]
pub enum ServeFault {
    /// The wire failed; this was counted.
    WireFailed,
    /// The desk has no space for more asks, or the stated events were taken.
    Spent {
        /// How many outcomes the desk gained.
        requests: u64,
        /// How many events were taken.
        events: u64,
    },
}

// What became of an event.
#[derive(Clone, Copy, Debug, PartialEq, Eq)]
enum Taken {
    // It was taken.
    More,
    // It is the end.
    Ended,
    // The wire failed.
    Failed,
}

// What hears a new connection of the number, where there is space for one more.
fn fresh_ear(lines: &mut Lines, c: u32) -> Option<HeadConn>
    requires { HasCapacity lines.old 0 }
    ensures some { IfSome result (λ head. HasCapacity lines.new 1 × (head ≡ []) × IsAnew c lines.old.lines.items lines.new.lines.items) }
    ensures none { IfNone result (HasCapacity lines.new 0 × (has c lines.old.lines.items ≡ false) × (length lines.old.lines.items ≡ 64) × (lines.new.lines.items ≡ lines.old.lines.items)) }
{
    match lines.take(c) {
        Some(ear) => Some(ear.renew()),
        None => lines.lend(),
    }
}

// A connection was opened: it is new, or there is no space for it.
fn open_conn<W: Wire>(wire: &mut W, lines: &mut Lines, c: u32)
    requires capacity { HasCapacity lines.old 0 }
    requires live { IsTrue (W.state wire.old).told → IsSound c (W.state wire.old).log }
    ensures capacity { HasCapacity lines.new 0 }
    ensures meets { IsTrue (W.state wire.old).told → AreOpenBut c lines.old.lines.items (W.state wire.old).log
        → (desk : DeskState) → MeetsAll (Opened c) lines.old lines.new desk desk (W.state wire.old).log (W.state wire.new).log [] }
    ensures sending { OnlySends (W.state wire.old) (W.state wire.new) }
{
    match fresh_ear(lines, c) {
        Some(head) => lines.put(c, Ear::Head(head)),
        None => {
            let _shut = send_reply(wire, c, &Reply::Fixed(Fixed::Busy), true, false);
        }
    }
}

// A connection was closed by the other side.
fn close_conn(lines: &mut Lines, c: u32)
    requires { HasCapacity lines.old 0 }
    ensures capacity { HasCapacity lines.new 0 }
    ensures meets { (log : List LogEntry) → AreOpenBut c lines.old.lines.items log
        → (desk : DeskState) → MeetsAll (Closed c) lines.old lines.new desk desk log log [] }
{
    match lines.take(c) {
        Some(ear) => lines.give(ear.renew()),
        None => {}
    }
}

// A piece came. That of a connection that is not open is dropped.
fn hear<S: Store, D: Desk<S>, W: Wire>(
    alloc: Global,
    desk: &mut D,
    store: &mut S,
    wire: &mut W,
    lines: &mut Lines,
    c: u32,
    piece: &[u8],
)
    requires fits { D.fits desk.old store.old }
    requires capacity { 1 ≤ D.capacity desk.old }
    requires phrased { IsPhrased (D.manner desk.old) }
    requires lines { HasCapacity lines.old 0 }
    requires live { IsTrue (W.state wire.old).told → AreOpen lines.old.lines.items (W.state wire.old).log }
    ensures lines { HasCapacity lines.new 0 }
    ensures does { let at = moment D.manner D.rooms D.capacity D.outcomes D.exact D.within in LeadsOver (W.state wire.old) (W.state wire.new) (at desk.old (S.state store.old)) (at desk.new (S.state store.new)) (MeetsAll (Came c piece.now) lines.old lines.new) }
    ensures fits { D.fits desk.new store.new }
    ensures sending { OnlySends (W.state wire.old) (W.state wire.new) }
{
    let Some(ear) = lines.take(c) else {
        return;
    };
    match hear_piece(alloc, desk, store, wire, c, ear, piece) {
        Left::On(ear) => lines.put(c, ear),
        Left::Off(head) => lines.give(head),
    }
}

// What an event leads to, unless it is the end.
fn meet<S: Store, D: Desk<S>, W: Wire>(
    alloc: Global,
    desk: &mut D,
    store: &mut S,
    wire: &mut W,
    lines: &mut Lines,
    event: Event,
    buf: &[u8],
)
    requires fits { D.fits desk.old store.old }
    requires capacity { 1 ≤ D.capacity desk.old }
    requires phrased { IsPhrased (D.manner desk.old) }
    requires lines { HasCapacity lines.old 0 }
    requires buf { FitsBuffer event buf.now }
    requires live { IsTrue (W.state wire.old).told → AreOpenAt event lines.old.lines.items (W.state wire.old).log }
    requires more { is_last event ≡ false }
    ensures lines { HasCapacity lines.new 0 }
    ensures does { let at = moment D.manner D.rooms D.capacity D.outcomes D.exact D.within in LeadsOver (W.state wire.old) (W.state wire.new) (at desk.old (S.state store.old)) (at desk.new (S.state store.new)) (MeetsAll (arrival_of event buf.now) lines.old lines.new) }
    ensures fits { D.fits desk.new store.new }
    ensures sending { OnlySends (W.state wire.old) (W.state wire.new) }
{
    match event {
        Event::Opened(c) => open_conn(wire, lines, c),
        Event::Piece(c, n) => hear(alloc, desk, store, wire, lines, c, &buf[..n]),
        Event::Closed(c) => close_conn(lines, c),
        Event::End => {}
    }
}

// Whether an event is the end.
fn is_end(event: Event) -> bool
    ensures { result ≡ is_last event }
{
    match event {
        Event::End => true,
        _ => false,
    }
}

// Takes an event.
fn take_event<S: Store, D: Desk<S>, W: Wire>(
    alloc: Global,
    desk: &mut D,
    store: &mut S,
    wire: &mut W,
    lines: &mut Lines,
    buf: &mut [u8],
) -> Taken
    requires fits { D.fits desk.old store.old }
    requires capacity { 1 ≤ D.capacity desk.old }
    requires phrased { IsPhrased (D.manner desk.old) }
    requires lines { HasCapacity lines.old 0 }
    requires buf { length buf.old ≡ 65536 }
    requires live { IsTrue (W.state wire.old).told → AreOpen lines.old.lines.items (W.state wire.old).log }
    requires allowed { IsTrue (W.state wire.old).told → W.allows (S.state store.old) (W.state wire.old).log }
    ensures lines { HasCapacity lines.new 0 }
    ensures does { let at = moment D.manner D.rooms D.capacity D.outcomes D.exact D.within in LeadsOver (W.state wire.old) (W.state wire.new) (at desk.old (S.state store.old)) (at desk.new (S.state store.new)) (TakesWhere (result ≡ Taken.More) lines.old lines.new) }
    ensures ended { result ≡ Taken.Ended → (desk.new ≡ desk.old) × (store.new ≡ store.old) × (IsTrue (W.state wire.old).told → (W.state wire.new).log ≡ (W.state wire.old).log ++ Heard End ∷ []) }
    ensures failed { result ≡ Taken.Failed → (desk.new ≡ desk.old) × (store.new ≡ store.old) × (IsTrue (W.state wire.old).told → (W.state wire.new).log ≡ (W.state wire.old).log) × Rose (W.state wire.old).faults (W.state wire.new).faults }
    ensures fits { D.fits desk.new store.new }
    ensures plays { PlaysOn (W.state wire.old) (W.state wire.new) }
    ensures steady { result ≢ Taken.Failed → (W.state wire.new).faults ≡ (W.state wire.old).faults }
    ensures sends { (W.state wire.old).send_faults ≤ (W.state wire.new).send_faults }
{
    let event = match wire.next(&*store, buf) {
        Ok(event) => event,
        Err(_) => return Taken::Failed,
    };
    if is_end(event) {
        return Taken::Ended;
    }
    meet(alloc, desk, store, wire, lines, event, buf);
    Taken::More
}

// Serves the wire over these connections, of which none is open.
fn serve_lines<S: Store, D: Desk<S>, W: Wire>(
    alloc: Global,
    desk: &mut D,
    store: &mut S,
    wire: &mut W,
    lines: &mut Lines,
    buf: &mut [u8],
    events: u64,
) -> Result<(), ServeFault>
    requires fits { D.fits desk.old store.old }
    requires capacity { 1 ≤ D.capacity desk.old }
    requires events { 1 ≤ events }
    requires phrased { IsPhrased (D.manner desk.old) }
    requires lines { HasCapacity lines.old 0 }
    requires none { lines.old.lines.items ≡ [] }
    requires buf { length buf.old ≡ 65536 }
    requires log { IsTrue (W.state wire.old).told → (W.state wire.old).log ≡ [] }
    requires permits { let at = moment D.manner D.rooms D.capacity D.outcomes D.exact D.within in IsTrue (W.state wire.old).told → Permits {D = D} {S = S} at S.state W.allows events desk.old store.old }
    ensures lines { HasCapacity lines.new 0 }
    ensures serves { let at = moment D.manner D.rooms D.capacity D.outcomes D.exact D.within in LeadsOver (W.state wire.old) (W.state wire.new) (at desk.old (S.state store.old)) (at desk.new (S.state store.new)) (λ d e started log calls. Serves d e events log calls) }
    ensures ended { IsTrue (W.state wire.old).told → OnOk result ((es : List Arrival) × (events_in (W.state wire.new).log ≡ es ++ End ∷ []) × (length es < events)) }
    ensures unended { IsTrue (W.state wire.old).told → OnErr result (has_end (W.state wire.new).log ≡ false) }
    ensures capacity { OnOk result (0 < D.capacity desk.new) }
    ensures spent { let at = moment D.manner D.rooms D.capacity D.outcomes D.exact D.within in IfErr result (λ fault. IsCounted fault (W.state wire.old).told (at desk.old (S.state store.old)).desk (at desk.new (S.state store.new)).desk events (W.state wire.new).log) }
    ensures failed { result ≡ Err ServeFault.WireFailed → Rose (W.state wire.old).faults (W.state wire.new).faults }
    ensures steady { result ≢ Err ServeFault.WireFailed → (W.state wire.new).faults ≡ (W.state wire.old).faults }
    ensures sends { (W.state wire.old).send_faults ≤ (W.state wire.new).send_faults }
    ensures plays { PlaysOn (W.state wire.old) (W.state wire.new) }
    ensures fits { D.fits desk.new store.new }
{
    let capacity = desk.left();
    let mut taken = 0u64;
    'events: while taken < events {
        match take_event(alloc, desk, store, wire, lines, buf) {
            Taken::More => {}
            Taken::Ended => return Ok(()),
            Taken::Failed => return Err(ServeFault::WireFailed),
        }
        taken += 1;
        if desk.left() == 0 {
            return Err(ServeFault::Spent {
                requests: capacity,
                events: taken,
            });
        }
    }
    Err(ServeFault::Spent {
        requests: capacity - desk.left(),
        events: taken,
    })
}

/// Serves a wire until its end, until the desk has no space for more asks, or until so many events were taken.
///
/// Each request whose last byte lies in a piece is answered before a later byte is looked at. A failed send closes its
/// connection alone.
///
/// Each time that it looks for the next event, behind which what it sent may go out, the log so far is that of the definition, and
/// the store has behind it what was answered: who gives the wire has to allow just that.
pub fn serve<S: Store, D: Desk<S>, W: Wire>(
    alloc: Global,
    desk: &mut D,
    store: &mut S,
    wire: &mut W,
    pool: &mut Pool,
    events: u64,
) -> Result<(), ServeFault>
    requires fits { D.fits desk.old store.old }
    requires capacity { 1 ≤ D.capacity desk.old }
    requires events { 1 ≤ events }
    requires phrased { IsPhrased (D.manner desk.old) }
    requires pool { IsFree pool.old }
    requires log { IsTrue (W.state wire.old).told → (W.state wire.old).log ≡ [] }
    requires permits { let at = moment D.manner D.rooms D.capacity D.outcomes D.exact D.within in IsTrue (W.state wire.old).told → Permits {D = D} {S = S} at S.state W.allows events desk.old store.old }
    ensures serves { let at = moment D.manner D.rooms D.capacity D.outcomes D.exact D.within in LeadsOver (W.state wire.old) (W.state wire.new) (at desk.old (S.state store.old)) (at desk.new (S.state store.new)) (λ d e started log calls. Serves d e events log calls) }

    // Ok comes exactly at the end, and a fault only before it.
    ensures ended { IsTrue (W.state wire.old).told → OnOk result ((es : List Arrival) × (events_in (W.state wire.new).log ≡ es ++ End ∷ []) × (length es < events)) }
    ensures unended { IsTrue (W.state wire.old).told → OnErr result (has_end (W.state wire.new).log ≡ false) }
    ensures capacity { OnOk result (0 < D.capacity desk.new) }
    ensures spent { let at = moment D.manner D.rooms D.capacity D.outcomes D.exact D.within in IfErr result (λ fault. IsCounted fault (W.state wire.old).told (at desk.old (S.state store.old)).desk (at desk.new (S.state store.new)).desk events (W.state wire.new).log) }
    ensures failed { result ≡ Err ServeFault.WireFailed → Rose (W.state wire.old).faults (W.state wire.new).faults }
    ensures steady { result ≢ Err ServeFault.WireFailed → (W.state wire.new).faults ≡ (W.state wire.old).faults }
    ensures sends { (W.state wire.old).send_faults ≤ (W.state wire.new).send_faults }
    ensures plays { PlaysOn (W.state wire.old) (W.state wire.new) }
    ensures fits { D.fits desk.new store.new }
{
    serve_lines(
        alloc,
        desk,
        store,
        wire,
        &mut pool.lines,
        &mut pool.buf,
        events,
    )
}

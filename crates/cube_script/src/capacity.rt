// The space that the events of a script need, and how one of them is played.
ghost use Rattle.std.specs.Prelude.{◌≡◌, ◌<◌, ◌≤◌, ◌+◌, ◌++◌, ◌∷◌, [], length, take, map, sum_by, slice_get, Some, false, IfSome, IfNone};
ghost use Rattle.cube_io.specs.Wires.{FitsBuffer, arrival_of};
ghost use Rattle.cube_io.specs.Wires.LogEntry.{Heard};
ghost use Rattle.cube_script.specs.Plays.{played};
ghost use Rattle.cube_script.specs.Capacity.{IsPlayable, entries_owed, entries_for, bytes_for};

use crate::play::Play;
use cube_io::{Event, Note, Scroll};

// How many entries may follow from an event.
pub(crate) fn entries_owed(play: &Play) -> usize
    ensures { result ≡ entries_owed (played play.now) }
{
    match play {
        Play::Opened(_) => 2,
        _ => 0,
    }
}

// How many bytes an event has.
fn bytes_for(play: &Play) -> usize
    ensures { result ≡ bytes_for (played play.now) }
{
    match play {
        Play::Came(_, bytes) => bytes.len(),
        _ => 0,
    }
}

/// The entries and the bytes that the log of some events may have, without those of sends that go well.
pub(crate) fn capacity_for(plays: &[Play]) -> Option<(usize, usize)>
    ensures entries { IfSome result (λ capacity. capacity.0 ≡ sum_by entries_for (map played plays.now)) }
    ensures bytes { IfSome result (λ capacity. capacity.1 ≡ sum_by bytes_for (map played plays.now)) }
{
    let mut entries = 0usize;
    let mut bytes = 0usize;
    for play in plays {
        entries = entries.checked_add(1 + entries_owed(play))?;
        bytes = bytes.checked_add(bytes_for(play))?;
    }
    Some((entries, bytes))
}

/// The event that comes next, where none was refused before.
pub(crate) fn next_play(plays: &[Play], at: usize, overrun: bool) -> Option<&Play>
    ensures some { IfSome result (λ play. (overrun ≡ false) × (slice_get (map played plays.now) at ≡ Some (played play.now))) }
    ensures none { IfNone result (overrun ≡ false → length (map played plays.now) ≤ at) }
{
    if overrun { None } else { plays.get(at) }
}

// Puts the bytes of a piece at the front of the buffer.
fn show(bytes: &[u8], buf: &mut [u8])
    requires { length bytes.now ≤ length buf.old }
    ensures { take (length bytes.now) buf.new ≡ bytes.now }
{
    buf[..bytes.len()].copy_from_slice(bytes);
}

/// Plays an event, and notes it.
pub(crate) fn play_event(scroll: &mut Scroll, play: &Play, buf: &mut [u8]) -> Event
    requires playable { IsPlayable (played play.now) }
    requires buf { length buf.old ≡ 65536 }
    requires entry { 0 < scroll.old.entries_left }
    requires bytes { bytes_for (played play.now) ≤ scroll.old.bytes_left }
    ensures event { arrival_of result buf.new ≡ played play.now }
    ensures fits { FitsBuffer result buf.new }
    ensures log { scroll.new.log ≡ scroll.old.log ++ Heard (played play.now) ∷ [] }
    ensures entries { scroll.new.entries_left + 1 ≡ scroll.old.entries_left }
    ensures bytes { scroll.new.bytes_left + bytes_for (played play.now) ≡ scroll.old.bytes_left }
{
    match play {
        Play::Opened(c) => {
            scroll.add(Note::Opened(*c), b"");
            Event::Opened(*c)
        }
        Play::Came(c, bytes) => {
            let piece = bytes.as_slice();
            scroll.add(Note::Came(*c), piece);
            show(piece, buf);
            Event::Piece(*c, piece.len())
        }
        Play::Closed(c) => {
            scroll.add(Note::Closed(*c), b"");
            Event::Closed(*c)
        }
        Play::End => {
            scroll.add(Note::End, b"");
            Event::End
        }
    }
}

// The text of a log.
ghost use Rattle.std.specs.Prelude.{◌≡◌, ◌<◌, ◌≤◌, take, OnOk, OnErr};
ghost use Rattle.std.specs.Io.KnownBytes.{Appends};
ghost use Rattle.cube_io.specs.Causes.{HasCause};
ghost use Rattle.cube_io.specs.Content.{AppendsPrefix};
ghost use Rattle.cube_io.specs.Scrolls.{entry_of};
ghost use Rattle.cube_io.specs.Wires.{render, rendered};
ghost use Rattle.cube_io.specs.Wires.LogEntry.{Sent, Shut};
ghost use Rattle.cube_script.specs.Heads.{sent_head, shut_line};

use cube_io::{Failed, Note, NullStore, Scroll, Sink};
use cube_text::{LINE, write_at};
use itoa::Buffer;

// Writes the line before the bytes of a send.
fn write_sent(buf: &mut [u8; LINE], c: u32, piece: &[u8]) -> usize
    ensures written { take result buf.new ≡ sent_head c piece.now }
    ensures short { result ≤ 64 }
{
    let mut number = Buffer::new();
    let at = write_at(buf, 0, b"sent ");
    let at = write_at(buf, at, number.format(c).as_bytes());
    let at = write_at(buf, at, b" ");
    let at = write_at(buf, at, number.format(piece.len()).as_bytes());
    write_at(buf, at, b"\n")
}

// Writes the line of a close.
fn write_shut(buf: &mut [u8; LINE], c: u32) -> usize
    ensures written { take result buf.new ≡ shut_line c }
    ensures short { result ≤ 64 }
{
    let mut number = Buffer::new();
    let at = write_at(buf, 0, b"shut ");
    let at = write_at(buf, at, number.format(c).as_bytes());
    write_at(buf, at, b"\n")
}

// Puts a send that went well.
fn put_sent<O: Sink>(out: &mut O, c: u32, piece: &[u8]) -> Result<(), Failed>
    ensures ok { OnOk result (Appends (O.state out.old).written (O.state out.new).written (rendered (Sent c piece.now))) }
    ensures err { OnErr result (AppendsPrefix (O.state out.old).written (O.state out.new).written (rendered (Sent c piece.now))) }
    ensures cause { HasCause (O.state out.old).faults (O.state out.new).faults result }
{
    let mut head = [0u8; LINE];
    let end = write_sent(&mut head, c, piece);
    let none = NullStore::new();
    out.put(&none, &head[..end])?;
    out.put(&none, piece)?;
    out.put(&none, b"\n")?;
    Ok(())
}

// Puts a close.
fn put_shut<O: Sink>(out: &mut O, c: u32) -> Result<(), Failed>
    ensures ok { OnOk result (Appends (O.state out.old).written (O.state out.new).written (rendered (Shut c))) }
    ensures err { OnErr result (AppendsPrefix (O.state out.old).written (O.state out.new).written (rendered (Shut c))) }
    ensures cause { HasCause (O.state out.old).faults (O.state out.new).faults result }
{
    let mut line = [0u8; LINE];
    let end = write_shut(&mut line, c);
    out.put(&NullStore::new(), &line[..end])?;
    Ok(())
}

// Puts the text of an entry.
fn put_entry<O: Sink>(out: &mut O, note: Note, bytes: &[u8]) -> Result<(), Failed>
    ensures ok { OnOk result (Appends (O.state out.old).written (O.state out.new).written (rendered (entry_of note bytes.now))) }
    ensures err { OnErr result (AppendsPrefix (O.state out.old).written (O.state out.new).written (rendered (entry_of note bytes.now))) }
    ensures cause { HasCause (O.state out.old).faults (O.state out.new).faults result }
{
    match note {
        Note::Sent(c) => put_sent(out, c, bytes),
        Note::Shut(c) => put_shut(out, c),
        Note::Opened(_) | Note::Came(_) | Note::Closed(_) | Note::End | Note::Torn(..) => Ok(()),
    }
}

/// Puts the text of a log: `sent C N` and a line feed, the N bytes and a line feed for each send that went well, `shut C` and a
/// line feed for each close. After a put that failed it puts nothing more.
pub(crate) fn put_log<O: Sink>(scroll: &Scroll, out: &mut O) -> Result<(), Failed>
    ensures ok { OnOk result (Appends (O.state out.old).written (O.state out.new).written (render scroll.now.log)) }
    ensures err { OnErr result (AppendsPrefix (O.state out.old).written (O.state out.new).written (render scroll.now.log)) }
    ensures cause { HasCause (O.state out.old).faults (O.state out.new).faults result }
{
    'entries: for place in 0..scroll.len() {
        let (note, bytes) = scroll.entry(place);
        put_entry(out, note, bytes)?;
    }
    Ok(())
}

// The wire over sockets in memory, whose log has what they tell.
ghost use Rattle.std.specs.Prelude.{◌≡◌, [], length, IfOk};

use crate::mem_sockets::MemSockets;
use cube_edge::{MemWatch, SocketWire};
use cube_io::{Event, Note, NullStore, Wire};
use cube_model::Text;
use std::alloc::Global;
use std::test::Fail;

type TrialWire = SocketWire<MemSockets, MemWatch>;

// A wire whose client sends two bytes, and to which no more than three bytes are written at once.
fn make_wire(alloc: Global) -> Result<TrialWire, Fail>
    ensures { IfOk result (λ wire. (⟦<TrialWire as Wire>⟧.state wire).log ≡ []) }
{
    let coming = Text::from_bytes(alloc, b"hi")?;
    let sockets = MemSockets::new(alloc, coming, 3);
    let watch = MemWatch::with_capacity(alloc, 16, 131_072)?;
    Ok(SocketWire::new(alloc, sockets, watch)?)
}

// Answers a client as soon as it is there and a byte of it came, and closes it.
fn answer(wire: &mut TrialWire, buf: &mut [u8]) -> Result<(), Fail>
    requires log { (⟦<TrialWire as Wire>⟧.state wire.old).log ≡ [] }
    requires buf { length buf.old ≡ 65536 }
{
    let store = NullStore::new();
    let Ok(Event::Opened(c)) = wire.next(&store, buf) else {
        return Err("no client".into());
    };
    let Ok(Event::Piece(_, _)) = wire.next(&store, buf) else {
        return Err("no byte".into());
    };
    let Ok(()) = wire.send(c, b"hello") else {
        return Err("not sent".into());
    };
    wire.close(c);
    Ok(())
}

// A wire that was answered so, and what it had given before it looked for an event again.
fn make_answered(alloc: Global) -> Result<(TrialWire, Text), Fail> {
    let mut wire = make_wire(alloc)?;
    let mut buf = [0u8; 65_536];
    answer(&mut wire, &mut buf)?;
    let given = Text::from_bytes(alloc, wire.sockets().given())?;
    wire.settle();
    Ok((wire, given))
}

#[test]
fn a_log_has_what_the_sockets_tell(rt: HostRuntime) -> Result<(), Fail> {
    let (wire, before) = make_answered(rt.alloc())?;
    // What was sent waits for the next look for an event.
    assert_eq!(rt; before.as_slice(), b"".as_slice());
    assert_eq!(rt; wire.sockets().given(), b"hello".as_slice());
    assert!(rt; wire.sockets().is_shut());
    let scroll = wire.watch().scroll();
    let log: &[(Note, &[u8]); 4] = &[
        (Note::Opened(0), b""),
        (Note::Came(0), b"h"),
        (Note::Sent(0), b"hello"),
        (Note::Shut(0), b""),
    ];
    assert_eq!(rt; scroll.len(), 4);
    for (place, entry) in log.iter().enumerate() {
        if place < scroll.len() {
            let (note, bytes) = scroll.entry(place);
            assert_eq!(rt; (note, bytes), *entry);
        }
    }
    Ok(())
}

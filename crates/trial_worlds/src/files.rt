// A store in files, over a disk in memory whose calls fail.
ghost use Rattle.std.specs.Prelude.{IsTrue, IfOk};

use crate::mem_disk::MemDisk;
use cube_edge::FileStore;
use cube_io::Store;
use cube_model::Text;
use std::alloc::Global;
use std::test::Fail;

// A disk with an empty file of the name `log`, which writes at most three bytes at once. The call of the disk with this
// number fails.
fn make_disk(alloc: Global, failing: u64) -> Result<MemDisk, Fail> {
    let name = Text::from_bytes(alloc, b"log")?;
    let beside = Text::from_bytes(alloc, b"beside")?;
    Ok(MemDisk::new(alloc, name, beside, 3, vec![in alloc; failing]?))
}

// A store over such a disk.
fn make_store<'a>(
    alloc: Global,
    failing: u64,
    notes: &'a mut [u8],
) -> Result<FileStore<MemDisk, &'a mut [u8]>, Fail>
    ensures { IfOk result (λ store. IsTrue (⟦<FileStore<MemDisk, &'a mut [u8]> as Store>⟧.state store).attached) }
{
    let mut store = FileStore::new(alloc, make_disk(alloc, failing)?, notes)?;
    store.attach(&Text::from_bytes(alloc, b"log")?)?;
    Ok(store)
}

// Whether a store takes its name where a call fails, and then again.
fn try_to_attach(alloc: Global, failing: u64, notes: &mut [u8]) -> Result<(bool, bool), Fail> {
    let mut store = FileStore::new(alloc, make_disk(alloc, failing)?, notes)?;
    let name = Text::from_bytes(alloc, b"log")?;
    let first = store.attach(&name).is_ok();
    Ok((first, store.attach(&name).is_ok()))
}

#[test]
fn a_file_that_is_not_opened_is_not_attached(rt: HostRuntime) -> Result<(), Fail> {
    // The name is taken in call 0, and opening the file is three calls.
    let cases: &[(u64, &[u8]); 3] = &[
        (1, b"log: no storage space\n"),
        (2, b"log: in use by another program\n"),
        (3, b"log: no storage space\n"),
    ];
    for (failing, note) in cases {
        let mut notes = [0u8; 64];
        assert_eq!(rt;
            try_to_attach(rt.alloc(), *failing, &mut notes)?,
            (false, true)
        );
        assert!(rt; notes.starts_with(note));
    }
    Ok(())
}

// Whether an append, a sync and another append go well.
type Went = (bool, bool, bool);

// How three calls go of which one may fail, and what then stands in the log.
fn try_calls(alloc: Global, failing: u64, notes: &mut [u8]) -> Result<(Went, Text), Fail> {
    let mut store = make_store(alloc, failing, notes)?;
    let kept = store.append(0, b"kept\n").is_ok();
    let synced = store.sync(0).is_ok();
    let more = store.append(0, b"more").is_ok();
    Ok(((kept, synced, more), store.read_all(alloc, 0)?))
}

#[test]
fn a_call_that_fails_is_noted_and_the_next_goes_on(rt: HostRuntime) -> Result<(), Fail> {
    // Attaching is four calls. The look is the next, and the piece is written in two. A sync looks before it, too.
    let cases: &[(u64, Went, &[u8], &[u8]); 7] = &[
        (4, (false, true, true), b"more", b"log: moved or deleted\n"),
        (5, (false, true, true), b"more", b"log: no storage space\n"),
        (
            6,
            (false, true, true),
            b"kepmore",
            b"log: no storage space\n",
        ),
        (
            7,
            (true, false, true),
            b"kept\nmore",
            b"log: moved or deleted\n",
        ),
        (
            8,
            (true, false, true),
            b"kept\nmore",
            b"log: no storage space\n",
        ),
        (
            9,
            (true, true, false),
            b"kept\n",
            b"log: moved or deleted\n",
        ),
        (64, (true, true, true), b"kept\nmore", b"log: entries 0\n\0"),
    ];
    for (failing, went, text, note) in cases {
        let mut notes = [0u8; 64];
        let got = try_calls(rt.alloc(), *failing, &mut notes)?;
        assert_eq!(rt; got.0, *went);
        assert_eq!(rt; got.1.as_slice(), *text);
        assert!(rt; notes.starts_with(note));
    }
    Ok(())
}

// Reads a log, and cuts off what stands behind so many bytes.
fn cut_behind<S: Store>(store: &mut S, alloc: Global, len: usize) -> bool
    requires { IsTrue (S.state store.old).attached }
    ensures { IsTrue (S.state store.new).attached }
{
    match store.read_all(alloc, 0) {
        Ok(text) => len <= text.len() && store.cut(0, len as u64).is_ok(),
        Err(_) => false,
    }
}

// Whether a store takes another name, and then its own again.
fn try_names<S: Store>(store: &mut S, alloc: Global) -> Result<(bool, bool), Fail>
    ensures { IfOk result (λ took. IsTrue took.1 → IsTrue (S.state store.new).attached) }
{
    let other = store.attach(&Text::from_bytes(alloc, b"other")?).is_ok();
    let own = store.attach(&Text::from_bytes(alloc, b"log")?).is_ok();
    Ok((other, own))
}

// How a cut that fails and one that goes well leave a log, and whether they went well.
fn try_cuts<S: Store>(store: &mut S, alloc: Global) -> (bool, bool, bool)
    requires { IsTrue (S.state store.old).attached }
    ensures { IsTrue (S.state store.new).attached }
{
    let kept = store.append(0, b"keptor").is_ok();
    let first = cut_behind(store, alloc, 4);
    let next = cut_behind(store, alloc, 4);
    (kept, first, next)
}

#[test]
fn a_log_is_cut_and_opened_again(rt: HostRuntime) -> Result<(), Fail> {
    let mut notes = [0u8; 64];
    // The append is six calls, the read two, and of the cut the look is one.
    let mut store = make_store(rt.alloc(), 10, &mut notes)?;
    assert_eq!(rt; try_cuts(&mut store, rt.alloc()), (true, false, true));
    assert_eq!(rt; try_names(&mut store, rt.alloc())?, (false, true));
    let kept = store.read_all(rt.alloc(), 0)?;
    assert_eq!(rt; kept.as_slice(), b"kept".as_slice());
    drop(store);
    assert!(rt; notes.starts_with(b"log: new\nlog: no storage space\nlog: new\n\0"));
    Ok(())
}

// Outputs that are put whole into a file, over a disk in memory whose calls fail, and one of two sinks.
use crate::mem_disk::MemDisk;
use cube_edge::{EitherSink, OutFile, replace_whole};
use cube_io::{MemSink, NullStore, Sink};
use cube_model::Text;
use std::alloc::Global;
use std::test::Fail;

// A disk with two empty files, `out` and `out.new`, which writes at most three bytes at once. The call with this number
// fails.
fn make_disk(alloc: Global, failing: u64) -> Result<MemDisk, Fail> {
    let name = Text::from_bytes(alloc, b"out")?;
    let beside = Text::from_bytes(alloc, b"out.new")?;
    Ok(MemDisk::new(alloc, name, beside, 3, vec![in alloc; failing]?))
}

// Whether a call went well, and what the file holds then.
type Went = (bool, Text);

// Whether a call went so, and left the file with these bytes.
fn is(went: &Went, done: bool, holds: &[u8]) -> bool {
    went.0 == done && went.1.as_slice() == holds
}

// Puts bytes in the place of those of the file.
fn replace(alloc: Global, disk: &mut MemDisk, bytes: &[u8]) -> Result<Went, Fail> {
    let done = replace_whole(disk, "out", "out.new", bytes).is_ok();
    let holds = disk.bytes_at(b"out").unwrap_or(&[]);
    Ok((done, Text::from_bytes(alloc, holds)?))
}

// Puts bytes in the place of those of the file, and then others, where one call of the disk fails.
fn replace_twice(
    alloc: Global,
    failing: u64,
    first: &[u8],
    next: &[u8],
) -> Result<(Went, Went), Fail> {
    let mut disk = make_disk(alloc, failing)?;
    let first = replace(alloc, &mut disk, first)?;
    let next = replace(alloc, &mut disk, next)?;
    Ok((first, next))
}

#[test]
fn a_file_is_the_old_one_or_the_new(rt: HostRuntime) -> Result<(), Fail> {
    // The first takes twelve calls, and the next one more, since it writes twice. Behind call 23 the file has its place.
    for failing in 12u64..26 {
        let (first, next) = replace_twice(rt.alloc(), failing, b"old", b"newer")?;
        let wanted: &[u8] = if failing < 24 { b"old" } else { b"newer" };
        assert!(rt; is(&first, true, b"old"));
        assert!(rt; is(&next, failing == 25, wanted));
    }
    Ok(())
}

#[test]
fn what_a_failed_call_left_beside_is_no_part_of_the_next(rt: HostRuntime) -> Result<(), Fail> {
    // The first fails at its second write, or before the file has its place.
    for failing in 7u64..12 {
        let (first, next) = replace_twice(rt.alloc(), failing, b"longer", b"new")?;
        assert!(rt; is(&first, false, b""));
        assert!(rt; is(&next, true, b"new"));
    }
    Ok(())
}

// An output into the file of such a disk.
fn make_out<'a>(
    alloc: Global,
    failing: u64,
    notes: &'a mut [u8],
) -> Result<OutFile<MemDisk, &'a mut [u8]>, Fail> {
    let path = Text::from_bytes(alloc, b"out")?;
    Ok(OutFile::new(alloc, make_disk(alloc, failing)?, notes, &path)?)
}

// Puts a piece at the end of what was put.
fn put(alloc: Global, out: &mut OutFile<MemDisk, &mut [u8]>, piece: &[u8]) -> Result<Went, Fail> {
    let done = out.put(&NullStore::new(), piece).is_ok();
    let holds = out.disk().bytes_at(b"out").unwrap_or(&[]);
    Ok((done, Text::from_bytes(alloc, holds)?))
}

#[test]
fn each_put_leaves_all_that_was_put(rt: HostRuntime) -> Result<(), Fail> {
    let mut notes = [0u8; 64];
    let mut out = make_out(rt.alloc(), 64, &mut notes)?;
    let cases: &[(&[u8], &[u8]); 3] = &[
        (b"one\n", b"one\n"),
        (b"", b"one\n"),
        (b"two\n", b"one\ntwo\n"),
    ];
    for (piece, holds) in cases {
        let went = put(rt.alloc(), &mut out, piece)?;
        assert!(rt; is(&went, true, holds));
        assert_eq!(rt; out.bytes(), *holds);
    }
    drop(out);
    assert!(rt; notes.starts_with(b"\0"));
    Ok(())
}

#[test]
fn behind_a_failed_put_each_fails(rt: HostRuntime) -> Result<(), Fail> {
    let mut notes = [0u8; 64];
    let mut out = make_out(rt.alloc(), 1, &mut notes)?;
    let cases: &[(&[u8], bool); 3] = &[(b"one\n", false), (b"two\n", false), (b"", true)];
    for (piece, done) in cases {
        let went = put(rt.alloc(), &mut out, piece)?;
        assert!(rt; is(&went, *done, b""));
    }
    drop(out);
    assert!(rt; notes.starts_with(b"out: in use by another program\n\0"));
    Ok(())
}

// A sink into memory.
fn make_sink(alloc: Global) -> Result<MemSink, Fail> {
    Ok(MemSink::with_capacity(alloc, 8, Vec::new(alloc))?)
}

#[test]
fn one_of_two_sinks_is_put_to(rt: HostRuntime) -> Result<(), Fail> {
    let alloc = rt.alloc();
    let store = NullStore::new();
    let mut first: EitherSink<MemSink, MemSink> = EitherSink::First(make_sink(alloc)?);
    let mut second: EitherSink<MemSink, MemSink> = EitherSink::Second(make_sink(alloc)?);
    assert!(rt; first.put(&store, b"a").is_ok());
    assert!(rt; second.put(&store, b"b").is_ok());
    assert!(rt; matches!(&first, EitherSink::First(sink) if sink.bytes() == b"a".as_slice()));
    assert!(rt; matches!(&second, EitherSink::Second(sink) if sink.bytes() == b"b".as_slice()));
    Ok(())
}

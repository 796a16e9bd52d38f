// A reader as a source, and a writer as a sink.
use cube_edge::{ReaderSource, WriterSink};
use cube_io::{NullStore, Sink, Source};
use std::test::Fail;

#[test]
fn a_reader_is_read_to_its_end(rt: HostRuntime) -> Result<(), Fail> {
    let bytes: &[u8] = b"abcde";
    let mut source = ReaderSource::new(bytes);
    let mut buf = [0u8; 3];
    assert_eq!(rt; source.read(&mut buf), Ok(3));
    assert_eq!(rt; buf.as_slice(), b"abc".as_slice());
    for wanted in [2, 0, 0] {
        assert_eq!(rt; source.read(&mut buf), Ok(wanted));
    }
    Ok(())
}

#[test]
fn a_writer_takes_all_of_a_piece_or_fails(rt: HostRuntime) -> Result<(), Fail> {
    let mut buf = [0u8; 4];
    let store = NullStore::new();
    let mut sink = WriterSink::new(buf.as_mut_slice());
    assert_eq!(rt; sink.put(&store, b""), Ok(()));
    assert_eq!(rt; sink.put(&store, b"abc"), Ok(()));
    assert!(rt; sink.put(&store, b"de").is_err());
    Ok(())
}

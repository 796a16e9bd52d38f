// A sink that is one of two.
ghost use Rattle.cube_edge.specs.Outs.{either_state};

use cube_io::{Failed, Sink, Store};

/// One of two sinks. It tells what that one tells.
#[derive(Drop)]
pub enum EitherSink<A, B> {
    /// The first.
    First(A),
    /// The second.
    Second(B),
}

impl<A: Sink, B: Sink> Sink for EitherSink<A, B> {
    ghost state = { either_state A.state B.state };

    ghost allows = { λ store bytes piece. A.allows store bytes piece × B.allows store bytes piece };

    fn put<S: Store>(&mut self, store: &S, piece: &[u8]) -> Result<(), Failed> {
        match self {
            EitherSink::First(sink) => sink.put(store, piece),
            EitherSink::Second(sink) => sink.put(store, piece),
        }
    }
}

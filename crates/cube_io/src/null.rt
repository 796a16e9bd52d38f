// Objects that keep nothing, tell nothing and never fail.
ghost use Rattle.std.specs.Prelude.{None, ⊤};
ghost use Rattle.std.proofs.Common.{rules};
ghost use Rattle.cube_io.specs.Told.{silent_store, silent_wire};

use crate::{Event, Failed, ReadFault, Sink, Store, Wire};
use cube_model::Text;
use std::alloc::Global;

/// A sink that keeps nothing.
#[derive(Clone, Copy, Debug)]
pub struct NullSink;

impl Sink for NullSink {
    ghost state = { λ _. record { written = None; faults = 0; loose = 0 } };

    ghost allows = { λ store bytes piece. ⊤ };

    fn put<S: Store>(&mut self, _store: &S, _piece: &[u8]) -> Result<(), Failed> {
        Ok(())
    }
}

/// A store whose logs are empty whatever is appended.
#[derive(Drop)]
pub struct NullStore {
    attached: bool,
}

impl NullStore {
    pub fn new() -> NullStore {
        NullStore { attached: false }
    }
}

impl Store for NullStore {
    ghost state = { λ s. silent_store 0 s.attached };

    ghost whole = { λ s k told. Prim.search rules };

    fn attach(&mut self, _name: &Text) -> Result<(), Failed> {
        self.attached = true;
        Ok(())
    }

    fn read_all(&mut self, alloc: Global, _log: u32) -> Result<Text, ReadFault> {
        Ok(Text::new(alloc))
    }

    fn append(&mut self, _log: u32, _piece: &[u8]) -> Result<(), Failed> {
        Ok(())
    }

    fn cut(&mut self, _log: u32, _len: u64) -> Result<(), Failed> {
        Ok(())
    }

    fn sync(&mut self, _log: u32) -> Result<(), Failed> {
        Ok(())
    }
}

/// A wire over which nothing comes.
#[derive(Clone, Copy, Debug)]
pub struct NullWire;

impl Wire for NullWire {
    ghost state = { λ _. silent_wire 0 0 };

    ghost allows = { λ store log. ⊤ };

    fn listen(&mut self, _address: &Text, _idle: u32) -> Result<(), Failed> {
        Ok(())
    }

    fn next<S: Store>(&mut self, _store: &S, _buf: &mut [u8]) -> Result<Event, Failed> {
        Ok(Event::End)
    }

    fn send(&mut self, _c: u32, _piece: &[u8]) -> Result<(), Failed> {
        Ok(())
    }

    fn close(&mut self, _c: u32) {}
}

//! What lies outside the program: sources and sinks of bytes, folders of files, stores of logs, and wires. Each is a
//! trait that counts its faults; what an object holds is told where it can be known.
#![tactic(auto)]

mod desk;
mod faults;
mod folder;
mod mem_store;
mod mem_wire;
mod null;
mod record;
mod scroll;
mod sink;
mod source;
mod store;
mod wire;
mod wire_log;

pub use desk::Desk;
pub use faults::{Failed, ReadFault};
pub use folder::{Folder, MAX_FILE, MemFolder};
pub use mem_store::{Failing, MemStore, Reach};
pub use mem_wire::{FailingSend, MemWire, Play};
pub use null::{NullSink, NullStore, NullWire};
pub use record::{Call, Change, Record, Target};
pub use scroll::{Note, Scroll};
pub use sink::{MemSink, Sink};
pub use source::{MemSource, Source};
pub use store::{SEAL_LOG, Store};
pub use wire::{Event, Wire};

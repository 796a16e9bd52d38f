//! The real objects outside the program: standard input and output, the files of the machine, and its connections. Each
//! counts its errors.
//! What a reader or a writer tells of its bytes is told by the source or the sink over it, what a disk tells of its files by
//! the store over it, and what a shelf tells of its files by the folder over it. The wire tells what its watch tells, over
//! sockets that tell their bytes. The machine's disk, its shelf and its sockets tell nothing.
#![tactic(auto)]

mod disk;
mod either_sink;
mod folder;
mod hub;
mod lines;
mod link;
mod machine;
mod machine_shelf;
mod mem_watch;
mod names;
mod out_file;
mod shelf;
mod sink;
mod sockets;
mod source;
mod store;
mod streams;
mod tcp;
mod typed;
mod waiting;
mod watch;
mod wire;

pub use disk::{Disk, Extent, Trouble};
pub use either_sink::EitherSink;
pub use folder::FileFolder;
pub use machine::MachineDisk;
pub use machine_shelf::MachineShelf;
pub use mem_watch::MemWatch;
pub use out_file::{OutFile, replace_whole};
pub use shelf::Shelf;
pub use sink::WriterSink;
pub use sockets::{Gone, Sockets};
pub use source::ReaderSource;
pub use store::{FileStore, MAX_PATH};
pub use streams::hold_streams;
pub use tcp::TcpSockets;
pub use typed::{MarkingSink, TypedSource};
pub use watch::{NoWatch, Watch};
pub use wire::SocketWire;

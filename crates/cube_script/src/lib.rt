//! A wire that plays a script of connections and keeps its whole log.
#![tactic(auto)]

mod capacity;
mod play;
mod read;
mod render;
mod script_wire;
mod worked;

pub use play::ScriptFault;
pub use script_wire::{MAX_SENDS, MAX_SENT_BYTES, ScriptWire, SendCapacity};
pub use worked::worked_scripts;

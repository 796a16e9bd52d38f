// What a server keeps of its connections.
ghost use Rattle.std.specs.Prelude.{IfOk};
ghost use Rattle.cube_server.specs.Pools.{IsFree};

use crate::lines::Lines;
use cube_model::NoMemory;
use std::alloc::Global;

/// The most bytes of a piece.
const PIECE: usize = 65_536;

/// Room for 64 connections, and for a piece that is read.
#[derive(Drop)]
pub struct Pool {
    pub(crate) lines: Lines,
    pub(crate) buf: Vec<u8>,
}

impl Pool {
    /// A pool with no open connection. It takes all the memory that hearing needs.
    pub fn new(alloc: Global) -> Result<Pool, NoMemory>
        ensures { IfOk result IsFree }
    {
        Ok(Pool {
            lines: Lines::new(alloc)?,
            buf: vec![in alloc; 0u8; PIECE]?,
        })
    }
}

// The errors of a call on something outside.
ghost use Rattle.std.specs.Prelude.{◌≡◌};
ghost use Rattle.cube_io.specs.declared.faults.ReadFault.TheVariants as fault;

use cube_model::NoMemory;

/// The object outside failed, and has counted that.
#[derive(Clone, Copy, Debug, PartialEq, Eq)]
pub struct Failed;

/// Why a file or a log was not read.
#[derive(Clone, Copy, Debug, PartialEq, Eq)]
pub enum ReadFault {
    /// It isn't there or can't be read; this was counted.
    Failed,
    /// It has more bytes than are read: `MAX_FILE` of a file, 2^28 of a log.
    TooLong,
    /// There was no memory for it.
    NoMemory,
}

impl From<NoMemory> for ReadFault {
    ghost from_gives = { λ _ e. e ≡ fault.NoMemory };

    fn from(_error: NoMemory) -> ReadFault {
        ReadFault::NoMemory
    }
}

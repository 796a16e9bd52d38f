// Why a journal is not held by its seal.
ghost use Rattle.std.specs.Prelude.{◌≡◌};
ghost use Rattle.cube_seal.specs.Seals.{of_store};

use cube_io::ReadFault;
use cube_journal::Digest;

/// Why a journal is not held by its seal.
#[derive(Clone, Copy, Debug, PartialEq, Eq)]
pub enum SealFault {
    /// The store failed; this was counted.
    Failed,
    /// There was no memory for the bytes of the log.
    NoMemory,
    /// The log is neither a seal nor the beginning of one.
    Damaged,
    /// The answers are of values that have the digest `kept`, and these have another.
    OtherValues { kept: Digest },
}

/// The fault of a log that was not read.
pub fn of_store(fault: ReadFault) -> SealFault
    ensures { result ≡ of_store fault }
{
    match fault {
        ReadFault::Failed => SealFault::Failed,
        ReadFault::TooLong => SealFault::Damaged,
        ReadFault::NoMemory => SealFault::NoMemory,
    }
}

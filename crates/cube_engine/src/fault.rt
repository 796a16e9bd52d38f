// Why a book did not start.
ghost use Rattle.std.specs.Prelude.{◌≡◌};
ghost use Rattle.cube_engine.specs.Opening.{of_open};

use cube_journal::{Digest, OpenFault};

/// Why a book did not start.
#[derive(Clone, Copy, Debug, PartialEq, Eq)]
pub enum StartFault {
    /// The store failed; this was counted.
    Failed,
    /// The log has more than 2^28 bytes.
    TooLong,
    /// The first line that is none of a journal, by its number from 1.
    Damaged { line: u64 },
    /// The log belongs to a cube whose public text has the digest `kept`, and this one's has `now`.
    OtherCube { kept: Digest, now: Digest },
    /// The first line whose entry may not stand behind those before it.
    Inadmissible { line: u64 },
    /// There was no memory for it.
    NoMemory,
}

/// The fault of a log that was not opened.
pub(crate) fn of_open(fault: OpenFault) -> StartFault
    ensures { result ≡ of_open fault }
{
    match fault {
        OpenFault::Failed => StartFault::Failed,
        OpenFault::TooLong => StartFault::TooLong,
        OpenFault::Damaged { line } => StartFault::Damaged { line },
        OpenFault::OtherCube { kept, now } => StartFault::OtherCube { kept, now },
        OpenFault::NoMemory => StartFault::NoMemory,
    }
}

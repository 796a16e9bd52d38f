// Why a journal was not opened.
ghost use Rattle.std.specs.Prelude.{◌≡◌};
ghost use Rattle.cube_journal.specs.Opening.{of_store, of_journal};

use crate::Digest;
use cube_io::ReadFault;

/// What is wrong with the bytes of a journal.
#[derive(Clone, Copy, Debug, PartialEq, Eq)]
pub enum JournalFault {
    /// The first line that is none of a journal, by its number from 1.
    Damaged { line: u64 },
    /// The log belongs to a cube whose public text has the digest `kept`, and this one's has `now`.
    OtherCube { kept: Digest, now: Digest },
    /// There was no memory for it.
    NoMemory,
}

/// Why a journal was not opened.
#[derive(Clone, Copy, Debug, PartialEq, Eq)]
pub enum OpenFault {
    /// The store failed; this was counted.
    Failed,
    /// The log has more than 2^28 bytes.
    TooLong,
    /// The first line that is none of a journal, by its number from 1.
    Damaged { line: u64 },
    /// The log belongs to a cube whose public text has the digest `kept`, and this one's has `now`.
    OtherCube { kept: Digest, now: Digest },
    /// There was no memory for it.
    NoMemory,
}

/// The fault of a log that was not read.
pub fn of_store(fault: ReadFault) -> OpenFault
    ensures { result ≡ of_store fault }
{
    match fault {
        ReadFault::Failed => OpenFault::Failed,
        ReadFault::TooLong => OpenFault::TooLong,
        ReadFault::NoMemory => OpenFault::NoMemory,
    }
}

/// The fault of bytes that are no journal of this cube.
pub fn of_journal(fault: JournalFault) -> OpenFault
    ensures { result ≡ of_journal fault }
{
    match fault {
        JournalFault::Damaged { line } => OpenFault::Damaged { line },
        JournalFault::OtherCube { kept, now } => OpenFault::OtherCube { kept, now },
        JournalFault::NoMemory => OpenFault::NoMemory,
    }
}

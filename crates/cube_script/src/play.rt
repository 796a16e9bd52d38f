// The events of a script, and why a script is refused.
ghost use Rattle.std.specs.Prelude.{◌≡◌};
ghost use Rattle.cube_script.specs.declared.play.ScriptFault.TheVariants as fault;

use cube_model::{NoMemory, Text};
use std::alloc::{AllocError, AllocFailed};

/// An event that a script names.
#[derive(Debug, Drop)]
pub(crate) enum Play {
    /// A connection is opened.
    Opened(u32),
    /// Bytes come, from 1 to 65,536 of them.
    Came(u32, Text),
    /// The other side closes it.
    Closed(u32),
    /// Nothing more comes.
    End,
}

/// Why a script makes no wire.
#[derive(Clone, Copy, Debug, PartialEq, Eq)]
pub enum ScriptFault {
    /// The first line, counted from 1, that names no event, or that no line feed ends.
    Line { line: u64 },
    /// Memory ran out.
    NoMemory,
}

impl From<NoMemory> for ScriptFault {
    ghost from_gives = { λ _ r. r ≡ fault.NoMemory };

    fn from(_error: NoMemory) -> ScriptFault {
        ScriptFault::NoMemory
    }
}

impl From<AllocError> for ScriptFault {
    ghost from_gives = { λ _ r. r ≡ fault.NoMemory };

    fn from(_error: AllocError) -> ScriptFault {
        ScriptFault::NoMemory
    }
}

impl<T: Drop> From<AllocFailed<T>> for ScriptFault {
    ghost from_gives = { λ _ r. r ≡ fault.NoMemory };

    fn from(_error: AllocFailed<T>) -> ScriptFault {
        ScriptFault::NoMemory
    }
}

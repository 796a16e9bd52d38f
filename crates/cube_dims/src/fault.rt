// What is wrong with a dimension file.
ghost use Rattle.std.specs.Prelude.{◌≡◌, ◌++◌, IfOk};
ghost use Rattle.cube_dims.specs.Words.{fault_words};
ghost use Rattle.cube_dims.specs.declared.fault.DimsFault.TheVariants as fault;

use cube_model::{LimitKind, NoMemory, Text};
use cube_tables::TableFault;
use std::alloc::Global;

/// The first fault of a dimension file.
///
/// A key is a table's name, its number from 1, the key, and for an item of an array its number
/// from 1, as `dimension 2 paths 3`.
#[derive(Drop)]
pub enum DimsFault {
    /// The bytes are no TOML document.
    NotToml,
    /// A key that has to be there is not, or its array is empty.
    Missing { key: Text },
    /// A value is of another kind.
    WrongKind { key: Text },
    /// A text is no name.
    BadName { key: Text },
    /// A name or a column stands again.
    NameTwice { key: Text },
    /// A leaf stands again.
    LeafTwice { key: Text },
    /// A member has another parent than before.
    TwoParents { key: Text },
    /// A path has more or fewer names than there are levels.
    Uneven { key: Text },
    /// There is more of something than is taken.
    Limit { which: LimitKind, number: u64 },
    /// Memory ran out.
    NoMemory,
}

impl From<NoMemory> for DimsFault {
    ghost from_gives = { λ _ e. e ≡ fault.NoMemory };

    fn from(_error: NoMemory) -> DimsFault {
        DimsFault::NoMemory
    }
}

impl TableFault for DimsFault {
    ghost missing = { λ key. fault.Missing key };

    ghost wrong_kind = { λ key. fault.WrongKind key };

    ghost no_memory = { fault.NoMemory };

    fn is_missing(key: Text) -> DimsFault {
        DimsFault::Missing { key }
    }

    fn is_wrong_kind(key: Text) -> DimsFault {
        DimsFault::WrongKind { key }
    }

    fn out_of_memory() -> DimsFault {
        DimsFault::NoMemory
    }
}

/// Some words, and a key behind them.
fn with_key(alloc: Global, words: &[u8], key: &Text) -> Result<Text, NoMemory>
    ensures { IfOk result (λ text. text ≡ words.now ++ key.now) }
{
    let mut text = Text::from_bytes(alloc, words)?;
    text.extend(key.as_slice())?;
    Ok(text)
}

/// The words of a fault, as `leaf twice dimension 1 paths 2`.
pub fn fault_text(alloc: Global, fault: &DimsFault) -> Result<Text, NoMemory>
    ensures { IfOk result (λ text. text ≡ fault_words fault.now) }
{
    match fault {
        DimsFault::NotToml => Text::from_bytes(alloc, b"not toml"),
        DimsFault::Missing { key } => with_key(alloc, b"missing ", key),
        DimsFault::WrongKind { key } => with_key(alloc, b"wrong kind ", key),
        DimsFault::BadName { key } => with_key(alloc, b"bad name ", key),
        DimsFault::NameTwice { key } => with_key(alloc, b"name twice ", key),
        DimsFault::LeafTwice { key } => with_key(alloc, b"leaf twice ", key),
        DimsFault::TwoParents { key } => with_key(alloc, b"two parents ", key),
        DimsFault::Uneven { key } => with_key(alloc, b"uneven ", key),
        DimsFault::Limit { which, number } => which.text(alloc, *number),
        DimsFault::NoMemory => Text::from_bytes(alloc, b"no memory"),
    }
}

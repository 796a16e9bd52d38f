// What is wrong with a policy file.
ghost use Rattle.std.specs.Prelude.{◌≡◌, ◌++◌, codes, decimal, IfOk};
ghost use Rattle.cube_policy.specs.Words.{fault_words};
ghost use Rattle.cube_policy.specs.declared.fault.PolicyFault.TheVariants as fault;

use cube_model::{LimitKind, NoMemory, Text};
use cube_tables::TableFault;
use std::alloc::Global;

/// The first fault of a policy file.
///
/// A key is a table's name, its number from 1 and the keys that lead to what is at fault, and for
/// an item of an array its number from 1, as `object 2 slice region members 3`.
#[derive(Drop)]
pub enum PolicyFault {
    /// The bytes are no TOML document.
    NotToml,
    /// A key that has to be there is not, or its array is empty; or a measure has no method, and
    /// the key is its name.
    Missing { key: Text },
    /// A value is of another kind.
    WrongKind { key: Text },
    /// A key, or the name that stands there, is none of those that are known.
    Unknown { key: Text },
    /// The method of a measure is stated again.
    MeasureTwice { key: Text },
    /// An object is on an open measure, or on one under the parity rule above the finest levels.
    ObjectOnMethod { key: Text },
    /// A number is too small or above the most that it may be.
    OutOfRange { key: Text, most: u64 },
    /// There is more of something than is taken.
    Limit { which: LimitKind, number: u64 },
    /// Memory ran out.
    NoMemory,
}

impl From<NoMemory> for PolicyFault {
    ghost from_gives = { λ _ e. e ≡ fault.NoMemory };

    fn from(_error: NoMemory) -> PolicyFault {
        PolicyFault::NoMemory
    }
}

impl TableFault for PolicyFault {
    ghost missing = { λ key. fault.Missing key };

    ghost wrong_kind = { λ key. fault.WrongKind key };

    ghost no_memory = { fault.NoMemory };

    fn is_missing(key: Text) -> PolicyFault {
        PolicyFault::Missing { key }
    }

    fn is_wrong_kind(key: Text) -> PolicyFault {
        PolicyFault::WrongKind { key }
    }

    fn out_of_memory() -> PolicyFault {
        PolicyFault::NoMemory
    }
}

/// Some words, and a key behind them.
fn with_key(alloc: Global, words: &[u8], key: &Text) -> Result<Text, NoMemory>
    ensures { IfOk result (λ text. text ≡ words.now ++ key.now) }
{
    let mut text = Text::from_bytes(alloc, words)?;
    text.extend(key.as_slice())?;
    Ok(text)
}

/// The words of a number that is not in its range, as `limit object 1 fewer 1000`.
fn range_text(alloc: Global, key: &Text, most: u64) -> Result<Text, NoMemory>
    ensures { IfOk result (λ text. text ≡ codes "limit " ++ key.now ++ codes " " ++ decimal most) }
{
    let mut text = with_key(alloc, b"limit ", key)?;
    text.extend(b" ")?;
    text.push_number(most)?;
    Ok(text)
}

/// The words of a fault, as `unknown object 1 below region`.
pub fn fault_text(alloc: Global, fault: &PolicyFault) -> Result<Text, NoMemory>
    ensures { IfOk result (λ text. text ≡ fault_words fault.now) }
{
    match fault {
        PolicyFault::NotToml => Text::from_bytes(alloc, b"not toml"),
        PolicyFault::Missing { key } => with_key(alloc, b"missing ", key),
        PolicyFault::WrongKind { key } => with_key(alloc, b"wrong kind ", key),
        PolicyFault::Unknown { key } => with_key(alloc, b"unknown ", key),
        PolicyFault::MeasureTwice { key } => with_key(alloc, b"measure twice ", key),
        PolicyFault::ObjectOnMethod { key } => with_key(alloc, b"object on method ", key),
        PolicyFault::OutOfRange { key, most } => range_text(alloc, key, *most),
        PolicyFault::Limit { which, number } => which.text(alloc, *number),
        PolicyFault::NoMemory => Text::from_bytes(alloc, b"no memory"),
    }
}

// What is wrong with a groups file.
ghost use Rattle.std.specs.Prelude.{◌≡◌, ◌++◌, IfOk};
ghost use Rattle.cube_groups.specs.Words.{limit_words, fault_words};
ghost use Rattle.cube_groups.specs.declared.fault.GroupsFault.TheVariants as fault;

use cube_model::{NoMemory, Text};
use cube_tables::TableFault;
use std::alloc::Global;

/// The first fault of a groups file.
///
/// A key is `group`, or a group's number from 1 behind it and the key that is at fault, as
/// `group 2 name`.
#[derive(Drop)]
pub enum GroupsFault {
    /// The bytes are no TOML document.
    NotToml,
    /// A key that has to be there is not, or its array is empty.
    Missing { key: Text },
    /// A value is of another kind.
    WrongKind { key: Text },
    /// A text is no name of a group.
    BadName { key: Text },
    /// A group has the name of an earlier one.
    NameTwice { key: Text },
    /// There are more groups than are taken.
    Limit { number: u64 },
    /// Memory ran out.
    NoMemory,
}

impl From<NoMemory> for GroupsFault {
    ghost from_gives = { λ _ e. e ≡ fault.NoMemory };

    fn from(_error: NoMemory) -> GroupsFault {
        GroupsFault::NoMemory
    }
}

impl TableFault for GroupsFault {
    ghost missing = { λ key. fault.Missing key };

    ghost wrong_kind = { λ key. fault.WrongKind key };

    ghost no_memory = { fault.NoMemory };

    fn is_missing(key: Text) -> GroupsFault {
        GroupsFault::Missing { key }
    }

    fn is_wrong_kind(key: Text) -> GroupsFault {
        GroupsFault::WrongKind { key }
    }

    fn out_of_memory() -> GroupsFault {
        GroupsFault::NoMemory
    }
}

/// Some words, and a key behind them.
fn with_key(alloc: Global, words: &[u8], key: &Text) -> Result<Text, NoMemory>
    ensures { IfOk result (λ text. text ≡ words.now ++ key.now) }
{
    let mut text = Text::from_bytes(alloc, words)?;
    text.extend(key.as_slice())?;
    Ok(text)
}

/// The words of a limit of groups.
fn limit_text(alloc: Global, number: u64) -> Result<Text, NoMemory>
    ensures { IfOk result (λ text. text ≡ limit_words number) }
{
    let mut text = Text::from_bytes(alloc, b"limit groups ")?;
    text.push_number(number)?;
    Ok(text)
}

/// The words of a fault, as `name twice group 2 name`.
pub fn fault_text(alloc: Global, fault: &GroupsFault) -> Result<Text, NoMemory>
    ensures { IfOk result (λ text. text ≡ fault_words fault.now) }
{
    match fault {
        GroupsFault::NotToml => Text::from_bytes(alloc, b"not toml"),
        GroupsFault::Missing { key } => with_key(alloc, b"missing ", key),
        GroupsFault::WrongKind { key } => with_key(alloc, b"wrong kind ", key),
        GroupsFault::BadName { key } => with_key(alloc, b"bad name ", key),
        GroupsFault::NameTwice { key } => with_key(alloc, b"name twice ", key),
        GroupsFault::Limit { number } => limit_text(alloc, *number),
        GroupsFault::NoMemory => Text::from_bytes(alloc, b"no memory"),
    }
}

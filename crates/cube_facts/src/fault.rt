// Why a fact file is refused.
ghost use Rattle.std.specs.Prelude.{◌≡◌, ◌++◌, codes, decimal, IfOk};
ghost use Rattle.cube_facts.specs.declared.fault.FactsFault.TheVariants as fault;
ghost use Rattle.cube_facts.specs.Words.{unit_words as words_of_units, at_field as field_words, fault_words};

use cube_model::{LimitKind, NoMemory, Text};
use cube_text::UnitFault;
use std::alloc::{AllocError, AllocFailed, Global};

/// Why a fact file is refused. Rows are counted from 1 behind the header.
#[derive(Debug, Drop)]
pub enum FactsFault {
    NoHeader,
    MissingColumn {
        name: Text,
    },
    ColumnTwice {
        name: Text,
    },
    /// A record of another length than the header.
    Fields {
        row: u64,
    },
    UnknownMember {
        row: u64,
        column: Text,
    },
    BadValue {
        row: u64,
        column: Text,
        cause: UnitFault,
    },
    Limit {
        which: LimitKind,
        number: u64,
    },
    NoMemory,
}

impl From<NoMemory> for FactsFault {
    ghost from_gives = { λ _ e. e ≡ fault.NoMemory };

    fn from(_error: NoMemory) -> FactsFault {
        FactsFault::NoMemory
    }
}

impl From<AllocError> for FactsFault {
    ghost from_gives = { λ _ e. e ≡ fault.NoMemory };

    fn from(_error: AllocError) -> FactsFault {
        FactsFault::NoMemory
    }
}

impl<T: Drop> From<AllocFailed<T>> for FactsFault {
    ghost from_gives = { λ _ e. e ≡ fault.NoMemory };

    fn from(_error: AllocFailed<T>) -> FactsFault {
        FactsFault::NoMemory
    }
}

fn unit_words(cause: UnitFault) -> &'static [u8]
    ensures { result.now ≡ words_of_units cause }
{
    match cause {
        UnitFault::Syntax => b"not a number",
        UnitFault::TooFine => b"too fine",
        UnitFault::TooLarge => b"too large",
    }
}

// The words of a fault behind the field that it is in.
fn at_field(alloc: Global, row: u64, column: &Text, words: &[u8]) -> Result<Text, NoMemory>
    ensures { IfOk result (λ text. text ≡ field_words row column.now ++ words.now) }
{
    let mut text = Text::from_bytes(alloc, b"row ")?;
    text.push_number(row)?;
    text.extend(b" column ")?;
    text.extend(column.as_slice())?;
    text.extend(b": ")?;
    text.extend(words)?;
    Ok(text)
}

// Words around one that the file gave.
fn around(alloc: Global, before: &[u8], word: &Text, behind: &[u8]) -> Result<Text, NoMemory>
    ensures { IfOk result (λ text. text ≡ before.now ++ word.now ++ behind.now) }
{
    let mut text = Text::from_bytes(alloc, before)?;
    text.extend(word.as_slice())?;
    text.extend(behind)?;
    Ok(text)
}

fn fields_text(alloc: Global, row: u64) -> Result<Text, NoMemory>
    ensures { IfOk result (λ text. text ≡ codes "row " ++ decimal row ++ codes " fields") }
{
    let mut text = Text::from_bytes(alloc, b"row ")?;
    text.push_number(row)?;
    text.extend(b" fields")?;
    Ok(text)
}

/// The words of a fault, as `row 2 column pay: too fine`.
pub fn fault_text(alloc: Global, fault: &FactsFault) -> Result<Text, NoMemory>
    ensures { IfOk result (λ text. text ≡ fault_words fault.now) }
{
    match fault {
        FactsFault::NoHeader => Text::from_bytes(alloc, b"no header"),
        FactsFault::MissingColumn { name } => around(alloc, b"missing column ", name, b""),
        FactsFault::ColumnTwice { name } => around(alloc, b"column ", name, b" twice"),
        FactsFault::Fields { row } => fields_text(alloc, *row),
        FactsFault::UnknownMember { row, column } => {
            at_field(alloc, *row, column, b"unknown member")
        }
        FactsFault::BadValue { row, column, cause } => {
            at_field(alloc, *row, column, unit_words(*cause))
        }
        FactsFault::Limit { which, number } => which.text(alloc, *number),
        FactsFault::NoMemory => Text::from_bytes(alloc, b"no memory"),
    }
}

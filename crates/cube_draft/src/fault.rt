// Why nothing can be drafted.
ghost use Rattle.std.specs.Prelude.{◌≡◌, ◌++◌, codes, decimal, IfOk};
ghost use Rattle.cube_draft.specs.Words.{limit_words, fault_words};
ghost use Rattle.cube_draft.specs.declared.fault.DraftFault.TheVariants as fault;

use cube_dims::DimsFault;
use cube_facts::FactsFault;
use cube_model::{LimitKind, NoMemory, Text};
use cube_policy::PolicyFault;
use std::alloc::{AllocError, AllocFailed, Global};

/// Why nothing can be drafted for a fact file. Rows and columns are counted from 1.
#[derive(Drop)]
pub enum DraftFault {
    /// There is no record behind the header.
    NoRecord,
    /// No column has members.
    NoDimension,
    /// No column has numbers alone.
    NoMeasure,
    /// The file has more columns than dimensions and measures can have together.
    Columns { number: u64 },
    /// The name of a column cannot be one.
    BadColumn { number: u64 },
    /// Two columns of the file have one name.
    ColumnTwice { name: Text },
    /// A column is stated that the file has not.
    UnknownColumn { name: Text },
    /// A column is stated a second time.
    StatedTwice { name: Text },
    /// A field cannot be the name of a member.
    BadMember { row: u64, column: Text },
    /// A member of a column stands with two members of the next column of its dimension.
    TwoParents { column: Text },
    /// A column would be a dimension's finest level with more members than there may be leaves.
    Leaves { column: Text },
    /// More is found than a cube may have.
    Limit { which: LimitKind, number: u64 },
    /// The fact file is refused under the draft.
    Facts { fault: FactsFault },
    /// The draft is refused as a dimension file.
    Dims { fault: DimsFault },
    /// The draft is refused as a policy file.
    Policy { fault: PolicyFault },
    /// Some record has none of the paths that were drafted. That this never comes is not shown.
    Untrue,
    /// Memory ran out.
    NoMemory,
}

impl From<NoMemory> for DraftFault {
    ghost from_gives = { λ _ e. e ≡ fault.NoMemory };

    fn from(_error: NoMemory) -> DraftFault {
        DraftFault::NoMemory
    }
}

impl From<AllocError> for DraftFault {
    ghost from_gives = { λ _ e. e ≡ fault.NoMemory };

    fn from(_error: AllocError) -> DraftFault {
        DraftFault::NoMemory
    }
}

impl<T: Drop> From<AllocFailed<T>> for DraftFault {
    ghost from_gives = { λ _ e. e ≡ fault.NoMemory };

    fn from(_error: AllocFailed<T>) -> DraftFault {
        DraftFault::NoMemory
    }
}

/// Some words, a name behind them, and words again.
fn around(alloc: Global, before: &[u8], name: &Text, behind: &[u8]) -> Result<Text, NoMemory>
    ensures { IfOk result (λ text. text ≡ before.now ++ name.now ++ behind.now) }
{
    let mut text = Text::from_bytes(alloc, before)?;
    text.extend(name.as_slice())?;
    text.extend(behind)?;
    Ok(text)
}

fn with_number(alloc: Global, before: &[u8], number: u64) -> Result<Text, NoMemory>
    ensures { IfOk result (λ text. text ≡ before.now ++ decimal number) }
{
    let mut text = Text::from_bytes(alloc, before)?;
    text.push_number(number)?;
    Ok(text)
}

fn bad_member_text(alloc: Global, row: u64, column: &Text) -> Result<Text, NoMemory>
    ensures { IfOk result (λ text. text ≡ codes "row " ++ decimal row ++ codes " column " ++ column.now ++ codes ": bad name") }
{
    let mut text = with_number(alloc, b"row ", row)?;
    text.extend(b" column ")?;
    text.extend(column.as_slice())?;
    text.extend(b": bad name")?;
    Ok(text)
}

fn limit_text(alloc: Global, which: LimitKind, number: u64) -> Result<Text, NoMemory>
    ensures { IfOk result (λ text. text ≡ limit_words which number) }
{
    let mut text = which.text(alloc, number)?;
    if which == LimitKind::Cuboids {
        text.extend(b", fewer upper levels would do")?;
    }
    Ok(text)
}

/// The words of a fault, as `column branch twice`.
pub fn fault_text(alloc: Global, fault: &DraftFault) -> Result<Text, NoMemory>
    ensures { IfOk result (λ text. text ≡ fault_words fault.now) }
{
    match fault {
        DraftFault::NoRecord => Text::from_bytes(alloc, b"no record"),
        DraftFault::NoDimension => Text::from_bytes(alloc, b"no dimension column"),
        DraftFault::NoMeasure => Text::from_bytes(alloc, b"no measure column"),
        DraftFault::Columns { number } => with_number(alloc, b"limit columns ", *number),
        DraftFault::BadColumn { number } => with_number(alloc, b"bad name column ", *number),
        DraftFault::ColumnTwice { name } => around(alloc, b"column ", name, b" twice"),
        DraftFault::UnknownColumn { name } => around(alloc, b"missing column ", name, b""),
        DraftFault::StatedTwice { name } => around(alloc, b"column ", name, b" stated twice"),
        DraftFault::BadMember { row, column } => bad_member_text(alloc, *row, column),
        DraftFault::TwoParents { column } => around(alloc, b"two parents column ", column, b""),
        DraftFault::Leaves { column } => {
            around(alloc, b"limit leaves 65536 column ", column, b"")
        }
        DraftFault::Limit { which, number } => limit_text(alloc, *which, *number),
        DraftFault::Facts { fault } => cube_facts::fault_text(alloc, fault),
        DraftFault::Dims { fault } => with_words(
            alloc,
            b"dims: ",
            cube_dims::fault_text(alloc, fault)?,
        ),
        DraftFault::Policy { fault } => {
            with_words(alloc, b"policy: ", cube_policy::fault_text(alloc, fault)?)
        }
        DraftFault::Untrue => Text::from_bytes(alloc, b"untrue"),
        DraftFault::NoMemory => Text::from_bytes(alloc, b"no memory"),
    }
}

fn with_words(alloc: Global, before: &[u8], words: Text) -> Result<Text, NoMemory>
    ensures { IfOk result (λ text. text ≡ before.now ++ words) }
{
    around(alloc, before, &words, b"")
}

// What a query text says.
ghost use Rattle.std.specs.Prelude.{◌≡◌};
ghost use Rattle.cube_query.specs.declared.query.QueryFault.TheVariants as fault;

use cube_model::{Items, NoMemory, Text};

/// A name in a query text, and the byte at which it begins: in quotes, the byte of its opening quote.
#[derive(Drop)]
pub struct Name {
    pub text: Text,
    pub at: u64,
}

/// A level, named by its dimension and its own name.
#[derive(Drop)]
pub struct LevelName {
    pub dimension: Name,
    pub level: Name,
}

/// A pick, named by its level and its first and last member, which are equal where one member is fixed.
#[derive(Drop)]
pub struct PickName {
    pub level: LevelName,
    pub first: Name,
    pub last: Name,
}

/// What a query text says: what is asked, the grouping levels and the picks, in the order of the text.
#[derive(Drop)]
pub struct Query {
    pub what: Name,
    pub by: Items<LevelName>,
    pub picks: Items<PickName>,
}

/// Why a text is no query.
#[derive(Clone, Copy, Debug, PartialEq, Eq)]
pub enum QueryFault {
    /// The text stops being the front of a query here: so many bytes begin some query text, and no longer front does.
    Syntax { at: u64 },
    NoMemory,
}

impl From<NoMemory> for QueryFault {
    ghost from_gives = { λ _ e. e ≡ fault.NoMemory };

    fn from(_error: NoMemory) -> QueryFault {
        QueryFault::NoMemory
    }
}

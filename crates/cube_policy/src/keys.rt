// The keys that a table may have.
ghost use Rattle.std.specs.Prelude.{◌≡◌, [], map, IfOk};
ghost use Rattle.std.specs.List.{list_any};
ghost use Rattle.std.specs.Str.{bytes_eq};
ghost use Rattle.toml.specs.View.{table_view};
ghost use Rattle.cube_model.specs.Answers.{Answers};
ghost use Rattle.cube_model.specs.Checks.{in_turn, unless};
ghost use Rattle.cube_tables.specs.Members.{named};
ghost use Rattle.cube_policy.specs.KnownKeys.{known_keys};
ghost use Rattle.cube_policy.specs.PolicyFile.{key_in, unknown_key, unknown_keys};
ghost use Rattle.cube_policy.specs.declared.fault.PolicyFault.TheVariants as fault;

use crate::fault::PolicyFault;
use cube_model::{NoMemory, Text};
use cube_tables::{Member, key_text, members_of};
use std::alloc::Global;
use toml::Table;

/// A kind of table in a policy file.
#[derive(Clone, Copy)]
pub(crate) enum Kind {
    /// The file itself.
    File,
    /// The table of a measure.
    Measure,
    /// The table of an object.
    Object,
    /// The table of a dimension in a slice.
    Within,
}

impl Kind {
    /// Whether such a table may have the key.
    fn knows(self, key: &[u8]) -> bool
        ensures { result ≡ list_any (bytes_eq key.now) (known_keys self) }
    {
        match self {
            Kind::File => key == b"measure".as_slice() || key == b"object".as_slice(),
            Kind::Measure => key == b"name".as_slice() || key == b"method".as_slice(),
            Kind::Object => {
                key == b"measure".as_slice()
                    || key == b"below".as_slice()
                    || key == b"slice".as_slice()
                    || key == b"fewer".as_slice()
            }
            Kind::Within => key == b"level".as_slice() || key == b"members".as_slice(),
        }
    }
}

/// The key of a value in a table, or in the file itself, which has no key.
fn key_in(alloc: Global, entry: &Text, key: &[u8]) -> Result<Text, NoMemory>
    ensures { IfOk result (λ text. text ≡ key_in entry.now key.now) }
{
    match entry.as_slice() {
        [] => Text::from_bytes(alloc, key),
        [_, ..] => key_text(alloc, entry, key),
    }
}

/// Checks that such a table may have the keys of these members.
fn check_members(
    alloc: Global,
    entry: &Text,
    kind: Kind,
    members: &[Member],
) -> Result<(), PolicyFault>
    ensures { Answers fault.NoMemory result (unless (in_turn (unknown_key entry.now (known_keys kind)) [] (map named members.now)) tt) }
{
    for member in members {
        if !kind.knows(member.key) {
            return Err(PolicyFault::Unknown {
                key: key_in(alloc, entry, member.key)?,
            });
        }
    }
    Ok(())
}

/// Checks that a table has no key but those that such a table may have.
pub(crate) fn check_keys(
    alloc: Global,
    entry: &Text,
    kind: Kind,
    table: &Table,
) -> Result<(), PolicyFault>
    ensures { Answers fault.NoMemory result (unless (unknown_keys entry.now (known_keys kind) (table_view table.now)) tt) }
{
    check_members(alloc, entry, kind, members_of(alloc, table)?.as_slice())
}

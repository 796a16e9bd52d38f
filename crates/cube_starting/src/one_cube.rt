// The journal of one cube: its users are the one group without a name.
ghost use Rattle.std.specs.Prelude.{◌≡◌, ◌⊎◌, ◌++◌, ◌∷◌, [], IsTrue, IfOk, IfErr, OnOk};
ghost use Rattle.cube_model.specs.Cubes.{Each};
ghost use Rattle.cube_model.specs.Policies.{IsPolicy};
ghost use Rattle.cube_io.specs.Seen.{seen};
ghost use Rattle.cube_starting.specs.Grouping.{AreHeld, EndsAtJournals, OpensFew};
ghost use Rattle.cube_starting.specs.NamedBooks.{IsKeptIn};
ghost use Rattle.cube_starting.specs.OneCube.{under as ruled_by, IsBegun, IsBegunAlone, Recovers};
ghost use Rattle.cube_starting.specs.Starting.{AsksStore, IsCalm};

use crate::Groups;
use crate::gathering::open_groups;
use cube_engine::Book;
use cube_io::Store;
use cube_model::{Items, NoMemory, Policy, Text};
use cube_opening::{Guarded, Message, Opened, Report, Ruled, RuledGroup, RuledGroups, statuses};
use std::alloc::Global;

// The group of all users, who are under one policy.
fn under(alloc: Global, policy: Policy) -> Result<RuledGroups, NoMemory>
    ensures are { IfOk result (λ groups. groups ≡ ruled_by policy) }
{
    let mut groups = Items::new(alloc);
    groups.push(RuledGroup {
        name: Text::new(alloc),
        policy,
    })?;
    Ok(groups)
}

/// Attaches a store by its name, starts a book over its log 0 for all users, and holds that by a seal of the values, which is compared
/// first.
pub fn open_alone<S: Store>(
    alloc: Global,
    message: Message,
    guarded: Guarded,
    name: &Text,
    stated: u64,
    store: &mut S,
) -> Result<Opened<Groups>, Report>
    requires message { message ≡ [] }
    requires policy { IsPolicy guarded.core.dims guarded.policy }
    ensures message { IfOk result (λ opened. opened.message ≡ []) }
    ensures begun { IfOk result (λ opened. IsBegunAlone guarded.core guarded.policy stated (seen S.state store.old store.new) opened.value) }
    ensures held { OnOk result (AreHeld guarded.core (ruled_by guarded.policy) (seen S.state store.old store.new)) }
    ensures attached { OnOk result (IsTrue (S.state store.new).attached) }
    ensures kept { IsTrue (S.state store.old).told → IfOk result (λ opened. Each (IsKeptIn (S.state store.new).logs) opened.value.books) }
    ensures err { IfErr result (EndsAtJournals guarded.core (ruled_by guarded.policy) (seen S.state store.old store.new)) }
    ensures steady { OnOk result (IsCalm (seen S.state store.old store.new)) }
    ensures passed { Recovers guarded.core guarded.policy (seen S.state store.old store.new) }
    ensures names { OnOk result (IsTrue (S.state store.old).told → (S.state store.new).names ≡ (S.state store.old).names ++ name.now ∷ []) }
    ensures names_err { IfErr result (λ r. (store.new ≡ store.old) ⊎ AsksStore name.now (seen S.state store.old store.new) r) }
    ensures opens { OpensFew 1 (seen S.state store.old store.new) }
{
    let Guarded { core, policy } = guarded;
    let Ok(groups) = under(alloc, policy) else {
        return Err(
            message
                .with(b"no memory\n")
                .close(alloc, statuses::NO_MEMORY),
        );
    };
    match open_groups(alloc, message, Ruled { core, groups }, name, stated, store) {
        Ok(opened) => {
            let _order = opened.value.len();
            Ok(opened)
        }
        Err(report) => Err(report),
    }
}

/// The same of a cube that is asked nothing, as its book.
pub fn open_book<S: Store>(
    alloc: Global,
    message: Message,
    guarded: Guarded,
    name: &Text,
    store: &mut S,
) -> Result<Opened<Book>, Report>
    requires message { message ≡ [] }
    requires policy { IsPolicy guarded.core.dims guarded.policy }
    ensures message { IfOk result (λ opened. opened.message ≡ []) }
    ensures begun { IfOk result (λ opened. IsBegun guarded.core guarded.policy (seen S.state store.old store.new) opened.value) }
    ensures held { OnOk result (AreHeld guarded.core (ruled_by guarded.policy) (seen S.state store.old store.new)) }
    ensures err { IfErr result (EndsAtJournals guarded.core (ruled_by guarded.policy) (seen S.state store.old store.new)) }
    ensures steady { OnOk result (IsCalm (seen S.state store.old store.new)) }
    ensures passed { Recovers guarded.core guarded.policy (seen S.state store.old store.new) }
    ensures names { OnOk result (IsTrue (S.state store.old).told → (S.state store.new).names ≡ (S.state store.old).names ++ name.now ∷ []) }
    ensures names_err { IfErr result (λ r. (store.new ≡ store.old) ⊎ AsksStore name.now (seen S.state store.old store.new) r) }
    ensures opens { OpensFew 1 (seen S.state store.old store.new) }
{
    match open_alone(alloc, message, guarded, name, 0, store) {
        Ok(opened) => Ok(Opened {
            message: opened.message,
            value: opened.value.only(),
        }),
        Err(report) => Err(report),
    }
}

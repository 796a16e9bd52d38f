// The journals of groups: the store is attached, each seal is compared, a book starts over the log of each group, and each seal is held.
ghost use Rattle.std.specs.Prelude.{◌≡◌, ◌<◌, ◌≤◌, ◌+◌, ◌*◌, ◌++◌, ◌∷◌, [], List, length, map, IsTrue, IfOk, IfErr, OnOk};
ghost use Rattle.cube_model.specs.Cubes.{Each};
ghost use Rattle.cube_model.specs.Policies.{IsPolicy};
ghost use Rattle.cube_engine.specs.Worlds.{IsRuled};
ghost use Rattle.cube_groups.specs.Rules.{AreNew};
ghost use Rattle.cube_io.specs.Seen.{seen};
ghost use Rattle.cube_io.specs.Told.{SameLogs};
ghost use Rattle.cube_opening.specs.Ruling.{AreGroups};
ghost use Rattle.cube_opening.specs.declared.ruling.RuledGroup.{RuledGroup};
ghost use Rattle.cube_seal.specs.Values.{digest_of_values as digest_in};
ghost use Rattle.cube_starting.specs.Grouping.{journal_of, AllAgree, AllRecover, AreComparedFirst, AreHeld, AreStarted, EndsAtJournals, EndsAtSeals, Gathers, OnlyFrom, OpensFew, RestUnstarted, UnstartedGroups};
ghost use Rattle.cube_starting.specs.NamedBooks.{IsKeptIn};
ghost use Rattle.cube_starting.specs.Starting.{AsksStore, IsCalm};
ghost use Rattle.cube_starting.specs.declared.named.NamedBook.{NamedBook};

use crate::Groups;
use crate::sealing::{compare_all, hold_all};
use crate::starting::{attach_store, refuse_journal};
use cube_engine::SharedCore;
use cube_io::Store;
use cube_journal::Digest;
use cube_model::{Items, NoMemory, Text};
use cube_opening::{
    Message, Opened, Report, Ruled, RuledGroup, RuledGroups, called, no_message, statuses,
};
use cube_seal::digest_of_values;
use std::alloc::Global;

// Adds a group, with the history that the next log recovers.
fn add_group<S: Store>(
    alloc: Global,
    message: Message,
    core: &SharedCore,
    group: RuledGroup,
    store: &mut S,
    groups: Groups,
) -> Result<Opened<Groups>, Report>
    requires message { message ≡ [] }
    requires few { length groups.books < 16 }
    requires short { length group.name ≤ 32 }
    requires new { AreNew (map (λ (b : NamedBook). b.name) groups.books) (group.name ∷ []) }
    requires alike { Each (λ b. b.book.core.dims ≡ core.now.dims) groups.books }
    requires policy { IsPolicy core.now.dims group.policy }
    requires attached { IsTrue (S.state store.old).attached }
    requires kept { IsTrue (S.state store.old).told → Each (IsKeptIn (S.state store.old).logs) groups.books }
    ensures message { IfOk result (λ opened. opened.message ≡ []) }
    ensures ok { IfOk result (λ opened. (more : List NamedBook) × (opened.value.books ≡ groups.books ++ more) × AreStarted core.now (seen S.state store.old store.new) (length groups.books) (group ∷ []) more) }
    ensures outcomes { IfOk result (λ opened. (opened.value.outcomes ≡ groups.outcomes) × (opened.value.left ≡ groups.left)) }
    ensures kept { IsTrue (S.state store.old).told → IfOk result (λ opened. Each (IsKeptIn (S.state store.new).logs) opened.value.books) }
    ensures err { IfErr result (RestUnstarted core.now (length groups.books) (group ∷ []) (seen S.state store.old store.new)) }
    ensures steady { OnOk result (IsCalm (seen S.state store.old store.new)) }
    ensures passed { AllRecover core.now (length groups.books) (group ∷ []) (seen S.state store.old store.new) }
    ensures frame { OnlyFrom (length groups.books) 1 (S.state store.old) (S.state store.new) }
    ensures gathers { Gathers 1 (seen S.state store.old store.new) }
{
    let Ok(name) = called(alloc, b"journal", &group.name) else {
        return Err(no_message(alloc));
    };
    let Ok(shared) = core.share() else {
        return Err(
            message
                .with(b"no memory\n")
                .close(alloc, statuses::NO_MEMORY),
        );
    };
    let mut groups = groups;
    let RuledGroup {
        name: group,
        policy,
    } = group;
    match groups.add(alloc, store, group, shared, policy) {
        Ok(()) => Ok(Opened {
            message,
            value: groups,
        }),
        Err(fault) => Err(refuse_journal(alloc, message, name.as_slice(), fault)),
    }
}

// Adds the groups that are left, in turn.
fn add_rest<S: Store>(
    alloc: Global,
    message: Message,
    core: &SharedCore,
    rest: RuledGroups,
    store: &mut S,
    groups: Groups,
) -> Result<Opened<Groups>, Report>
    requires message { message ≡ [] }
    requires few { length groups.books + length rest ≤ 16 }
    requires short { Each (λ g. length g.name ≤ 32) rest }
    requires new { AreNew (map (λ (b : NamedBook). b.name) groups.books) (map (λ (g : RuledGroup). g.name) rest) }
    requires alike { Each (λ b. b.book.core.dims ≡ core.now.dims) groups.books }
    requires policies { Each (λ g. IsPolicy core.now.dims g.policy) rest }
    requires attached { IsTrue (S.state store.old).attached }
    requires kept { IsTrue (S.state store.old).told → Each (IsKeptIn (S.state store.old).logs) groups.books }
    ensures message { IfOk result (λ opened. opened.message ≡ []) }
    ensures ok { IfOk result (λ opened. (more : List NamedBook) × (opened.value.books ≡ groups.books ++ more) × AreStarted core.now (seen S.state store.old store.new) (length groups.books) rest more) }
    ensures outcomes { IfOk result (λ opened. (opened.value.outcomes ≡ groups.outcomes) × (opened.value.left ≡ groups.left)) }
    ensures kept { IsTrue (S.state store.old).told → IfOk result (λ opened. Each (IsKeptIn (S.state store.new).logs) opened.value.books) }
    ensures err { IfErr result (RestUnstarted core.now (length groups.books) rest (seen S.state store.old store.new)) }
    ensures steady { OnOk result (IsCalm (seen S.state store.old store.new)) }
    ensures passed { AllRecover core.now (length groups.books) rest (seen S.state store.old store.new) }
    ensures frame { OnlyFrom (length groups.books) (length rest) (S.state store.old) (S.state store.new) }
    ensures gathers { Gathers (length rest) (seen S.state store.old store.new) }
{
    if rest.is_empty() {
        return Ok(Opened {
            message,
            value: groups,
        });
    }
    let mut rest = rest.into_vec();
    let group = rest.remove(0);
    let (message, groups) = match add_group(alloc, message, core, group, store, groups) {
        Ok(opened) => (opened.message, opened.value),
        Err(report) => return Err(report),
    };
    add_rest(alloc, message, core, Items::from_vec(rest), store, groups)
}

// Puts what each of these journals is called behind the others.
fn push_called(
    alloc: Global,
    groups: &[RuledGroup],
    names: Vec<Text>,
) -> Result<Vec<Text>, NoMemory>
    ensures { IfOk result (λ all. all.items ≡ names.items ++ map journal_of groups.now) }
{
    let [group, rest @ ..] = groups else {
        return Ok(names);
    };
    let mut names = names;
    names.push(called(alloc, b"journal", &group.name)?)?;
    push_called(alloc, rest, names)
}

// Attaches a store by its name, and compares the values with the seal of the journal of each group. What the journals are called stands
// behind it.
fn approach_all<S: Store>(
    alloc: Global,
    message: Message,
    name: &Text,
    groups: &[RuledGroup],
    values: &Digest,
    store: &mut S,
) -> Result<Opened<Vec<Text>>, Report>
    requires message { message ≡ [] }
    requires short { Each (λ g. length g.name ≤ 32) groups.now }
    requires few { length groups.now ≤ 16 }
    ensures message { IfOk result (λ opened. opened.message ≡ []) }
    ensures called { IfOk result (λ opened. opened.value.items ≡ map journal_of groups.now) }
    ensures agreed { IsTrue (S.state store.old).told → OnOk result (AllAgree values.now (S.state store.old) 0 (map journal_of groups.now)) }
    ensures err { IfErr result (EndsAtSeals 0 (map journal_of groups.now) values.now (seen S.state store.old store.new)) }
    ensures steady { OnOk result (IsCalm (seen S.state store.old store.new)) }
    ensures attached { OnOk result (IsTrue (S.state store.new).attached) }
    ensures names { OnOk result (IsTrue (S.state store.old).told → (S.state store.new).names ≡ (S.state store.old).names ++ name.now ∷ []) }
    ensures names_err { IfErr result (AsksStore name.now (seen S.state store.old store.new)) }
    ensures told { (S.state store.new).told ≡ (S.state store.old).told }
    ensures logs { SameLogs (S.state store.old) (S.state store.new) }
    ensures calls { IsTrue (S.state store.old).told → (S.state store.new).calls ≤ (S.state store.old).calls + 1 + length groups.now }
{
    let message = match attach_store(alloc, message, name, store) {
        Ok(message) => message,
        Err(report) => return Err(report),
    };
    let Ok(called) = push_called(alloc, groups, Vec::new(alloc)) else {
        return Err(no_message(alloc));
    };
    match compare_all(alloc, message, called.as_slice(), 0, values, store) {
        Ok(message) => Ok(Opened {
            message,
            value: called,
        }),
        Err(report) => Err(report),
    }
}

// Groups that were started, and what their journals are called.
#[derive(Drop)]
struct Started {
    groups: Groups,
    called: Vec<Text>,
}

// Attaches a store by its name, compares the values with the seal of each journal, and starts a book over the log of each group.
fn start_groups<S: Store>(
    alloc: Global,
    message: Message,
    ruled: Ruled,
    values: &Digest,
    name: &Text,
    stated: u64,
    store: &mut S,
) -> Result<Opened<Started>, Report>
    requires message { message ≡ [] }
    requires groups { AreGroups ruled.core.dims ruled.groups }
    requires values { values.now ≡ digest_in ruled.core }
    ensures message { IfOk result (λ opened. opened.message ≡ []) }
    ensures called { IfOk result (λ opened. opened.value.called.items ≡ map journal_of ruled.groups) }
    ensures ok { IfOk result (λ opened. AreStarted ruled.core (seen S.state store.old store.new) 0 ruled.groups opened.value.groups.books) }
    ensures outcomes { IfOk result (λ opened. (opened.value.groups.outcomes ≡ []) × (opened.value.groups.left ≡ stated)) }
    ensures attached { OnOk result (IsTrue (S.state store.new).attached) }
    ensures kept { IsTrue (S.state store.old).told → IfOk result (λ opened. Each (IsKeptIn (S.state store.new).logs) opened.value.groups.books) }
    ensures agreed { IsTrue (S.state store.old).told → OnOk result (AllAgree (digest_in ruled.core) (S.state store.old) 0 (map journal_of ruled.groups)) }
    ensures err { IfErr result (UnstartedGroups ruled.core ruled.groups (seen S.state store.old store.new)) }
    ensures compared { AreComparedFirst ruled.core ruled.groups (seen S.state store.old store.new) }
    ensures steady { OnOk result (IsCalm (seen S.state store.old store.new)) }
    ensures passed { AllRecover ruled.core 0 ruled.groups (seen S.state store.old store.new) }
    ensures names { OnOk result (IsTrue (S.state store.old).told → (S.state store.new).names ≡ (S.state store.old).names ++ name.now ∷ []) }
    ensures names_err { IfErr result (AsksStore name.now (seen S.state store.old store.new)) }
    ensures told { (S.state store.new).told ≡ (S.state store.old).told }
    ensures frame { OnlyFrom 0 (length ruled.groups) (S.state store.old) (S.state store.new) }
    ensures calls { IsTrue (S.state store.old).told → (S.state store.new).calls ≤ (S.state store.old).calls + 1 + 7 * length ruled.groups }
{
    let Ruled {
        core,
        groups: ruled,
    } = ruled;
    let (message, called) = match approach_all(
        alloc,
        message,
        name,
        ruled.as_slice(),
        values,
        store,
    ) {
        Ok(opened) => (opened.message, opened.value),
        Err(report) => return Err(report),
    };
    let Ok(groups) = Groups::new(alloc, stated) else {
        return Err(
            message
                .with(b"no memory\n")
                .close(alloc, statuses::NO_MEMORY),
        );
    };
    let Ok(shared) = SharedCore::new(alloc, core) else {
        return Err(
            message
                .with(b"no memory\n")
                .close(alloc, statuses::NO_MEMORY),
        );
    };
    match add_rest(alloc, message, &shared, ruled, store, groups) {
        Ok(opened) => Ok(Opened {
            message: opened.message,
            value: Started {
                groups: opened.value,
                called,
            },
        }),
        Err(report) => Err(report),
    }
}

/// Attaches a store by its name, starts a book over the log of each group, and holds each by a seal of the values, which are all compared
/// first.
pub fn open_groups<S: Store>(
    alloc: Global,
    message: Message,
    ruled: Ruled,
    name: &Text,
    stated: u64,
    store: &mut S,
) -> Result<Opened<Groups>, Report>
    requires message { message ≡ [] }
    requires groups { AreGroups ruled.core.dims ruled.groups }
    ensures message { IfOk result (λ opened. opened.message ≡ []) }
    ensures ok { IfOk result (λ opened. AreStarted ruled.core (seen S.state store.old store.new) 0 ruled.groups opened.value.books) }
    ensures some { IfOk result (λ opened. 1 ≤ length opened.value.books) }
    ensures over { IfOk result (λ opened. Each (λ b. b.book.core ≡ ruled.core) opened.value.books) }
    ensures rules { IfOk result (λ opened. Each (λ b. IsRuled b.book) opened.value.books) }
    ensures outcomes { IfOk result (λ opened. (opened.value.outcomes ≡ []) × (opened.value.left ≡ stated)) }
    ensures attached { OnOk result (IsTrue (S.state store.new).attached) }
    ensures kept { IsTrue (S.state store.old).told → IfOk result (λ opened. Each (IsKeptIn (S.state store.new).logs) opened.value.books) }
    ensures held { OnOk result (AreHeld ruled.core ruled.groups (seen S.state store.old store.new)) }
    ensures err { IfErr result (EndsAtJournals ruled.core ruled.groups (seen S.state store.old store.new)) }
    ensures steady { OnOk result (IsCalm (seen S.state store.old store.new)) }
    ensures passed { AllRecover ruled.core 0 ruled.groups (seen S.state store.old store.new) }
    ensures names { OnOk result (IsTrue (S.state store.old).told → (S.state store.new).names ≡ (S.state store.old).names ++ name.now ∷ []) }
    ensures names_err { IfErr result (AsksStore name.now (seen S.state store.old store.new)) }
    ensures opens { OpensFew (length ruled.groups) (seen S.state store.old store.new) }
{
    let values = digest_of_values(&ruled.core);
    let (message, started) = match start_groups(
        alloc, message, ruled, &values, name, stated, store,
    ) {
        Ok(opened) => (opened.message, opened.value),
        Err(report) => return Err(report),
    };
    match hold_all(alloc, message, started.called.as_slice(), 0, &values, store) {
        Ok(message) => Ok(Opened {
            message,
            value: started.groups,
        }),
        Err(report) => Err(report),
    }
}

// What rules the users of a cube: a policy file, or a groups file with a policy file for each group, read in turn.
ghost use Rattle.std.specs.Prelude.{◌≡◌, ◌≢◌, ◌⊎◌, ◌≤◌, ◌∷◌, ◌++◌, List, [], length, codes, Ok, Err, IfOk, IfErr, OnOk, IfSome};
ghost use Rattle.cube_io.specs.Seen.{seen};
ghost use Rattle.cube_model.specs.Cubes.{Each};
ghost use Rattle.cube_model.specs.Policies.{IsPolicy};
ghost use Rattle.cube_groups.specs.Rules as listing;
ghost use Rattle.cube_groups.specs.Words as groups_words;
ghost use Rattle.cube_groups.specs.declared.fault.GroupsFault.TheVariants as groups_faults;
ghost use Rattle.cube_groups.specs.declared.group.GroupFile.{GroupFile};
ghost use Rattle.cube_opening.specs.Opening.{fault_text, FileSays, AskedFor, EndsAt, GotBehind, Reads};
ghost use Rattle.cube_opening.specs.Reports.{IsReport, NoMessage};
ghost use Rattle.cube_opening.specs.Ruling.{groups_said, called as called_as, group_policy_said, one_group, IsRuledBy, AreRuledBy, HaveNames, AreGroups, most_groups, policy_names, ruled_names, EndsAtOne, EndsAtRules, EndsUnruled, IsRead, MakeGroups};
ghost use Rattle.cube_opening.specs.declared.cube_files.Rules.TheVariants as orders;
ghost use Rattle.cube_opening.specs.declared.ruling.RuledGroup.{RuledGroup};

use crate::cube_files::{RuledFiles, Rules};
use crate::opening::{Opened, open_core, open_policy, read_bytes, refuse};
use crate::report::{Message, Report, no_message};
use crate::statuses;
use cube_core::Core;
use cube_groups::{GroupFile, GroupList, GroupsFault, read_groups};
use cube_io::Folder;
use cube_model::{Dims, Items, NoMemory, Policy, Text};
use std::alloc::Global;

/// A group of users: its name, and its policy. Where all are under one policy they are a group without a name.
#[derive(Drop)]
pub struct RuledGroup {
    /// The name of the group.
    pub name: Text,
    /// How each measure is controlled for it, and what is protected.
    pub policy: Policy,
}

/// Groups in the order of their file.
pub type RuledGroups = Items<RuledGroup>;

/// A core, and the groups of its users.
#[derive(Drop)]
pub struct Ruled {
    /// The core.
    pub core: Core,
    /// The groups.
    pub groups: RuledGroups,
}

/// What a report calls a file of a kind that belongs to a group.
pub fn called(alloc: Global, kind: &[u8], name: &Text) -> Result<Text, NoMemory>
    ensures { IfOk result (λ text. text ≡ called_as kind.now name.now) }
{
    let mut text = Text::from_bytes(alloc, kind)?;
    if !name.is_empty() {
        text.extend(b" ")?;
        text.extend(name.as_slice())?;
    }
    Ok(text)
}

// The report on a fault of a groups file.
fn refuse_groups(alloc: Global, message: Message, fault: GroupsFault) -> Report
    requires { message ≡ [] }
    ensures { NoMessage result ⊎ IsReport 7 (codes "no memory\n") result ⊎ ((fault ≢ groups_faults.NoMemory) × IsReport 3 (fault_text (codes "groups") (groups_words.fault_words fault)) result) }
{
    match fault {
        GroupsFault::NoMemory => message
            .with(b"no memory\n")
            .close(alloc, statuses::NO_MEMORY),
        other => match cube_groups::fault_text(alloc, &other) {
            Ok(words) => refuse(alloc, b"groups", &words),
            Err(_) => no_message(alloc),
        },
    }
}

// Reads a groups file.
fn open_list<F: Folder>(
    alloc: Global,
    message: Message,
    name: &Text,
    files: &mut F,
) -> Result<Opened<GroupList>, Report>
    requires { message ≡ [] }
    ensures ok { IfOk result (λ opened. (opened.message ≡ []) × IfSome (F.state files.old).files (λ known. FileSays groups_said name.now known (Ok opened.value))) }
    ensures rules { IfOk result (λ opened. listing.AreGroups opened.value) }
    ensures err { IfErr result (EndsAt [] groups_said name.now (seen F.state files.old files.new)) }
    ensures asks { OnOk result (AskedFor (name.now ∷ []) (seen F.state files.old files.new)) }
    ensures reads { Reads (seen F.state files.old files.new) result }
{
    let opened = match read_bytes(alloc, message, b"groups", name, files) {
        Ok(opened) => opened,
        Err(report) => return Err(report),
    };
    match read_groups(alloc, opened.value.as_slice()) {
        Ok(value) => Ok(Opened {
            message: opened.message,
            value,
        }),
        Err(fault) => Err(refuse_groups(alloc, opened.message, fault)),
    }
}

// Reads the policy file of a group.
fn open_group<F: Folder>(
    alloc: Global,
    message: Message,
    group: &GroupFile,
    dims: &Dims,
    files: &mut F,
) -> Result<Opened<RuledGroup>, Report>
    requires message { message ≡ [] }
    requires short { length group.now.name ≤ 32 }
    ensures ok { IfOk result (λ opened. (opened.message ≡ []) × (opened.value.name ≡ group.now.name) × IfSome (F.state files.old).files (λ known. IsRuledBy dims.now known group.now opened.value)) }
    ensures rules { IfOk result (λ opened. IsPolicy dims.now opened.value.policy) }
    ensures err { IfErr result (EndsAt [] (group_policy_said dims.now group.now.name) group.now.policy (seen F.state files.old files.new)) }
    ensures asks { OnOk result (AskedFor (group.now.policy ∷ []) (seen F.state files.old files.new)) }
    ensures reads { Reads (seen F.state files.old files.new) result }
{
    let Ok(name) = Text::from_bytes(alloc, group.name.as_slice()) else {
        return Err(no_message(alloc));
    };
    let Ok(kind) = called(alloc, b"policy", &group.name) else {
        return Err(no_message(alloc));
    };
    match open_policy(alloc, message, kind.as_slice(), &group.policy, dims, files) {
        Ok(
            Opened {
                message,
                value: policy,
            },
        ) => Ok(Opened {
            message,
            value: RuledGroup { name, policy },
        }),
        Err(report) => Err(report),
    }
}

// Reads the policy files of the groups that are left, behind those that were read.
fn open_rest<F: Folder>(
    alloc: Global,
    message: Message,
    list: &[GroupFile],
    dims: &Dims,
    files: &mut F,
    groups: RuledGroups,
) -> Result<Opened<RuledGroups>, Report>
    requires message { message ≡ [] }
    requires short { Each (λ f. length f.name ≤ 32) list.now }
    ensures message { IfOk result (λ opened. opened.message ≡ []) }
    ensures ok { IfOk result (λ opened. (more : List RuledGroup) × (opened.value ≡ groups ++ more) × HaveNames list.now more × Each (λ g. IsPolicy dims.now g.policy) more × IfSome (F.state files.old).files (λ known. AreRuledBy dims.now known list.now more)) }
    ensures err { IfErr result (EndsAtOne dims.now [] list.now (seen F.state files.old files.new)) }
    ensures asks { OnOk result (AskedFor (policy_names list.now) (seen F.state files.old files.new)) }
    ensures reads { Reads (seen F.state files.old files.new) result }
{
    let [group, rest @ ..] = list else {
        return Ok(Opened {
            message,
            value: groups,
        });
    };
    let (message, ruled) = match open_group(alloc, message, group, dims, files) {
        Ok(opened) => (opened.message, opened.value),
        Err(report) => return Err(report),
    };
    let mut groups = groups;
    match groups.push(ruled) {
        Ok(()) => open_rest(alloc, message, rest, dims, files, groups),
        Err(_) => Err(no_message(alloc)),
    }
}

// The list of one group without a name, whose policy file has this name.
fn list_one(alloc: Global, policy: &Text) -> Result<GroupList, NoMemory>
    ensures { IfOk result (λ list. list ≡ one_group policy.now) }
{
    let mut list = Items::new(alloc);
    let policy = Text::from_bytes(alloc, policy.as_slice())?;
    list.push(GroupFile {
        name: Text::new(alloc),
        policy,
    })?;
    Ok(list)
}

// Reads the policy file of all users.
fn open_one<F: Folder>(
    alloc: Global,
    message: Message,
    policy: &Text,
    dims: &Dims,
    files: &mut F,
) -> Result<Opened<RuledGroups>, Report>
    requires { message ≡ [] }
    ensures message { IfOk result (λ opened. opened.message ≡ []) }
    ensures ok { IfOk result (λ opened. IsRead (orders.One policy.now) dims.now (one_group policy.now) opened.value (seen F.state files.old files.new)) }
    ensures rules { IfOk result (λ opened. AreGroups dims.now opened.value) }
    ensures err { IfErr result (EndsAtRules dims.now [] (orders.One policy.now) (seen F.state files.old files.new)) }
    ensures reads { Reads (seen F.state files.old files.new) result }
{
    let Ok(list) = list_one(alloc, policy) else {
        return Err(no_message(alloc));
    };
    open_rest(
        alloc,
        message,
        list.as_slice(),
        dims,
        files,
        Items::new(alloc),
    )
}

// Reads a groups file and the policy files that it lists.
fn open_listed<F: Folder>(
    alloc: Global,
    message: Message,
    name: &Text,
    dims: &Dims,
    files: &mut F,
) -> Result<Opened<RuledGroups>, Report>
    requires { message ≡ [] }
    ensures message { IfOk result (λ opened. opened.message ≡ []) }
    ensures ok { IfOk result (λ opened. (fs : List GroupFile) × IsRead (orders.Groups name.now) dims.now fs opened.value (seen F.state files.old files.new)) }
    ensures rules { IfOk result (λ opened. AreGroups dims.now opened.value) }
    ensures err { IfErr result (EndsAtRules dims.now [] (orders.Groups name.now) (seen F.state files.old files.new)) }
    ensures reads { Reads (seen F.state files.old files.new) result }
{
    let (message, list) = match open_list(alloc, message, name, files) {
        Ok(opened) => (opened.message, opened.value),
        Err(report) => return Err(report),
    };
    open_rest(
        alloc,
        message,
        list.as_slice(),
        dims,
        files,
        Items::new(alloc),
    )
}

// Reads the files that rule the users.
fn open_rules<F: Folder>(
    alloc: Global,
    message: Message,
    rules: &Rules,
    dims: &Dims,
    files: &mut F,
) -> Result<Opened<RuledGroups>, Report>
    requires { message ≡ [] }
    ensures message { IfOk result (λ opened. opened.message ≡ []) }
    ensures ok { IfOk result (λ opened. (fs : List GroupFile) × IsRead rules.now dims.now fs opened.value (seen F.state files.old files.new)) }
    ensures rules { IfOk result (λ opened. AreGroups dims.now opened.value) }
    ensures err { IfErr result (EndsAtRules dims.now [] rules.now (seen F.state files.old files.new)) }
    ensures reads { Reads (seen F.state files.old files.new) result }
{
    match rules {
        Rules::One(policy) => open_one(alloc, message, policy, dims, files),
        Rules::Groups(name) => open_listed(alloc, message, name, dims, files),
    }
}

/// Reads the dimension file, the fact file, and what rules the users: a policy file, or a groups file and the policy file
/// of each group in its order.
pub fn open_ruled<F: Folder>(
    alloc: Global,
    message: Message,
    cube: &RuledFiles,
    files: &mut F,
) -> Result<Opened<Ruled>, Report>
    requires { message ≡ [] }
    ensures message { IfOk result (λ opened. opened.message ≡ []) }
    ensures ok { IfOk result (λ opened. (fs : List GroupFile) × MakeGroups cube.now (F.state files.old) opened.value.core fs opened.value.groups × GotBehind (ruled_names cube.now fs) (seen F.state files.old files.new)) }
    ensures rules { IfOk result (λ opened. AreGroups opened.value.core.dims opened.value.groups) }
    ensures few { IfOk result (λ opened. length opened.value.groups ≤ most_groups cube.now.rules) }
    ensures err { IfErr result (EndsUnruled cube.now (seen F.state files.old files.new)) }
    ensures reads { Reads (seen F.state files.old files.new) result }
{
    let (message, core) = match open_core(alloc, message, &cube.dims, &cube.facts, files) {
        Ok(opened) => (opened.message, opened.value),
        Err(report) => return Err(report),
    };
    match open_rules(alloc, message, &cube.rules, core.dims(), files) {
        Ok(
            Opened {
                message,
                value: groups,
            },
        ) => Ok(Opened {
            message,
            value: Ruled { core, groups },
        }),
        Err(report) => Err(report),
    }
}

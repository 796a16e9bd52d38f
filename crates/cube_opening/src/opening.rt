// The files of a command, read in turn.
ghost use Rattle.std.specs.Prelude.{◌≡◌, ◌≢◌, ◌⊎◌, ◌≤◌, ◌∷◌, [], length, codes, Ok, Err, IfOk, IfErr, OnOk, IfSome};
ghost use Rattle.cube_io.specs.Files.{max_file, file_of};
ghost use Rattle.cube_io.specs.Seen.{seen};
ghost use Rattle.cube_dims.specs.Words as dims_words;
ghost use Rattle.cube_dims.specs.declared.fault.DimsFault.TheVariants as dims_faults;
ghost use Rattle.cube_facts.specs.Words as facts_words;
ghost use Rattle.cube_facts.specs.declared.fault.FactsFault.TheVariants as facts_faults;
ghost use Rattle.cube_policy.specs.Words as policy_words;
ghost use Rattle.cube_policy.specs.declared.fault.PolicyFault.TheVariants as policy_faults;
ghost use Rattle.cube_model.specs.Policies.{IsPolicy};
ghost use Rattle.cube_opening.specs.Reports.{IsReport, NoMessage};
ghost use Rattle.cube_opening.specs.Opening.{fault_text, unreadable_text as unreadable_words, dims_said, facts_said, policy_said_as, flat_said, FileSays, Unread, AskedFor, AskedUpTo, EndsAt, GotBehind, Reads, MakesCore, EndsUnfounded, Make, EndsUnopened, names_of};

use crate::cube_files::CubeFiles;
use crate::report::{Message, Report, no_message, with_text};
use crate::statuses;
use cube_core::Core;
use cube_dims::{DimsFault, read_dims};
use cube_facts::{FactsFault, Flat, read_facts, read_flat};
use cube_io::{Folder, ReadFault};
use cube_model::{Dims, NoMemory, Policy, Text};
use cube_policy::{PolicyFault, read_policy};
use std::alloc::Global;

fn unreadable_text(alloc: Global, name: &Text) -> Result<Text, NoMemory>
    ensures { IfOk result (λ text. text ≡ unreadable_words name.now) }
{
    let mut text = Text::from_bytes(alloc, b"cannot read ")?;
    text.extend(name.as_slice())?;
    text.extend(b"\n")?;
    Ok(text)
}

/// A file that was read.
#[derive(Drop)]
pub struct Opened<T> {
    /// The message of a report, still empty.
    pub message: Message,
    /// What the file holds.
    pub value: T,
}

/// A core, and the policy over it.
#[derive(Drop)]
pub struct Guarded {
    /// The core.
    pub core: Core,
    /// How each measure is controlled, and what is protected.
    pub policy: Policy,
}

/// Reads the bytes of a file of a kind, as `dims`, which is named where the file is too long.
pub fn read_bytes<F: Folder>(
    alloc: Global,
    message: Message,
    kind: &[u8],
    name: &Text,
    files: &mut F,
) -> Result<Opened<Text>, Report>
    requires message { message ≡ [] }
    requires kind { length kind.now ≤ 40 }
    ensures ok { IfOk result (λ opened. (opened.message ≡ []) × IfSome (F.state files.old).files (λ known. file_of known name.now ≡ Some opened.value) × (length opened.value ≤ max_file)) }
    ensures err { IfErr result (Unread kind.now name.now (seen F.state files.old files.new)) }
    ensures asks_ok { OnOk result (AskedFor (name.now ∷ []) (seen F.state files.old files.new)) }
    ensures asks_err { IfErr result (AskedUpTo [] name.now (seen F.state files.old files.new)) }
    ensures reads { Reads (seen F.state files.old files.new) result }
{
    let Ok(unreadable) = unreadable_text(alloc, name) else {
        return Err(no_message(alloc));
    };
    match files.read_file(alloc, name) {
        Ok(value) => Ok(Opened { message, value }),
        Err(ReadFault::Failed) => Err(with_text(alloc, statuses::READ_FAILED, unreadable)),
        Err(ReadFault::TooLong) => Err(
            message
                .with(kind)
                .with(b": limit file 67108864\n")
                .close(alloc, statuses::FILE_REFUSED),
        ),
        Err(ReadFault::NoMemory) => Err(
            message
                .with(b"no memory\n")
                .close(alloc, statuses::NO_MEMORY),
        ),
    }
}

/// The report on a fault of a file of a kind, in these words.
pub fn refuse(alloc: Global, kind: &[u8], words: &Text) -> Report
    ensures { NoMessage result ⊎ IsReport 3 (fault_text kind.now words.now) result }
{
    match refused_text(alloc, kind, words) {
        Ok(text) => with_text(alloc, statuses::FILE_REFUSED, text),
        Err(_) => no_message(alloc),
    }
}

fn refused_text(alloc: Global, kind: &[u8], words: &Text) -> Result<Text, NoMemory>
    ensures { IfOk result (λ text. text ≡ fault_text kind.now words.now) }
{
    let mut text = Text::from_bytes(alloc, kind)?;
    text.extend(b": ")?;
    text.extend(words.as_slice())?;
    text.extend(b"\n")?;
    Ok(text)
}

fn refuse_dims(alloc: Global, message: Message, fault: DimsFault) -> Report
    requires { message ≡ [] }
    ensures { NoMessage result ⊎ IsReport 7 (codes "no memory\n") result ⊎ ((fault ≢ dims_faults.NoMemory) × IsReport 3 (fault_text (codes "dims") (dims_words.fault_words fault)) result) }
{
    match fault {
        DimsFault::NoMemory => message
            .with(b"no memory\n")
            .close(alloc, statuses::NO_MEMORY),
        other => match cube_dims::fault_text(alloc, &other) {
            Ok(words) => refuse(alloc, b"dims", &words),
            Err(_) => no_message(alloc),
        },
    }
}

// The report on a fault of a fact file.
fn refuse_facts(alloc: Global, message: Message, fault: FactsFault) -> Report
    requires { message ≡ [] }
    ensures { NoMessage result ⊎ IsReport 7 (codes "no memory\n") result ⊎ ((fault ≢ facts_faults.NoMemory) × IsReport 3 (fault_text (codes "facts") (facts_words.fault_words fault)) result) }
{
    match fault {
        FactsFault::NoMemory => message
            .with(b"no memory\n")
            .close(alloc, statuses::NO_MEMORY),
        other => match cube_facts::fault_text(alloc, &other) {
            Ok(words) => refuse(alloc, b"facts", &words),
            Err(_) => no_message(alloc),
        },
    }
}

// The report on a fault of a policy file of a kind.
fn refuse_policy(alloc: Global, message: Message, kind: &[u8], fault: PolicyFault) -> Report
    requires { message ≡ [] }
    ensures { NoMessage result ⊎ IsReport 7 (codes "no memory\n") result ⊎ ((fault ≢ policy_faults.NoMemory) × IsReport 3 (fault_text kind.now (policy_words.fault_words fault)) result) }
{
    match fault {
        PolicyFault::NoMemory => message
            .with(b"no memory\n")
            .close(alloc, statuses::NO_MEMORY),
        other => match cube_policy::fault_text(alloc, &other) {
            Ok(words) => refuse(alloc, kind, &words),
            Err(_) => no_message(alloc),
        },
    }
}

// Reads the dimension file.
fn open_dims<F: Folder>(
    alloc: Global,
    message: Message,
    name: &Text,
    files: &mut F,
) -> Result<Opened<Dims>, Report>
    requires { message ≡ [] }
    ensures ok { IfOk result (λ opened. (opened.message ≡ []) × IfSome (F.state files.old).files (λ known. FileSays dims_said name.now known (Ok opened.value))) }
    ensures err { IfErr result (EndsAt [] dims_said name.now (seen F.state files.old files.new)) }
    ensures asks { OnOk result (AskedFor (name.now ∷ []) (seen F.state files.old files.new)) }
    ensures reads { Reads (seen F.state files.old files.new) result }
{
    let opened = match read_bytes(alloc, message, b"dims", name, files) {
        Ok(opened) => opened,
        Err(report) => return Err(report),
    };
    match read_dims(alloc, opened.value.as_slice()) {
        Ok(value) => Ok(Opened {
            message: opened.message,
            value,
        }),
        Err(fault) => Err(refuse_dims(alloc, opened.message, fault)),
    }
}

// A core of what was read, whose making wants no check.
fn make_core(
    alloc: Global,
    message: Message,
    dims: Dims,
    bytes: &[u8],
) -> Result<Opened<Core>, Report>
    requires { message ≡ [] }
    ensures ok { IfOk result (λ opened. (opened.message ≡ []) × (length bytes.now ≤ max_file → facts_said dims bytes.now ≡ Ok opened.value)) }
    ensures dims { IfOk result (λ opened. opened.value.dims ≡ dims) }
    ensures err { IfErr result (λ r. NoMessage r ⊎ IsReport 7 (codes "no memory\n") r ⊎ (IsReport 3 r.text r × (length bytes.now ≤ max_file → facts_said dims bytes.now ≡ Err r.text))) }
{
    let (shape, cube) = match read_facts(alloc, &dims, bytes) {
        Ok(filled) => filled,
        Err(fault) => return Err(refuse_facts(alloc, message, fault)),
    };
    match Core::new(alloc, dims, shape, cube) {
        Ok(value) => Ok(Opened { message, value }),
        Err(_) => Err(
            message
                .with(b"no memory\n")
                .close(alloc, statuses::NO_MEMORY),
        ),
    }
}

// Reads the fact file under dimensions and measures.
fn open_facts<F: Folder>(
    alloc: Global,
    message: Message,
    name: &Text,
    dims: Dims,
    files: &mut F,
) -> Result<Opened<Core>, Report>
    requires { message ≡ [] }
    ensures ok { IfOk result (λ opened. (opened.message ≡ []) × IfSome (F.state files.old).files (λ known. FileSays (facts_said dims) name.now known (Ok opened.value))) }
    ensures dims { IfOk result (λ opened. opened.value.dims ≡ dims) }
    ensures err { IfErr result (EndsAt [] (facts_said dims) name.now (seen F.state files.old files.new)) }
    ensures asks { OnOk result (AskedFor (name.now ∷ []) (seen F.state files.old files.new)) }
    ensures reads { Reads (seen F.state files.old files.new) result }
{
    let opened = match read_bytes(alloc, message, b"facts", name, files) {
        Ok(opened) => opened,
        Err(report) => return Err(report),
    };
    make_core(alloc, opened.message, dims, opened.value.as_slice())
}

/// Reads a flat fact file.
pub fn open_flat<F: Folder>(
    alloc: Global,
    message: Message,
    name: &Text,
    files: &mut F,
) -> Result<Opened<Flat>, Report>
    requires { message ≡ [] }
    ensures ok { IfOk result (λ opened. (opened.message ≡ []) × IfSome (F.state files.old).files (λ known. FileSays flat_said name.now known (Ok opened.value))) }
    ensures err { IfErr result (EndsAt [] flat_said name.now (seen F.state files.old files.new)) }
    ensures asks { OnOk result (AskedFor (name.now ∷ []) (seen F.state files.old files.new)) }
    ensures reads { Reads (seen F.state files.old files.new) result }
{
    let opened = match read_bytes(alloc, message, b"facts", name, files) {
        Ok(opened) => opened,
        Err(report) => return Err(report),
    };
    match read_flat(alloc, opened.value.as_slice()) {
        Ok(value) => Ok(Opened {
            message: opened.message,
            value,
        }),
        Err(fault) => Err(refuse_facts(alloc, opened.message, fault)),
    }
}

/// Reads a policy file under dimensions and measures, which is named as a kind where it is refused.
pub(crate) fn open_policy<F: Folder>(
    alloc: Global,
    message: Message,
    kind: &[u8],
    name: &Text,
    dims: &Dims,
    files: &mut F,
) -> Result<Opened<Policy>, Report>
    requires message { message ≡ [] }
    requires kind { length kind.now ≤ 40 }
    ensures ok { IfOk result (λ opened. (opened.message ≡ []) × IfSome (F.state files.old).files (λ known. FileSays (policy_said_as kind.now dims.now) name.now known (Ok opened.value))) }
    ensures rules { IfOk result (λ opened. IsPolicy dims.now opened.value) }
    ensures err { IfErr result (EndsAt [] (policy_said_as kind.now dims.now) name.now (seen F.state files.old files.new)) }
    ensures asks { OnOk result (AskedFor (name.now ∷ []) (seen F.state files.old files.new)) }
    ensures reads { Reads (seen F.state files.old files.new) result }
{
    let opened = match read_bytes(alloc, message, kind, name, files) {
        Ok(opened) => opened,
        Err(report) => return Err(report),
    };
    match read_policy(alloc, dims, opened.value.as_slice()) {
        Ok(value) => Ok(Opened {
            message: opened.message,
            value,
        }),
        Err(fault) => Err(refuse_policy(alloc, opened.message, kind, fault)),
    }
}

/// Reads the dimension file and the fact file, in turn.
pub(crate) fn open_core<F: Folder>(
    alloc: Global,
    message: Message,
    dims_name: &Text,
    facts_name: &Text,
    files: &mut F,
) -> Result<Opened<Core>, Report>
    requires { message ≡ [] }
    ensures ok { IfOk result (λ opened. (opened.message ≡ []) × IfSome (F.state files.old).files (MakesCore dims_name.now facts_name.now opened.value)) }
    ensures err { IfErr result (EndsUnfounded dims_name.now facts_name.now (seen F.state files.old files.new)) }
    ensures behind { OnOk result (GotBehind (dims_name.now ∷ facts_name.now ∷ []) (seen F.state files.old files.new)) }
    ensures reads { Reads (seen F.state files.old files.new) result }
{
    let (message, dims) = match open_dims(alloc, message, dims_name, files) {
        Ok(opened) => (opened.message, opened.value),
        Err(report) => return Err(report),
    };
    open_facts(alloc, message, facts_name, dims, files)
}

/// Reads the dimension file, the fact file and the policy file, in turn.
pub fn open_guarded<F: Folder>(
    alloc: Global,
    message: Message,
    cube: &CubeFiles,
    files: &mut F,
) -> Result<Opened<Guarded>, Report>
    requires { message ≡ [] }
    ensures ok { IfOk result (λ opened. (opened.message ≡ []) × Make cube.now (F.state files.old) opened.value.core opened.value.policy) }
    ensures rules { IfOk result (λ opened. IsPolicy opened.value.core.dims opened.value.policy) }
    ensures err { IfErr result (EndsUnopened cube.now (seen F.state files.old files.new)) }
    ensures behind { OnOk result (GotBehind (names_of cube.now) (seen F.state files.old files.new)) }
    ensures reads { Reads (seen F.state files.old files.new) result }
{
    let (message, core) = match open_core(alloc, message, &cube.dims, &cube.facts, files) {
        Ok(opened) => (opened.message, opened.value),
        Err(report) => return Err(report),
    };
    let opened = open_policy(alloc, message, b"policy", &cube.policy, core.dims(), files);
    match opened {
        Ok(
            Opened {
                message,
                value: policy,
            },
        ) => Ok(Opened {
            message,
            value: Guarded { core, policy },
        }),
        Err(report) => Err(report),
    }
}

// `audit`: a transcript of some server's queries and replies is checked against the cube of the files.
ghost use Rattle.std.specs.Prelude.{◌≡◌, ◌≢◌, ◌⊎◌, ◌≤◌, ◌<◌, ◌∷◌, [], length, codes, IfOk, IfErr, OnOk, IfSome, Ok};
ghost use Rattle.cube_io.specs.Seen.{seen};
ghost use Rattle.cube_model.specs.Policies.{IsPolicy};
ghost use Rattle.cube_audit.specs.Audits.{audited};
ghost use Rattle.cube_audit.specs.AuditText as said;
ghost use Rattle.cube_audit.specs.Sound.{SaysSound};
ghost use Rattle.cube_audit.specs.Words.{fault_words};
ghost use Rattle.cube_audit.specs.declared.transcript.TranscriptFault.TheVariants as faults;
ghost use Rattle.cube_opening.specs.Causes.{HasCauses};
ghost use Rattle.cube_opening.specs.Outside.{UsesFiles, counted, outside};
ghost use Rattle.cube_opening.specs.Opening.{fault_text as refusal, FileSays, AskedFor, EndsAt, Reads};
ghost use Rattle.cube_opening.specs.Reports.{IsReport, NoMessage};
ghost use Rattle.cube_commands.specs.Auditing.{transcript_said, is_yes, AuditEnds, AuditCompletes};

use crate::saying::put_whether;
use cube_audit::{Audited, Transcript, TranscriptFault, audited_text, fault_text, read_transcript};
use cube_core::{Core, Steps};
use cube_io::{Folder, Sink, Source, Store, Wire};
use cube_model::{NoMemory, Policy, Text};
use cube_opening::{
    CubeFiles, Message, Opened, Report, World, no_message, open_guarded, read_bytes, refuse,
    statuses,
};
use std::alloc::Global;
use std::marker::Brand;
use std::sync::ledger::{Blank, Ledger};

// The report on a fault of a transcript.
fn refuse_transcript(alloc: Global, message: Message, fault: TranscriptFault) -> Report
    requires { message ≡ [] }
    ensures { NoMessage result ⊎ IsReport 7 (codes "no memory\n") result ⊎ ((fault ≢ faults.NoMemory) × IsReport 3 (refusal (codes "transcript") (fault_words fault)) result) }
{
    match fault {
        TranscriptFault::NoMemory => message
            .with(b"no memory\n")
            .close(alloc, statuses::NO_MEMORY),
        other => match fault_text(alloc, &other) {
            Ok(words) => refuse(alloc, b"transcript", &words),
            Err(_) => no_message(alloc),
        },
    }
}

// Reads the transcript.
fn open_transcript<F: Folder>(
    alloc: Global,
    message: Message,
    name: &Text,
    files: &mut F,
) -> Result<Opened<Transcript>, Report>
    requires { message ≡ [] }
    ensures ok { IfOk result (λ opened. (opened.message ≡ []) × IfSome (F.state files.old).files (λ known. FileSays transcript_said name.now known (Ok opened.value))) }
    ensures few { IfOk result (λ opened. length opened.value ≤ 65536) }
    ensures err { IfErr result (EndsAt [] transcript_said name.now (seen F.state files.old files.new)) }
    ensures asks { OnOk result (AskedFor (name.now ∷ []) (seen F.state files.old files.new)) }
    ensures reads { Reads (seen F.state files.old files.new) result }
{
    let opened = match read_bytes(alloc, message, b"transcript", name, files) {
        Ok(opened) => opened,
        Err(report) => return Err(report),
    };
    match read_transcript(alloc, opened.value.as_slice()) {
        Ok(value) => Ok(Opened {
            message: opened.message,
            value,
        }),
        Err(fault) => Err(refuse_transcript(alloc, opened.message, fault)),
    }
}

// Whether an audit ends with a yes.
fn says_yes(told: &Audited) -> bool
    ensures { result ≡ is_yes told.now }
{
    match told {
        Audited::Yes { .. } => true,
        Audited::Inexact { .. } => false,
        Audited::Fixed { .. } => false,
    }
}

// The line of the audit and whether it is a yes, where the values that are read are counted in this blank book.
fn line_in<L: Ledger>(
    alloc: Global,
    core: &Core,
    policy: &Policy,
    items: &Transcript,
    blank: Blank,
) -> Result<(Text, bool), NoMemory>
    requires policy { IsPolicy core.now.dims policy.now }
    requires few { length items.now ≤ 65536 }
    requires name { blank.name ≡ L.name }
    requires parts { blank.parts ≡ L.parts }
    requires some { 0 < L.parts }
    ensures { IfOk result (λ line. (line.0 ≡ said.audited_text core.now.dims (audited core.now policy.now items.now)) × (line.1 ≡ is_yes (audited core.now policy.now items.now))) }
{
    let mut steps = Steps::<L>::new(blank);
    let told = cube_audit::audit(alloc, core, policy, items, &mut steps)?;
    Ok((audited_text(alloc, core.dims(), &told)?, says_yes(&told)))
}

// The line of the audit, and whether it is a yes.
fn line_of(
    alloc: Global,
    core: &Core,
    policy: &Policy,
    items: &Transcript,
) -> Result<(Text, bool), NoMemory>
    requires policy { IsPolicy core.now.dims policy.now }
    requires few { length items.now ≤ 65536 }
    ensures line { IfOk result (λ line. (line.0 ≡ said.audited_text core.now.dims (audited core.now policy.now items.now)) × (line.1 ≡ is_yes (audited core.now policy.now items.now))) }
    ensures sound { SaysSound core.now policy.now items.now (audited core.now policy.now items.now) }
{
    let _rules = core.dims();
    line_in::<Brand>(alloc, core, policy, items, Blank::new(1))
}

/// Checks the transcript in a file against the cube of the files, and prints the line of the audit. The status says whether it is a yes.
pub fn audit<F: Folder, S: Store, I: Source, O: Sink, W: Wire>(
    alloc: Global,
    message: Message,
    cube: &CubeFiles,
    transcript: &Text,
    world: &mut World<F, S, I, O, W>,
) -> Report
    requires { message ≡ [] }
    ensures answers { AuditEnds cube.now transcript.now (outside F.state S.state I.state O.state W.state world.old world.new) result }
    ensures causes { HasCauses (counted (outside F.state S.state I.state O.state W.state world.old world.new)) result }
    ensures complete { AuditCompletes cube.now transcript.now (outside F.state S.state I.state O.state W.state world.old world.new) result }
    ensures outcomes { result.outcomes ≡ [] }
    ensures leaves { UsesFiles (outside F.state S.state I.state O.state W.state world.old world.new) }
{
    let opened = match open_guarded(alloc, message, cube, &mut world.files) {
        Ok(opened) => opened,
        Err(report) => return report,
    };
    let guarded = opened.value;
    let read = match open_transcript(alloc, opened.message, transcript, &mut world.files) {
        Ok(read) => read,
        Err(report) => return report,
    };
    let line = line_of(alloc, &guarded.core, &guarded.policy, &read.value);
    put_whether(alloc, read.message, line, &mut world.out)
}

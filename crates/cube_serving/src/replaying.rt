// `replay`: the groups of the files are asked by the connections of a script, and the log of what was sent is written.
ghost use Rattle.std.specs.Prelude.{◌≡◌, ◌≢◌, ◌⊎◌, ◌≤◌, ◌+◌, ◌*◌, ◌++◌, ◌∷◌, [], List, decimal, codes, true, false, length, is_err, IsTrue, IfOk, IfErr, OnOk, IfSome, Ok, Err};
ghost use Rattle.std.specs.List.{list_any};
ghost use Rattle.cube_io.specs.Files.{max_file};
ghost use Rattle.cube_io.specs.Seen.{seen};
ghost use Rattle.cube_io.specs.Wires.{Arrival};
ghost use Rattle.cube_opening.specs.Causes.{HasCauses};
ghost use Rattle.cube_opening.specs.Outside.{counted, outside, UsesJournal};
ghost use Rattle.cube_opening.specs.Opening.{FileSays, AskedFor, EndsAt, Reads};
ghost use Rattle.cube_opening.specs.Reports.{IsReport};
ghost use Rattle.cube_opening.specs.Ruling.{most_groups};
ghost use Rattle.cube_script.specs.Playing.{has_torn};
ghost use Rattle.cube_server.specs.Steps.{is_end};
ghost use Rattle.cube_server.specs.declared.serving.ServeFault.TheVariants as fault;
ghost use Rattle.cube_starting.specs.Grouping.{OnlyFirst};
ghost use Rattle.cube_starting.specs.Starting.{AsksStore};
ghost use Rattle.cube_serving.specs.Replaying.{script_said, wire_of, ReplayEnds, ReplayCompletes, played_status, played_text};

use crate::housing::serve_groups;
use crate::serving::report_serving;
use cube_io::{Failed, Folder, Sink, Source, Store, Wire};
use cube_model::{Outcomes, Text};
use cube_opening::{Message, Opened, Report, RuledFiles, World, open_ruled, read_bytes, statuses};
use cube_script::{ScriptFault, ScriptWire};
use cube_server::{Pool, ServeFault};
use cube_starting::open_groups;
use std::alloc::Global;

// The wire that plays the script of these bytes.
fn make_wire(alloc: Global, message: Message, bytes: &Text) -> Result<Opened<ScriptWire>, Report>
    requires { message ≡ [] }
    ensures ok { IfOk result (λ opened. (opened.message ≡ []) × ((script : List Arrival) × (opened.value ≡ wire_of script) × (list_any is_end script ≡ false) × (length bytes.now ≤ max_file → script_said bytes.now ≡ Ok script))) }
    ensures err { IfErr result (λ r. IsReport 7 (codes "no memory\n") r ⊎ (IsReport 3 r.text r × (length bytes.now ≤ max_file → script_said bytes.now ≡ Err r.text))) }
{
    match ScriptWire::new(alloc, bytes) {
        Ok(value) => Ok(Opened { message, value }),
        Err(ScriptFault::Line { line }) => Err(
            message
                .with(b"script: line ")
                .with_number(line)
                .with(b"\n")
                .close(alloc, statuses::FILE_REFUSED),
        ),
        Err(ScriptFault::NoMemory) => Err(
            message
                .with(b"no memory\n")
                .close(alloc, statuses::NO_MEMORY),
        ),
    }
}

// Reads the script.
fn open_script<F: Folder>(
    alloc: Global,
    message: Message,
    name: &Text,
    files: &mut F,
) -> Result<Opened<ScriptWire>, Report>
    requires { message ≡ [] }
    ensures ok { IfOk result (λ opened. (opened.message ≡ []) × ((script : List Arrival) × (opened.value ≡ wire_of script) × (list_any is_end script ≡ false) × IfSome (F.state files.old).files (λ known. FileSays script_said name.now known (Ok script)))) }
    ensures err { IfErr result (EndsAt [] script_said name.now (seen F.state files.old files.new)) }
    ensures asks { OnOk result (AskedFor (name.now ∷ []) (seen F.state files.old files.new)) }
    ensures reads { Reads (seen F.state files.old files.new) result }
{
    let opened = match read_bytes(alloc, message, b"script", name, files) {
        Ok(opened) => opened,
        Err(report) => return Err(report),
    };
    make_wire(alloc, opened.message, &opened.value)
}

// The text on a play that has no space for another send.
fn overrun_room(message: Message, requests: u64, events: u64) -> Message
    requires { message ≡ [] }
    ensures { result ≡ codes "spent: room for sends, " ++ decimal requests ++ codes " requests, " ++ decimal events ++ codes " events\n" }
{
    message
        .with(b"spent: room for sends, ")
        .with_number(requests)
        .with(b" requests, ")
        .with_number(events)
        .with(b" events\n")
}

// The report on how a play ended.
fn report_play(
    message: Message,
    end: Result<(), ServeFault>,
    written: Result<(), Failed>,
    wire: &ScriptWire,
    outcomes: Outcomes,
) -> Report
    requires { message ≡ [] }
    ensures put { OnOk written ((result.status ≡ played_status (has_torn wire.now.log) end) × (result.text ≡ played_text (has_torn wire.now.log) end outcomes wire.now.log)) }
    ensures unput { is_err written ≡ true → (result.status ≡ 6) × (result.text ≡ codes "output failed\n") }
    ensures outcomes { result.outcomes ≡ outcomes }
{
    if written.is_err() {
        return message
            .with(b"output failed\n")
            .close_with(statuses::OUTPUT_FAILED, outcomes);
    }
    if !wire.overrun() {
        return report_serving(message, end, outcomes);
    }
    let requests = outcomes.len() as u64;
    overrun_room(message, requests, wire.taken()).close_with(statuses::ALL_SPENT, outcomes)
}

/// Plays a script to the groups over the cube of the files, each from the history on that its journal holds, and writes the log of what
/// was sent.
pub fn replay_cube<F: Folder, S: Store, I: Source, O: Sink, W: Wire>(
    alloc: Global,
    message: Message,
    cube: &RuledFiles,
    journal: &Text,
    script_name: &Text,
    stated: u64,
    world: &mut World<F, S, I, O, W>,
) -> Report
    requires message { message ≡ [] }
    requires stated { 1 ≤ stated }
    ensures answers { ReplayEnds cube.now script_name.now stated (outside F.state S.state I.state O.state W.state world.old world.new) result }
    ensures names { (world.new.store ≡ world.old.store) ⊎ AsksStore journal.now (seen S.state world.old.store world.new.store) result }
    ensures others { OnlyFirst (most_groups cube.now.rules) (S.state world.old.store) (S.state world.new.store) }
    ensures causes { HasCauses (counted (outside F.state S.state I.state O.state W.state world.old world.new)) result }
    ensures calls { result.status ≡ 9 → IsTrue (S.state world.old.store).told → (S.state world.new.store).calls ≤ (S.state world.old.store).calls + (1 + 11 * most_groups cube.now.rules) }
    ensures memory { result.status ≡ 7 → (result.outcomes ≡ []) × (world.new.out ≡ world.old.out) }
    ensures complete { ReplayCompletes cube.now script_name.now (outside F.state S.state I.state O.state W.state world.old world.new) result }
    ensures leaves { UsesJournal (outside F.state S.state I.state O.state W.state world.old world.new) }
{
    let opened = match open_ruled(alloc, message, cube, &mut world.files) {
        Ok(opened) => opened,
        Err(report) => return report,
    };
    let ruled = opened.value;
    let played = match open_script(alloc, opened.message, script_name, &mut world.files) {
        Ok(played) => played,
        Err(report) => return report,
    };
    let started = match open_groups(
        alloc,
        played.message,
        ruled,
        journal,
        stated,
        &mut world.store,
    ) {
        Ok(started) => started,
        Err(report) => return report,
    };
    let Ok(mut pool) = Pool::new(alloc) else {
        return started
            .message
            .with(b"no memory\n")
            .close(alloc, statuses::NO_MEMORY);
    };
    let mut wire = played.value;
    let mut groups = started.value;
    let end = serve_groups(alloc, &mut groups, &mut world.store, &mut wire, &mut pool);
    let _taken = wire.taken();
    let written = wire.write_log(&mut world.out);
    report_play(started.message, end, written, &wire, groups.finish())
}

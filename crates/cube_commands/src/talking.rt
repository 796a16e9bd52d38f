// `sum` and `ask`: the lines of the input are answered.
ghost use Rattle.std.specs.Prelude.{◌≡◌, ◌≢◌, ◌⊎◌, ◌≤◌, ◌+◌, [], true, length, IsTrue};
ghost use Rattle.cube_io.specs.Seen.{seen};
ghost use Rattle.cube_opening.specs.Causes.{HasCauses};
ghost use Rattle.cube_commands.specs.Ends.{AsksJournal};
ghost use Rattle.cube_opening.specs.Outside.{UsesLines, UsesNoWire, counted, outside};
ghost use Rattle.cube_opening.specs.Reports.{IsReport};
ghost use Rattle.cube_starting.specs.Grouping.{OnlyFirst};
ghost use Rattle.cube_commands.specs.Endings.{status_of as status_in, ending_text};
ghost use Rattle.cube_commands.specs.Talks.{SumEnds, SumCompletes, AskEnds, AskCompletes, PermitsAsking};

use cube_io::{Folder, NullStore, Sink, Source, Store, Wire};
use cube_model::Text;
use cube_opening::{
    CubeFiles, Message, Report, World, open_flat, open_guarded, spent_message, statuses,
};
use cube_starting::{Groups, open_alone};
use cube_talk::{Carry, Ending, TalkEnd, converse_by_asks, converse_by_sums};
use std::alloc::Global;

fn status_of(ending: Ending) -> u8
    ensures { result ≡ status_in ending }
{
    match ending {
        Ending::Ended => statuses::DONE,
        Ending::InputFailed => statuses::READ_FAILED,
        Ending::OutputFailed => statuses::OUTPUT_FAILED,
        Ending::NoMemory => statuses::NO_MEMORY,
        Ending::Spent => statuses::ALL_SPENT,
    }
}

fn ending_message(message: Message, end: TalkEnd, requests: u64) -> Message
    requires { message ≡ [] }
    ensures { result ≡ ending_text end.ending requests end.bytes }
{
    match end.ending {
        Ending::Ended => message,
        Ending::InputFailed => message.with(b"input failed\n"),
        Ending::OutputFailed => message.with(b"output failed\n"),
        Ending::NoMemory => message.with(b"no memory\n"),
        Ending::Spent => spent_message(message, requests, end.bytes),
    }
}

fn report_talk(alloc: Global, message: Message, end: TalkEnd, requests: u64) -> Report
    requires { message ≡ [] }
    ensures { IsReport (status_in end.ending) (ending_text end.ending requests end.bytes) result }
{
    ending_message(message, end, requests).close(alloc, status_of(end.ending))
}

/// The sums over a file for the lines of the input.
pub fn sum<F: Folder, S: Store, I: Source, O: Sink, W: Wire>(
    alloc: Global,
    message: Message,
    name: &Text,
    world: &mut World<F, S, I, O, W>,
) -> Report
    requires { message ≡ [] }
    ensures answers { SumEnds name.now (outside F.state S.state I.state O.state W.state world.old world.new) result }
    ensures ended { result.status ≡ 0 → (I.state world.new.input).ended ≡ true }
    ensures causes { HasCauses (counted (outside F.state S.state I.state O.state W.state world.old world.new)) result }
    ensures complete { SumCompletes name.now (outside F.state S.state I.state O.state W.state world.old world.new) result }
    ensures outcomes { result.outcomes ≡ [] }
    ensures leaves { UsesLines (outside F.state S.state I.state O.state W.state world.old world.new) }
{
    let opened = match open_flat(alloc, message, name, &mut world.files) {
        Ok(opened) => opened,
        Err(report) => return report,
    };
    let Ok(carry) = Carry::new(alloc) else {
        return opened
            .message
            .with(b"no memory\n")
            .close(alloc, statuses::NO_MEMORY);
    };
    // A sum rests on no journal.
    let mut none = NullStore::new();
    let (end, lines) = converse_by_sums(
        alloc,
        carry,
        opened.value,
        &mut none,
        &mut world.input,
        &mut world.out,
    );
    report_talk(alloc, opened.message, end, lines)
}

fn report_asks(message: Message, end: TalkEnd, groups: Groups) -> Report
    requires { message ≡ [] }
    ensures status { result.status ≡ status_in end.ending }
    ensures text { result.text ≡ ending_text end.ending (length groups.outcomes) end.bytes }
    ensures outcomes { result.outcomes ≡ groups.outcomes }
{
    let message = ending_message(message, end, groups.outcomes().len() as u64);
    message.close_with(status_of(end.ending), groups.finish())
}

/// The answers of a cube to the lines of the input.
pub fn ask<F: Folder, S: Store, I: Source, O: Sink, W: Wire>(
    alloc: Global,
    message: Message,
    cube: &CubeFiles,
    journal: &Text,
    stated: u64,
    world: &mut World<F, S, I, O, W>,
) -> Report
    requires message { message ≡ [] }
    requires stated { 1 ≤ stated }
    requires permits { PermitsAsking {S = S} cube.now (F.state world.old.files) S.state O.allows world.old.store (O.state world.old.out).written }
    ensures answers { AskEnds cube.now stated (outside F.state S.state I.state O.state W.state world.old world.new) result }
    ensures names { AsksJournal journal.now (seen S.state world.old.store world.new.store) result }
    ensures causes { HasCauses (counted (outside F.state S.state I.state O.state W.state world.old world.new)) result }
    ensures calls { result.status ≡ 9 → IsTrue (S.state world.old.store).told → (S.state world.new.store).calls ≤ (S.state world.old.store).calls + 12 }
    ensures others { OnlyFirst 1 (S.state world.old.store) (S.state world.new.store) }
    ensures ended { result.status ≡ 0 → (I.state world.new.input).ended ≡ true }
    ensures sight { IsTrue (S.state world.old.store).told → (O.state world.new.out).loose ≡ (O.state world.old.out).loose }
    ensures memory { result.status ≡ 7 → (world.new.input ≡ world.old.input) × (world.new.out ≡ world.old.out) × (result.outcomes ≡ []) }
    ensures complete { AskCompletes cube.now (outside F.state S.state I.state O.state W.state world.old world.new) result }
    ensures leaves { UsesNoWire (outside F.state S.state I.state O.state W.state world.old world.new) }
{
    let opened = match open_guarded(alloc, message, cube, &mut world.files) {
        Ok(opened) => opened,
        Err(report) => return report,
    };
    let _rules = opened.value.core.dims();
    let started = match open_alone(
        alloc,
        opened.message,
        opened.value,
        journal,
        stated,
        &mut world.store,
    ) {
        Ok(started) => started,
        Err(report) => return report,
    };
    let Ok(carry) = Carry::new(alloc) else {
        return started
            .message
            .with(b"no memory\n")
            .close(alloc, statuses::NO_MEMORY);
    };
    let (end, groups) = converse_by_asks(
        alloc,
        carry,
        started.value,
        &mut world.store,
        &mut world.input,
        &mut world.out,
    );
    report_asks(started.message, end, groups)
}

// What is told of a cube before it is opened, or behind its journal: what can be released from it, and how a workload would be judged.
ghost use Rattle.std.specs.Prelude.{◌≡◌, ◌≢◌, ◌⊎◌, ◌≤◌, ◌+◌, ◌++◌, ◌∷◌, [], true, length, IsTrue, IfOk, IfErr, OnOk, IfSome, Ok, None, Some};
ghost use Rattle.cube_advise.specs.Lines.{is_workload as has_few_lines};
ghost use Rattle.cube_advise.specs.Telling.{HasFewLines, later_text};
ghost use Rattle.cube_io.specs.Files.{max_file};
ghost use Rattle.cube_io.specs.Seen.{seen};
ghost use Rattle.cube_model.specs.Policies.{IsPolicy};
ghost use Rattle.cube_opening.specs.Causes.{HasCauses};
ghost use Rattle.cube_commands.specs.Ends.{AsksJournal};
ghost use Rattle.cube_opening.specs.Outside.{UsesFiles, UsesJournal, counted, outside};
ghost use Rattle.cube_opening.specs.Opening.{FileSays, AskedFor, EndsAt, GotBehind, IsSteady, Make, Reads};
ghost use Rattle.cube_opening.specs.Reports.{IsReport};
ghost use Rattle.cube_starting.specs.Grouping.{OnlyFirst};
ghost use Rattle.cube_commands.specs.Advising.{workload_said, WorkloadSays, named_with, EndsUnread, FirstEnds, LaterEnds, AdviseEnds, AsksIfNamed, AdviseCompletes};

use crate::saying::put_text;
use cube_advise::{is_workload, told_first, told_later};
use cube_engine::Book;
use cube_io::{Folder, Sink, Source, Store, Wire};
use cube_model::{NoMemory, Text};
use cube_opening::{
    CubeFiles, Guarded, Message, Opened, Report, World, open_guarded, read_bytes, statuses,
};
use cube_starting::open_book;
use std::alloc::Global;

// The files of a run: those of a cube, and the bytes of the workload, where one is named.
#[derive(Drop)]
struct Advisable {
    guarded: Guarded,
    workload: Option<Text>,
}

// A workload of these bytes.
fn limit_lines(alloc: Global, message: Message, bytes: Text) -> Result<Opened<Text>, Report>
    requires { message ≡ [] }
    ensures ok { IfOk result (λ opened. (opened.message ≡ []) × (has_few_lines opened.value ≡ true) × (opened.value ≡ bytes) × (length bytes ≤ max_file → workload_said bytes ≡ Ok opened.value)) }
    ensures err { IfErr result (λ r. IsReport 3 r.text r × (length bytes ≤ max_file → workload_said bytes ≡ Err r.text)) }
{
    if is_workload(bytes.as_slice()) {
        Ok(Opened {
            message,
            value: bytes,
        })
    } else {
        Err(
            message
                .with(b"workload: limit lines 1000000\n")
                .close(alloc, statuses::FILE_REFUSED),
        )
    }
}

// Reads a workload.
fn open_workload<F: Folder>(
    alloc: Global,
    message: Message,
    name: &Text,
    files: &mut F,
) -> Result<Opened<Text>, Report>
    requires { message ≡ [] }
    ensures ok { IfOk result (λ opened. (opened.message ≡ []) × (has_few_lines opened.value ≡ true) × IfSome (F.state files.old).files (λ known. FileSays workload_said name.now known (Ok opened.value))) }
    ensures err { IfErr result (EndsAt [] workload_said name.now (seen F.state files.old files.new)) }
    ensures asks { OnOk result (AskedFor (name.now ∷ []) (seen F.state files.old files.new)) }
    ensures reads { Reads (seen F.state files.old files.new) result }
{
    let opened = match read_bytes(alloc, message, b"workload", name, files) {
        Ok(opened) => opened,
        Err(report) => return Err(report),
    };
    limit_lines(alloc, opened.message, opened.value)
}

// Reads the files of a cube, and the workload, where one is named.
fn open_advisable<F: Folder>(
    alloc: Global,
    message: Message,
    cube: &CubeFiles,
    workload: &Option<Text>,
    files: &mut F,
) -> Result<Opened<Advisable>, Report>
    requires { message ≡ [] }
    ensures ok { IfOk result (λ opened. (opened.message ≡ []) × Make cube.now (F.state files.old) opened.value.guarded.core opened.value.guarded.policy) }
    ensures rules { IfOk result (λ opened. IsPolicy opened.value.guarded.core.dims opened.value.guarded.policy) }
    ensures said { IfOk result (λ opened. WorkloadSays workload.now (F.state files.old) opened.value.workload) }
    ensures err { IfErr result (EndsUnread cube.now workload.now (seen F.state files.old files.new)) }
    ensures behind { OnOk result (GotBehind (named_with cube.now workload.now) (seen F.state files.old files.new)) }
    ensures steady { OnOk result (IsSteady (seen F.state files.old files.new)) }
    ensures steady_err { IfErr result (λ r. r.status ≢ 5 → IsSteady (seen F.state files.old files.new)) }
{
    let opened = match open_guarded(alloc, message, cube, files) {
        Ok(opened) => opened,
        Err(report) => return Err(report),
    };
    let guarded = opened.value;
    match workload {
        None => Ok(Opened {
            message: opened.message,
            value: Advisable {
                guarded,
                workload: None,
            },
        }),
        Some(name) => match open_workload(alloc, opened.message, name, files) {
            Ok(read) => Ok(Opened {
                message: read.message,
                value: Advisable {
                    guarded,
                    workload: Some(read.value),
                },
            }),
            Err(report) => Err(report),
        },
    }
}

// What is told behind the history of a book.
fn told_behind(alloc: Global, book: &Book, workload: &Option<Text>) -> Result<Text, NoMemory>
    requires { HasFewLines workload.now }
    ensures { IfOk result (λ text. text ≡ later_text book.now.core book.now.policy book.now.history workload.now) }
{
    let (core, policy) = (book.core(), book.policy());
    told_later(alloc, core, policy, book.state().history(), workload)
}

// Puts what can be released before anything is asked.
fn advise_first<F: Folder, S: Store, I: Source, O: Sink, W: Wire>(
    alloc: Global,
    message: Message,
    cube: &CubeFiles,
    workload: &Option<Text>,
    world: &mut World<F, S, I, O, W>,
) -> Report
    requires { message ≡ [] }
    ensures answers { FirstEnds cube.now workload.now (outside F.state S.state I.state O.state W.state world.old world.new) result }
    ensures causes { HasCauses (counted (outside F.state S.state I.state O.state W.state world.old world.new)) result }
    ensures complete { AdviseCompletes cube.now None workload.now (outside F.state S.state I.state O.state W.state world.old world.new) result }
    ensures outcomes { result.outcomes ≡ [] }
    ensures leaves { UsesFiles (outside F.state S.state I.state O.state W.state world.old world.new) }
{
    let opened = match open_advisable(alloc, message, cube, workload, &mut world.files) {
        Ok(opened) => opened,
        Err(report) => return report,
    };
    let Advisable {
        guarded,
        workload: bytes,
    } = opened.value;
    let _rules = guarded.core.dims();
    let text = told_first(alloc, &guarded.core, &guarded.policy, &bytes);
    put_text(alloc, opened.message, text, &mut world.out)
}

// Puts what can be released behind the history that the journal holds.
fn advise_later<F: Folder, S: Store, I: Source, O: Sink, W: Wire>(
    alloc: Global,
    message: Message,
    cube: &CubeFiles,
    journal: &Text,
    workload: &Option<Text>,
    world: &mut World<F, S, I, O, W>,
) -> Report
    requires { message ≡ [] }
    ensures answers { LaterEnds cube.now workload.now (outside F.state S.state I.state O.state W.state world.old world.new) result }
    ensures names { AsksJournal journal.now (seen S.state world.old.store world.new.store) result }
    ensures causes { HasCauses (counted (outside F.state S.state I.state O.state W.state world.old world.new)) result }
    ensures calls { IsTrue (S.state world.old.store).told → (S.state world.new.store).calls ≤ (S.state world.old.store).calls + 12 }
    ensures others { OnlyFirst 1 (S.state world.old.store) (S.state world.new.store) }
    ensures complete { AdviseCompletes cube.now (Some journal.now) workload.now (outside F.state S.state I.state O.state W.state world.old world.new) result }
    ensures outcomes { result.outcomes ≡ [] }
    ensures leaves { UsesJournal (outside F.state S.state I.state O.state W.state world.old world.new) }
{
    let opened = match open_advisable(alloc, message, cube, workload, &mut world.files) {
        Ok(opened) => opened,
        Err(report) => return report,
    };
    let Advisable {
        guarded,
        workload: bytes,
    } = opened.value;
    let _rules = guarded.core.dims();
    let started = match open_book(alloc, opened.message, guarded, journal, &mut world.store) {
        Ok(started) => started,
        Err(report) => return report,
    };
    let text = told_behind(alloc, &started.value, &bytes);
    put_text(alloc, started.message, text, &mut world.out)
}

/// Puts what can be released from a cube, before anything is asked or behind the history that the journal holds, where one is named, and
/// the words for the lines of a workload, where one is named.
pub fn advise<F: Folder, S: Store, I: Source, O: Sink, W: Wire>(
    alloc: Global,
    message: Message,
    cube: &CubeFiles,
    journal: &Option<Text>,
    workload: &Option<Text>,
    world: &mut World<F, S, I, O, W>,
) -> Report
    requires { message ≡ [] }
    ensures answers { AdviseEnds cube.now journal.now workload.now (outside F.state S.state I.state O.state W.state world.old world.new) result }
    ensures names { AsksIfNamed journal.now (seen S.state world.old.store world.new.store) result }
    ensures causes { HasCauses (counted (outside F.state S.state I.state O.state W.state world.old world.new)) result }
    ensures calls { IsTrue (S.state world.old.store).told → (S.state world.new.store).calls ≤ (S.state world.old.store).calls + 12 }
    ensures others { OnlyFirst 1 (S.state world.old.store) (S.state world.new.store) }
    ensures complete { AdviseCompletes cube.now journal.now workload.now (outside F.state S.state I.state O.state W.state world.old world.new) result }
    ensures outcomes { result.outcomes ≡ [] }
    ensures leaves { UsesJournal (outside F.state S.state I.state O.state W.state world.old world.new) }
{
    match journal {
        None => advise_first(alloc, message, cube, workload, world),
        Some(name) => advise_later(alloc, message, cube, name, workload, world),
    }
}
